// Opening an envelope: the bundle as a part of the bytes, or why there is none, and how many bytes are missing.
ghost use Rattle.std.specs.Prelude.{◌≡◌, ◌≤◌, ◌<◌, length};
ghost use Rattle.format.specs.Answer.{counted};
ghost use Rattle.format.specs.Envelope.{opening};
ghost use Rattle.envelope.specs.Answers.{bundle_in, length_field, missing_from, length_size};

use crate::{LENGTH_SIZE, OVERHEAD, VERSION};
use format::{Bundle, Error, Failure, fail};
use wire::header::number;

// What the first two bytes say: the number of bytes after them.
#[tactic(auto, unfolding(crate::specs::Answers::length_field))]
fn length_field(bytes: &[u8]) -> usize
    requires { length_size ≤ length bytes.now }
    ensures { result ≡ length_field bytes.now }
{
    number(&bytes[..LENGTH_SIZE]) as usize
}

// The length of the bundle in an envelope, or why it does not open.
pub fn bundle_len(bytes: &[u8]) -> Result<usize, Failure>
    ensures { result ≡ counted (opening bytes.now) }
{
    if bytes.len() < LENGTH_SIZE {
        return fail(Error::InvalidEnvelope, 0);
    }
    let n = length_field(bytes);
    if n == 0 {
        return fail(Error::InvalidEnvelope, 0);
    }
    if Bundle::MAX_BYTES < n - 1 {
        return fail(Error::InvalidEnvelope, 0);
    }
    if bytes.len() - LENGTH_SIZE < n {
        return fail(Error::InvalidEnvelope, 0);
    }
    if bytes[LENGTH_SIZE] != VERSION {
        return fail(Error::UnsupportedVersion, 0);
    }
    Ok(n - 1)
}

// The bundle in an envelope, as that part of the bytes; an empty part where it does not open. Bytes after it are not looked at.
pub fn open(bytes: &[u8]) -> &[u8]
    ensures { result.now ≡ bundle_in (opening bytes.now) }
{
    match bundle_len(bytes) {
        Ok(n) => &bytes[OVERHEAD..OVERHEAD + n],
        Err(_) => &bytes[0..0],
    }
}

// How many bytes have to come before opening answers for good: 0 where more bytes change nothing.
#[tactic(auto, unfolding(crate::specs::Answers::missing_from, format::specs::Choice::pick))]
pub fn missing(bytes: &[u8]) -> usize
    ensures { result ≡ missing_from bytes.now }
{
    if bytes.len() < LENGTH_SIZE {
        return LENGTH_SIZE - bytes.len();
    }
    let n = length_field(bytes);
    if 1 + Bundle::MAX_BYTES < n {
        return 0;
    }
    (LENGTH_SIZE + n).saturating_sub(bytes.len())
}

// Closing an envelope: the bundle's bytes, unread, behind a length and a version.
ghost use Rattle.std.specs.Prelude.{length};
ghost use Rattle.format.specs.Envelope.{closing};
ghost use Rattle.format.specs.Written.{Writes};

use crate::{LENGTH_SIZE, OVERHEAD, VERSION};
use format::{Bundle, Error, Failure, fail};
use wire::output::{copy, put_number};

// Writes the envelope of a bundle; on an error no byte is changed.
pub fn close(bundle: &[u8], out: &mut [u8]) -> Result<usize, Failure>
    ensures { Writes (closing bundle.now (length out.old)) out.old result out.new }
{
    let n = bundle.len();
    if Bundle::MAX_BYTES < n {
        return fail(Error::TooLong, 0);
    }
    if out.len() < OVERHEAD + n {
        return fail(Error::OutputTooLong, 0);
    }
    put_number(out, LENGTH_SIZE, 1 + n as u64);
    out[LENGTH_SIZE] = VERSION;
    Ok(OVERHEAD + copy(&mut out[OVERHEAD..], bundle))
}

// Why an envelope is refused, written at the start of a buffer; what is answered is how many bytes were written.
ghost use Rattle.std.specs.Prelude.{◌≡◌, ◌≤◌, length};
ghost use Rattle.wire.specs.Output.{Puts};
ghost use Rattle.messages.specs.Text.{error_at, max_refusal, meaning, refusal, words};

use ascii::{Decimal, put_labelled};
use wire::output::copy;

#[derive(Clone, Copy)]
pub struct Refusal;

impl Refusal {
    // A refusal without its numbers and words, and the longest words.
    const FRAME: [u8; 26] = *b": envelope : error  at : \n";

    const LONGEST: [u8; 55] = *b"the length of the envelope is bad, or bytes are missing";

    // A buffer with so many bytes takes any refusal.
    pub const MAX_LEN: usize = Refusal::FRAME.len() + Refusal::LONGEST.len() + 3 * Decimal::MAX_LEN;
}

// What an error's number means. By number, and not by `Error`: `put_refusal` promises the words of every number
// (docs/PROMISES), and an `Error` would ask more of its callers.
#[tactic(auto, unfolding(crate::specs::Text::words, crate::specs::Text::beside, format::specs::Choice::pick, ascii::specs::Text::ascii))]
fn words(error: u8) -> &'static [u8]
    ensures { result.now ≡ words error }
{
    match error {
        1 => b"the bundle is over 16384 bytes",
        2 => b"an item or part of it is due, and the bytes have ended",
        3 => b"a string, symbol or key is not UTF-8",
        4 => b"a reference to an entry not yet made",
        5 => b"a key straight after a key",
        6 => b"a container inside 32 open ones",
        7 => b"more than 1024 rows",
        8 => b"more than 256 entries",
        10 => b"the canonical encoding is over 16384 bytes",
        12 => b"the length of the envelope is bad, or bytes are missing",
        13 => b"the version of the envelope is not 1",
        _ => b"an error of another kind",
    }
}

// The error's number and its place.
fn put_error(error: u8, place: usize, out: &mut [u8]) -> usize
    requires { length (error_at error place) ≤ length out.old }
    ensures { Puts (error_at error place) result out.old out.new }
{
    let at = put_labelled(b": error ", error as u64, out);
    at + put_labelled(b" at ", place as u64, &mut out[at..])
}

// What the error means, and the end of the line.
fn put_meaning(error: u8, out: &mut [u8]) -> usize
    requires { length (meaning error) ≤ length out.old }
    ensures { Puts (meaning error) result out.old out.new }
{
    let a = copy(out, b": ");
    let b = a + copy(&mut out[a..], words(error));
    out[b] = b'\n';
    b + 1
}

// Of envelope k: the error's number, its place and what it means. It stands behind a label, and ends the line.
pub fn put_refusal(k: u64, error: u8, place: usize, out: &mut [u8]) -> usize
    requires { max_refusal ≤ length out.old }
    ensures { Puts (refusal k error place) result out.old out.new }
{
    let a = put_labelled(b": envelope ", k, out);
    let b = a + put_error(error, place, &mut out[a..]);
    b + put_meaning(error, &mut out[b..])
}

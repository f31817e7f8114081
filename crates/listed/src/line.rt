// Lines, written at the start of a buffer; what is answered is how many bytes were written.
ghost use Rattle.std.specs.Prelude.{◌≤◌, length};
ghost use Rattle.listed.specs.Text.{row_line, bundle_line, first_line, envelope_text};
ghost use Rattle.wire.specs.Output.{Puts};

use ascii::{put_ended, put_labelled};
use format::{Bundle, Failure, Row};

// A row: its index, kind, number and start.
pub fn put_row(i: u64, row: Row, out: &mut [u8]) -> usize
    requires { length (row_line i row) ≤ length out.old }
    ensures { Puts (row_line i row) result out.old out.new }
{
    let a = put_ended(i, b' ', out);
    let b = a + put_ended(row.kind as u64, b' ', &mut out[a..]);
    let c = b + put_ended(row.number, b' ', &mut out[b..]);
    c + put_ended(row.start as u64, b'\n', &mut out[c..])
}

// `bundle K`, and two words, each with its number.
fn put_bundle_line(k: u64, word: &[u8], n: u64, other: &[u8], m: u64, out: &mut [u8]) -> usize
    requires { length (bundle_line k word.now n other.now m) ≤ length out.old }
    ensures { Puts (bundle_line k word.now n other.now m) result out.old out.new }
{
    let a = put_labelled(b"bundle ", k, out);
    let b = a + put_labelled(word, n, &mut out[a..]);
    let c = b + put_labelled(other, m, &mut out[b..]);
    out[c] = b'\n';
    c + 1
}

// The counts of a bundle, or why it is refused.
pub fn put_first(k: u64, answer: Result<Bundle, Failure>, out: &mut [u8]) -> usize
    requires { length (first_line k answer) ≤ length out.old }
    ensures { Puts (first_line k answer) result out.old out.new }
{
    match answer {
        Ok(b) => put_bundle_line(
            k,
            b" rows ",
            b.rows as u64,
            b" names ",
            b.entries as u64,
            out,
        ),
        Err(f) => {
            put_bundle_line(
                k,
                b" refused ",
                f.error.code() as u64,
                b" at ",
                f.place as u64,
                out,
            )
        }
    }
}

// An envelope that is refused.
pub fn put_envelope(k: u64, number: u8, out: &mut [u8]) -> usize
    requires { length (envelope_text k number) ≤ length out.old }
    ensures { Puts (envelope_text k number) result out.old out.new }
{
    let a = put_labelled(b"envelope ", k, out);
    let b = a + put_labelled(b" refused ", number as u64, &mut out[a..]);
    out[b] = b'\n';
    b + 1
}

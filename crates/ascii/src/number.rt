// Numbers in decimal, written at the start of a buffer; what is answered is how many bytes were written.
ghost use Rattle.std.specs.Prelude.{◌≤◌, length};
ghost use Rattle.ascii.specs.Text.{decimal, ended, labelled};
ghost use Rattle.wire.specs.Output.{Puts};

use wire::output::copy;

#[derive(Clone, Copy)]
pub struct Decimal;

impl Decimal {
    // The digits of the largest number, 18446744073709551615.
    pub const MAX_LEN: usize = 20;
}

// By recursion, so that each digit is worked out once and written in its place; two digits at a time.
pub fn put_decimal(n: u64, out: &mut [u8]) -> usize
    requires { length (decimal n) ≤ length out.old }
    ensures { Puts (decimal n) result out.old out.new }
{
    if n < 10 {
        out[0] = b'0' + n as u8;
        return 1;
    }
    if n < 100 {
        out[0] = b'0' + (n / 10) as u8;
        out[1] = b'0' + (n % 10) as u8;
        return 2;
    }
    let at = put_decimal(n / 100, out);
    let r = n % 100;
    out[at] = b'0' + (r / 10) as u8;
    out[at + 1] = b'0' + (r % 10) as u8;
    at + 2
}

// A number and the byte after it.
pub fn put_ended(n: u64, end: u8, out: &mut [u8]) -> usize
    requires { length (ended n end) ≤ length out.old }
    ensures { Puts (ended n end) result out.old out.new }
{
    let at = put_decimal(n, out);
    out[at] = end;
    at + 1
}

// A word and a number.
pub fn put_labelled(word: &[u8], n: u64, out: &mut [u8]) -> usize
    requires { length (labelled word.now n) ≤ length out.old }
    ensures { Puts (labelled word.now n) result out.old out.new }
{
    let at = copy(out, word);
    at + put_decimal(n, &mut out[at..])
}

// Writing rows over a text: judged first, then written.
ghost use Rattle.std.specs.Prelude.{◌≡◌, ◌||◌, eqb, ltb, length};
ghost use Rattle.format.specs.Writing.{writing};
ghost use Rattle.format.specs.Written.{Writes};

use crate::judging::judge;
use crate::putting::put;
use encoder::fitting::is_over;
use format::{Bundle, Error, Failure, Row, fail};
use rows::{Plan, State};

// Is an item still due?
fn is_due(s: State) -> bool
    ensures { result ≡ (eqb s.keyed 1 || ltb 0 s.depth) }
{
    s.keyed == 1 || 0 < s.depth
}

// Writes the canonical encoding of rows over a text; on an error no byte is changed.
pub fn write(rows: &[Row], text: &[u8], out: &mut [u8]) -> Result<usize, Failure>
    ensures { Writes (writing rows.now text.now (length out.old)) out.old result out.new }
{
    if Row::MAX_COUNT < rows.len() {
        return fail(Error::TooManyRows, 0);
    }
    if Bundle::MAX_BYTES < text.len() {
        return fail(Error::TooLong, 0);
    }
    let mut plan = [0u16; Plan::SIZE];
    let s = judge(rows, text, &mut plan)?;
    if is_due(s) {
        return fail(Error::Truncated, s.row);
    }
    if is_over(s.size, out.len()) {
        return fail(Error::OutputTooLong, 0);
    }
    put(rows, text, &plan, out);
    Ok(s.size)
}

// How far judging has come: small numbers, changed in place.
ghost use Rattle.std.specs.Prelude.{◌≡◌, ◌+◌, ◌≤◌, length};
ghost use Rattle.format.specs.declared.error.Error.TheVariants.{InvalidUtf8};
ghost use Rattle.format.specs.Answer.{failure_beside};
ghost use Rattle.format.specs.Limits.{max_bytes};
ghost use Rattle.format.specs.Utf8.{bad_at};

use format::{Error, Failure, Row};

#[derive(Clone, Copy)]
pub struct State {
    // rows taken
    pub row: usize,
    // open containers, whose fields left stand in an array beside, in fixed memory
    pub depth: usize,
    // fields left in the innermost
    pub left: u64,
    // 1 where a key was taken and its value is due. As a truth value, with padding behind it, writing boards took 1.08 times as
    // long and names 1.05 times (two runs of the bench in turn).
    pub keyed: usize,
    // bytes of the canonical encoding
    pub size: usize,
}

impl State {
    // More fields at the top than there can be rows.
    pub const TOP: u64 = Row::MAX_COUNT as u64 + 1;
}

// A row whose text, from start on, is not UTF-8: only now the place is looked for.
pub fn invalid_text(row: usize, start: usize, part: &[u8]) -> Failure
    requires { start + length part.now ≤ max_bytes }
    ensures { result ≡ failure_beside InvalidUtf8 (start + bad_at part.now) row }
{
    let place = start + utf8::bad_at(part);
    Failure::beside(Error::InvalidUtf8, place, row)
}

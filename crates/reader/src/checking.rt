// Checking a bundle: its counts, or an error.
ghost use Rattle.std.specs.Prelude.{◌≡◌, ℕ, ◌≤◌, min};
ghost use Rattle.format.specs.declared.error.Mode.TheVariants.{Lenient};
ghost use Rattle.format.specs.Limits.{max_rows};
ghost use Rattle.format.specs.Reading.{options, counts};

use crate::fields::Step;
use format::{Bundle, Error, Failure, FieldCount, Mode, Row, SymbolTable, fail};
use symbols::lookup::Links;

// How many fields are asked for at the top: more than there are bytes, so that the bytes end first.
#[derive(Clone, Copy)]
struct Top;

impl Top {
    const FIELDS: u64 = Bundle::MAX_BYTES as u64 + 1;
}

// The counts of a bundle of which most rows may be read.
pub fn walk(bytes: &[u8], mode: Mode, most: usize) -> Result<Bundle, Failure>
    requires { most ≤ max_rows }
    ensures { (n : ℕ) → min max_rows n ≡ most → result ≡ counts (options mode n) bytes.now }
{
    if Bundle::MAX_BYTES < bytes.len() {
        return fail(Error::TooLong, 0);
    }
    let mut entries = SymbolTable::new();
    let mut links = [0u16; Links::SIZE];
    let strict = mode.is_strict();
    let all = crate::fields::fields(
        bytes,
        strict,
        Bundle::MAX_DEPTH,
        FieldCount(Top::FIELDS),
        0,
        0,
        most,
        &mut entries,
        &mut links,
    )?;
    match all {
        Step::End(left, u) => {
            if u.keyed == 1 {
                return fail(Error::Truncated, u.at);
            }
            Ok(Bundle::new(most - u.rows, u.names, (Top::FIELDS - left) as usize))
        }
        Step::Good(u) => fail(Error::Truncated, u.at),
    }
}

// Checks a bundle leniently.
pub fn check(bytes: &[u8]) -> Result<Bundle, Failure>
    ensures { result ≡ counts (options Lenient max_rows) bytes.now }
{
    check_in(bytes, Mode::default())
}

pub fn check_in(bytes: &[u8], mode: Mode) -> Result<Bundle, Failure>
    ensures { result ≡ counts (options mode max_rows) bytes.now }
{
    walk(bytes, mode, Row::MAX_COUNT)
}

// The recursive reader: n fields, each a value, or a key and its value, with all that a container holds.
ghost use Rattle.std.specs.Prelude.{◌≡◌, Bool, false, ℕ, ◌+◌, ◌-◌, ◌≤◌, ◌<◌, min, length};
ghost use Rattle.format.specs.Limits.{max_bytes, max_rows};
ghost use Rattle.format.specs.Place.{Place};
ghost use Rattle.format.specs.Reading.{Options, State};
ghost use Rattle.items.specs.Judging.{Fair, Stands};
ghost use Rattle.reader.specs.Lanes.{Lane, Went, Resumes, bad_text_in};

use format::{Error, Failure, FieldCount, SymbolTable, fail};
use items::item::{Out, Refusal};
use symbols::lookup::Links;

// How far reading has come: the offset, the entries, the rows that are left, and 1 where a key
// was read and its value is due (as in `rows::State`).
#[derive(Clone, Copy)]
pub struct Cursor {
    pub at: usize,
    pub names: usize,
    pub rows: usize,
    pub keyed: usize,
}

// What fields come to: the end of the bytes with some of them left, or all are read.
#[derive(Clone, Copy)]
pub enum Step {
    End(u64, Cursor),
    Good(Cursor),
}

// A text, from one offset to another, that is not UTF-8: only now the place is looked for.
fn bad_text(s: &[u8], start: usize, end: usize) -> Result<Step, Failure>
    requires { (start ≤ end) × (end ≤ length s.now) × (length s.now ≤ max_bytes) }
    ensures { result ≡ bad_text_in s.now start end }
{
    let place = start + utf8::bad_at(&s[start..end]);
    fail(Error::InvalidUtf8, place)
}

pub fn fields(
    s: &[u8],
    strict: bool,
    depth: usize,
    count: FieldCount,
    from: usize,
    known: usize,
    free: usize,
    entries: &mut [u64; SymbolTable::MAX_ENTRIES],
    links: &mut [u16; Links::SIZE],
) -> Result<Step, Failure>
    requires { (from ≤ length s.now) × (length s.now ≤ max_bytes) × Fair strict s.now entries.old links.old known }
    ensures went { Went strict s.now entries.new links.new from count.0 result }
    ensures resumes { (Q : ℕ → Bool → Place) (o : Options) (a : State) → o.strict ≡ strict
        → Lane Q depth count.0 → Stands s.now entries.old from known 0 a
        → length a.found + free ≡ min max_rows o.capacity → a.place ≡ Q count.0 false
        → Resumes o s.now entries.new Q a result }
{
    let mut at = from;
    let mut names = known;
    let mut rows = free;
    let mut keyed = 0;
    let mut left = count.0;
    while 0 < left {
        if s.len() <= at {
            return Ok(Step::End(
                left,
                Cursor {
                    at,
                    names,
                    rows,
                    keyed,
                },
            ));
        }
        match items::item::one(s, strict, depth, at, names, keyed, entries, links) {
            Err(Refusal::Error(k)) => {
                return fail(k, at);
            }
            Err(Refusal::Text(start, end)) => {
                return bad_text(s, start, end);
            }
            Ok(Out::Value(u)) => {
                if rows == 0 {
                    return fail(Error::TooManyRows, at);
                }
                at = u;
                rows -= 1;
                keyed = 0;
                left -= 1;
            }
            Ok(Out::Key(u)) => {
                if rows == 0 {
                    return fail(Error::TooManyRows, at);
                }
                at = u;
                rows -= 1;
                keyed = 1;
            }
            Ok(Out::NewSymbol(u)) => {
                if rows == 0 {
                    return fail(Error::TooManyRows, at);
                }
                at = u;
                names += 1;
                rows -= 1;
                keyed = 0;
                left -= 1;
            }
            Ok(Out::NewKey(u)) => {
                if rows == 0 {
                    return fail(Error::TooManyRows, at);
                }
                at = u;
                names += 1;
                rows -= 1;
                keyed = 1;
            }
            Ok(Out::Container(n, u)) => {
                if rows == 0 {
                    return fail(Error::TooManyRows, at);
                }
                let inner = fields(s, strict, depth - 1, n, u, names, rows - 1, entries, links)?;
                match inner {
                    Step::End(_, v) => {
                        return fail(Error::Truncated, v.at);
                    }
                    Step::Good(v) => {
                        at = v.at;
                        names = v.names;
                        rows = v.rows;
                        keyed = 0;
                        left -= 1;
                    }
                }
            }
        }
    }
    Ok(Step::Good(Cursor {
        at,
        names,
        rows,
        keyed,
    }))
}

// A row that is a symbol or a key: found in the table of names, or put into it.
ghost use Rattle.std.specs.Prelude.{◌≡◌, true, ◌||◌, List, ℕ, ◌+◌, ◌-◌, ◌≤◌, ◌<◌, ltb, length, set};
ghost use Rattle.format.specs.declared.row.Row.{Row};
ghost use Rattle.format.specs.Kind as Kind;
ghost use Rattle.format.specs.Code as Code;
ghost use Rattle.format.specs.Limits.{max_bytes, max_entries, max_kind};
ghost use Rattle.format.specs.Header.{header};
ghost use Rattle.encoder.specs.Plan.{no_index};
ghost use Rattle.rows.specs.Plan.{plan_size, guess_at};
ghost use Rattle.rows.specs.Judging.{After, Kept, Next, Ready};
ghost use Rattle.rows.specs.Names.{Naming};
ghost use Rattle.rows.specs.Steps.{named_by};

use crate::item::{content, outside};
use crate::place::named;
use crate::state::{State, invalid_text};
use encoder::putting::Reference;
use format::{Bundle, Error, Failure, Header, Row, fail};
use symbols::entry::key_of;
use symbols::lookup::Noted;
use symbols::names::Names;
use utf8::is_utf8;
use wire::header::{code_of, header_len};
use wire::rules::key_after_key;

// For each row that is a name its reference, and then guesses: the entry of a name that begins at a place in the text,
// if it is still there. One array in fixed memory: the numbers are indices, and `Reference::FULL` for a name in full.
#[derive(Clone, Copy)]
pub struct Plan;

impl Plan {
    pub const GUESSES: usize = Row::MAX_COUNT;

    pub const MODULUS: usize = 509;

    pub const SIZE: usize = Plan::GUESSES + Plan::MODULUS;
}

// Rule 9 for a name.
fn is_bad(len: usize, row: Row) -> bool
    requires { Kind.symbol ≤ row.kind }
    ensures { result ≡ (ltb max_kind row.kind || ltb len (row.start + row.number)) }
{
    if Row::MAX_KIND < row.kind {
        return true;
    }
    outside(len, row.start, row.number)
}

// A name that has an entry.
fn known(
    stack: &[u64; Bundle::MAX_DEPTH],
    plan: &mut [u16; Plan::SIZE],
    s: &mut State,
    kind: u8,
    i: u16,
)
    requires { ((text : List ℕ) × Ready text stack.now s.old) × (length plan.old ≡ plan_size) }
    ensures state { s.new ≡ named_by stack.now s.old kind (length (header Code.reference i)) }
    ensures planned { plan.new ≡ set plan.old s.old.row i }
{
    let row = s.row;
    plan[row] = i;
    named(stack, s, kind, header_len(Header::REFERENCE, i as u64));
}

// A name that is entered now after so many: the guess for its place in the text, and that it stands in full.
fn fresh(
    stack: &[u64; Bundle::MAX_DEPTH],
    plan: &mut [u16; Plan::SIZE],
    s: &mut State,
    row: Row,
    names: usize,
)
    requires { ((text : List ℕ) × Ready text stack.now s.old) × (length plan.old ≡ plan_size)
        × (names < max_entries) × (Kind.symbol ≤ row.kind) × (row.kind ≤ Kind.key) × (row.number ≤ max_bytes) }
    ensures state { s.new ≡ named_by stack.now s.old row.kind
        (length (header (row.kind - Kind.bytes) row.number) + row.number) }
    ensures planned { plan.new ≡ set (set plan.old (guess_at row.start) names) s.old.row no_index }
{
    let at = s.row;
    let start = row.start;
    let number = row.number;
    plan[Plan::GUESSES + start % Plan::MODULUS] = names as u16;
    plan[at] = Reference::FULL;
    let n = header_len(code_of(row.kind), number) + number as usize;
    named(stack, s, row.kind, n);
}

// A name that no guess finds.
fn looked_up(
    names: &mut Names<'_>,
    stack: &[u64; Bundle::MAX_DEPTH],
    plan: &mut [u16; Plan::SIZE],
    s: &mut State,
    row: Row,
) -> Result<(), Failure>
    requires { Ready names.old.first.now stack.now s.old × Naming names.old.first.now s.old row × (length plan.old ≡ plan_size) }
    ensures next { (xs : List Row) → After names.old.first.now names.old stack.now plan.old xs s.old
        → Next names.old.first.now names.new stack.now plan.new xs row s.old s.new result }
    ensures texts { (names.new.first.now ≡ names.old.first.now) × (names.new.second.now ≡ names.old.second.now) }
    ensures kept { Kept names.old names.new result × Kept s.old s.new result }
{
    let part = content(names.first, row);
    if !is_utf8(part) {
        return Err(invalid_text(s.row, row.start, part));
    }
    let kind = row.kind;
    let key = key_of(kind, part);
    let n = names.count;
    match names.note(kind, key, 0, row.start, part) {
        Noted::Known(i) => known(stack, plan, s, kind, i as u16),
        Noted::Entered => fresh(stack, plan, s, row, n),
        Noted::Full => return fail(Error::TooManyEntries, s.row),
    }
    Ok(())
}

// A symbol or a key.
pub fn name_row(
    names: &mut Names<'_>,
    stack: &[u64; Bundle::MAX_DEPTH],
    plan: &mut [u16; Plan::SIZE],
    s: &mut State,
    row: Row,
) -> Result<(), Failure>
    requires { Ready names.old.first.now stack.now s.old × (Kind.symbol ≤ row.kind) × (length plan.old ≡ plan_size) }
    ensures next { (xs : List Row) → After names.old.first.now names.old stack.now plan.old xs s.old
        → Next names.old.first.now names.new stack.now plan.new xs row s.old s.new result }
    ensures texts { (names.new.first.now ≡ names.old.first.now) × (names.new.second.now ≡ names.old.second.now) }
    ensures kept { Kept names.old names.new result × Kept s.old s.new result }
{
    if is_bad(names.first.len(), row) {
        return fail(Error::InvalidRow, s.row);
    }
    let kind = row.kind;
    if key_after_key(s.keyed, kind) {
        return fail(Error::UnexpectedKey, s.row);
    }
    let start = row.start;
    let guess = plan[Plan::GUESSES + start % Plan::MODULUS];
    if names.is_part(guess as usize, kind, start, row.number) {
        known(stack, plan, s, kind, guess);
        return Ok(());
    }
    looked_up(names, stack, plan, s, row)
}

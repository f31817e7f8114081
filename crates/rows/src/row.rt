// One row: judged by the rules in their order, and measured.
ghost use Rattle.std.specs.Prelude.{◌≡◌, true, false, List, ℕ, ◌<◌, length};
ghost use Rattle.format.specs.declared.row.Row.{Row};
ghost use Rattle.format.specs.Kind as Kind;
ghost use Rattle.format.specs.Item.{has_content};
ghost use Rattle.symbols.specs.declared.names.Names.{Names};
ghost use Rattle.rows.specs.Plan.{plan_size};
ghost use Rattle.rows.specs.Judging.{After, Kept, Next, Ready};

use crate::item::{bad_number, content, has_content, outside, plain_len};
use crate::name::{Plan, name_row};
use crate::place::{descend, value};
use crate::state::{State, invalid_text};
use format::{Bundle, Error, Failure, Header, Row, fail};
use symbols::names::Names;
use wire::header::{code_of, header_len};
use wire::rules::bad_text;

// Bytes or a string.
fn content_row(
    text: &[u8],
    stack: &[u64; Bundle::MAX_DEPTH],
    s: &mut State,
    row: Row,
) -> Result<(), Failure>
    requires { Ready text.now stack.now s.old × (row.kind < Kind.symbol) × (has_content row.kind ≡ true) }
    ensures next { (names : Names) (plan : List ℕ) (xs : List Row)
        → After text.now names stack.now plan xs s.old
        → Next text.now names stack.now plan xs row s.old s.new result }
    ensures kept { Kept s.old s.new result }
{
    let number = row.number;
    if outside(text.len(), row.start, number) {
        return fail(Error::InvalidRow, s.row);
    }
    let kind = row.kind;
    let part = content(text, row);
    if bad_text(kind == Row::STRING, part) {
        return Err(invalid_text(s.row, row.start, part));
    }
    let n = header_len(code_of(kind), number) + number as usize;
    value(stack, s, n);
    Ok(())
}

// A container, which has no content.
fn container_row(
    stack: &mut [u64; Bundle::MAX_DEPTH],
    s: &mut State,
    number: u64,
) -> Result<(), Failure>
    requires { (text : List ℕ) × Ready text stack.old s.old }
    ensures next { (text : List ℕ) (names : Names) (plan : List ℕ) (xs : List Row) → After text names stack.old plan xs s.old
        → Next text names stack.new plan xs (record { kind = Kind.container; number = number; start = 0 }) s.old s.new result }
    ensures kept { Kept s.old s.new result }
{
    if Bundle::MAX_DEPTH <= s.depth {
        return fail(Error::TooDeep, s.row);
    }
    let n = header_len(Header::CONTAINER, number);
    if number == 0 {
        value(stack, s, n);
        return Ok(());
    }
    descend(stack, s, number, n);
    Ok(())
}

// A row that is no container and has no content.
fn plain_row(
    stack: &[u64; Bundle::MAX_DEPTH],
    s: &mut State,
    kind: u8,
    number: u64,
) -> Result<(), Failure>
    requires { ((text : List ℕ) × Ready text stack.now s.old) × (kind < Kind.container) × (has_content kind ≡ false) }
    ensures next { (text : List ℕ) (names : Names) (plan : List ℕ) (xs : List Row) → After text names stack.now plan xs s.old
        → Next text names stack.now plan xs (record { kind = kind; number = number; start = 0 }) s.old s.new result }
    ensures kept { Kept s.old s.new result }
{
    if bad_number(kind, number) {
        return fail(Error::InvalidRow, s.row);
    }
    value(stack, s, plain_len(kind, number));
    Ok(())
}

// One row more. Where it is refused, the state and the names are as they were.
pub fn step(
    names: &mut Names<'_>,
    stack: &mut [u64; Bundle::MAX_DEPTH],
    plan: &mut [u16; Plan::SIZE],
    s: &mut State,
    row: Row,
) -> Result<(), Failure>
    requires { Ready names.old.first.now stack.old s.old × (length plan.old ≡ plan_size) }
    ensures next { (xs : List Row) → After names.old.first.now names.old stack.old plan.old xs s.old
        → Next names.old.first.now names.new stack.new plan.new xs row s.old s.new result }
    ensures texts { (names.new.first.now ≡ names.old.first.now) × (names.new.second.now ≡ names.old.second.now) }
    ensures kept { Kept names.old names.new result × Kept s.old s.new result }
{
    let kind = row.kind;
    if Row::SYMBOL <= kind {
        return name_row(names, stack, plan, s, row);
    }
    if has_content(kind) {
        return content_row(names.first, stack, s, row);
    }
    if 0 < row.start {
        return fail(Error::InvalidRow, s.row);
    }
    if kind == Row::CONTAINER {
        return container_row(stack, s, row.number);
    }
    plain_row(stack, s, kind, row.number)
}

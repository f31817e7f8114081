// Rows written as they were planned, each at the start of what is left of the buffer.
ghost use Rattle.std.specs.Prelude.{◌≡◌, false, ◌+◌, ◌≤◌, ◌<◌, length, take, Ok};
ghost use Rattle.format.specs.Limits.{max_bytes, max_rows};
ghost use Rattle.format.specs.Answer.{stored};
ghost use Rattle.format.specs.Canonical.{canonical};
ghost use Rattle.format.specs.Rows.{item_at, items_at};
ghost use Rattle.format.specs.Writing.{is_bad};
ghost use Rattle.wire.specs.Output.{Puts};
ghost use Rattle.encoder.specs.Output.{PutsAt};
ghost use Rattle.encoder.specs.Plan.{encoded_at};
ghost use Rattle.rows.specs.Plan.{plan_size};
ghost use Rattle.writer.specs.Putting.{Putting};

use encoder::putting::{put_fixed, put_named, put_sized};
use format::Row;
use rows::{Plan, content, has_content};
use wire::header::code_of;
use wire::output::put_header;

// One row.
fn put_row(out: &mut [u8], text: &[u8], plan: &[u16; Plan::SIZE], i: usize, row: Row) -> usize
    requires { (i < max_rows) × (length plan.now ≡ plan_size) × (length text.now ≤ max_bytes)
        × (is_bad text.now row ≡ false) × (length (encoded_at plan.now i (item_at text.now row)) ≤ length out.old) }
    ensures { Puts (encoded_at plan.now i (item_at text.now row)) result out.old out.new }
{
    let kind = row.kind;
    if kind < Row::BYTES {
        return put_fixed(out, kind, row.number);
    }
    if Row::SYMBOL <= kind {
        return put_named(out, plan[i], code_of(kind), row.number, content(text, row));
    }
    if has_content(kind) {
        return put_sized(out, code_of(kind), row.number, content(text, row));
    }
    put_header(out, code_of(kind), row.number)
}

// Row i, at an offset: the offset after it.
fn put_next(
    out: &mut [u8],
    text: &[u8],
    plan: &[u16; Plan::SIZE],
    at: usize,
    i: usize,
    row: Row,
) -> usize
    requires { (i < max_rows) × (length plan.now ≡ plan_size) × (length text.now ≤ max_bytes)
        × (is_bad text.now row ≡ false) × (at + length (encoded_at plan.now i (item_at text.now row)) ≤ length out.old) }
    ensures { PutsAt at (encoded_at plan.now i (item_at text.now row)) result out.old out.new }
{
    at + put_row(&mut out[at..], text, plan, i, row)
}

// All rows.
pub fn put(rows: &[Row], text: &[u8], plan: &[u16; Plan::SIZE], out: &mut [u8])
    requires { Putting text.now plan.now rows.now (length out.old) }
    ensures { out.new ≡ stored out.old (Ok (canonical (items_at text.now rows.now))) }
{
    let mut at = 0;
    for (i, row) in rows.iter().enumerate() {
        at = put_next(out, text, plan, at, i, *row);
    }
}

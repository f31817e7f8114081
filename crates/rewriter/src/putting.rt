// The second pass over a bundle: each item in its canonical form, at the start of what is left of the buffer.
// It goes by headers. By the rows of `walk::next`, so that each item is told apart twice, canonicalizing took 1.11 to
// 1.24 times as long (five corpora).
ghost use Rattle.std.specs.Prelude.{◌≡◌, List, ◌++◌, ℕ, ◌+◌, ◌≤◌, ◌<◌, length, drop, Some};
ghost use Rattle.format.specs.Limits.{max_bytes};
ghost use Rattle.format.specs.Header.{header_of};
ghost use Rattle.format.specs.Item.{Item};
ghost use Rattle.format.specs.Reading.{State, items_of};
ghost use Rattle.wire.specs.Output.{Puts};
ghost use Rattle.rewriter.specs.Items.{rewritten, content_length, Whole};
ghost use Rattle.rewriter.specs.Putting.{Planning, Putting, Onward, Here, Ready, Put};

use crate::item::{is_fixed, is_number};
use encoder::putting::{put_fixed, put_named, put_sized};
use format::{ByteLength, Header, Row};
use wire::codes::number_of;
use wire::header::header_at;
use wire::output::put_header;

// Where an item ends in the bundle, and how many bytes were written for it.
#[derive(Clone, Copy)]
pub struct Step {
    pub at: usize,
    pub len: usize,
}

// How far writing has come: the offset in the bundle, the row, and the offset in the buffer.
#[derive(Clone, Copy)]
pub struct Spot {
    pub at: usize,
    pub row: usize,
    pub out: usize,
}

// The item of a header, whose content begins at next; a name is written by its reference.
fn put_item(out: &mut [u8], s: &[u8], refer: u16, next: usize, h: Header) -> Step
    requires { Whole s.now next h × (length s.now ≤ max_bytes) × (length (rewritten s.now refer next h) ≤ length out.old) }
    ensures puts { Puts (rewritten s.now refer next h) result.len out.old out.new }
    ensures ends { result.at ≡ next + content_length h }
{
    let code = h.code;
    let p = h.payload;
    if is_number(code) {
        return Step {
            at: next,
            len: put_header(out, code, number_of(code, p)),
        };
    }
    if Header::REFERENCE <= code {
        return Step {
            at: next,
            len: put_header(out, Header::REFERENCE, refer as u64),
        };
    }
    if is_fixed(code, h.sz) {
        return Step {
            at: next,
            len: put_fixed(out, h.sz, p),
        };
    }
    let len = ByteLength::of(h);
    let e = next + len.0 as usize;
    if Header::SYMBOL <= code {
        return Step {
            at: e,
            len: put_named(out, refer, code, len.0, &s[next..e]),
        };
    }
    Step {
        at: e,
        len: put_sized(out, code, len.0, &s[next..e]),
    }
}

// The item of a header, at an offset of the buffer.
fn put_next(out: &mut [u8], s: &[u8], plan: &[u16; Row::MAX_COUNT], w: Spot, h: Header) -> Spot
    requires { Here s.now plan.now out.old w × (Some h ≡ header_of (drop w.at s.now)) }
    ensures { (zs ws : List Item) (u : State) (old : List ℕ)
        → Planning s.now zs ws u plan.now (length old)
        → Putting s.now zs u old out.old w
        → Onward s.now zs u old out.new w result }
{
    let o = w.out;
    let row = w.row;
    let r = put_item(&mut out[o..], s, plan[row], w.at + h.size, h);
    Spot {
        at: r.at,
        row: row + 1,
        out: o + r.len,
    }
}

// The next item.
fn item(out: &mut [u8], s: &[u8], plan: &[u16; Row::MAX_COUNT], w: Spot) -> Spot
    requires { Here s.now plan.now out.old w × (w.at < length s.now) }
    ensures { (zs ws : List Item) (u : State) (old : List ℕ)
        → Planning s.now zs ws u plan.now (length old)
        → Putting s.now zs u old out.old w
        → Onward s.now zs u old out.new w result }
{
    match header_at(s, w.at) {
        // not in a bundle that reads
        None => w,
        Some(h) => put_next(out, s, plan, w, h),
    }
}

// Writes a bundle after what comes before it.
pub fn put(out: &mut [u8], s: &[u8], plan: &[u16; Row::MAX_COUNT], from: Spot) -> Spot
    requires { Ready s.now plan.now out.old from }
    ensures { (zs ws : List Item) (u : State) (old : List ℕ)
        → Planning s.now zs ws u plan.now (length old) → Put zs old out.old from
        → Put (zs ++ items_of u.found) old out.new result }
{
    let mut w = Spot {
        at: 0,
        row: from.row,
        out: from.out,
    };
    // An item at a time, as long as it is.
    while w.at < s.len() {
        w = item(out, s, plan, w);
    }
    w
}

// The first pass over a bundle: its canonical length after what comes before it, and how each name is to be written.
// It goes by headers. By the rows of `walk::next`, where a reference has lost its index, canonicalizing took 1.24 to
// 1.84 times as long (five corpora).
ghost use Rattle.std.specs.Prelude.{◌≡◌, List, ◌+◌, ◌≤◌, ◌<◌, ◌^◌, length, drop, get_or, set, Some};
ghost use Rattle.format.specs.Code as Code;
ghost use Rattle.format.specs.Limits.{max_bytes, max_entries, max_header, max_item, max_rows};
ghost use Rattle.format.specs.Header.{header, header_of};
ghost use Rattle.format.specs.Item.{Item};
ghost use Rattle.format.specs.Reading.{State};
ghost use Rattle.rewriter.specs.Measuring.{tallied, Bundled, Partway, Onward, Here, Begun, Ready, Measures};

use crate::item::{is_fixed, is_number, shortest_len};
use encoder::putting::Reference;
use format::{ByteLength, Header, Row, SymbolTable};
use symbols::entry::key_of;
use symbols::lookup::Noted;
use symbols::names::Names;
use wire::header::{header_at, header_len, kind_of};

// How far measuring has come.
#[derive(Clone, Copy)]
pub struct Tally {
    // the offset in the bundle
    pub at: usize,
    // entries of the bundle
    pub entries: usize,
    // rows, with those of the bundle before it
    pub row: usize,
    // bytes of the canonical encoding, likewise
    pub size: usize,
}

// After an item of n bytes that ends at an offset.
fn after(t: Tally, at: usize, entries: usize, n: usize) -> Tally
    requires { (t.row < max_rows) × (t.size + n < 2 ^ 64) }
    ensures { result ≡ tallied t at entries n }
{
    Tally {
        at,
        entries,
        row: t.row + 1,
        size: t.size + n,
    }
}

// After an item with a header of n bytes and content, which begins at next.
fn held(t: Tally, next: usize, n: usize, len: ByteLength) -> Tally
    requires { (t.row < max_rows) × (t.size + max_item < 2 ^ 64) × (next ≤ max_bytes) × (n ≤ max_header) × (len.0 ≤ max_bytes) }
    ensures { result ≡ tallied t (next + len.0) t.entries (n + len.0) }
{
    let content = len.0 as usize;
    after(t, next + content, t.entries, n + content)
}

// After a name that has an index.
fn referred(plan: &mut [u16; Row::MAX_COUNT], t: Tally, at: usize, entries: usize, i: u16) -> Tally
    requires { (length plan.old ≡ max_rows) × (t.row < max_rows) × (t.size + max_item < 2 ^ 64) }
    ensures state { result ≡ tallied t at entries (length (header Code.reference i)) }
    ensures planned { plan.new ≡ set plan.old t.row i }
{
    let row = t.row;
    plan[row] = i;
    let n = header_len(Header::REFERENCE, i as u64);
    after(t, at, entries, n)
}

// A reference: its entry has an index among the names so far.
fn reference(
    to: &[u16; SymbolTable::MAX_ENTRIES],
    plan: &mut [u16; Row::MAX_COUNT],
    t: Tally,
    next: usize,
    index: u64,
) -> Tally
    requires { (length to.now ≡ max_entries) × (index < max_entries) × (length plan.old ≡ max_rows)
        × (t.row < max_rows) × (t.size + max_item < 2 ^ 64) }
    ensures state { result ≡ tallied t next t.entries (length (header Code.reference (get_or to.now index 0))) }
    ensures planned { plan.new ≡ set plan.old t.row (get_or to.now index 0) }
{
    let i = index as usize;
    referred(plan, t, next, t.entries, to[i])
}

// A name of n bytes in full that ends at e, which is new.
fn fresh(plan: &mut [u16; Row::MAX_COUNT], t: Tally, e: usize, n: usize) -> Tally
    requires { (length plan.old ≡ max_rows) × (t.row < max_rows) × (t.size + max_item < 2 ^ 64) × (n ≤ max_item)
        × (t.entries < max_entries) }
    ensures state { result ≡ tallied t e (t.entries + 1) n }
    ensures planned { plan.new ≡ set plan.old t.row max_entries }
{
    let row = t.row;
    plan[row] = Reference::FULL;
    after(t, e, t.entries + 1, n)
}

// A name in full: none where it is one too many.
fn name(
    names: &mut Names<'_>,
    s: &[u8],
    side: u64,
    to: &mut [u16; SymbolTable::MAX_ENTRIES],
    plan: &mut [u16; Row::MAX_COUNT],
    t: &mut Tally,
    h: Header,
) -> Option<()>
    requires { Here names.old s.now side to.old plan.old t.old
        × (Some h ≡ header_of (drop t.old.at s.now)) × (Code.symbol ≤ h.code) × (h.code ≤ Code.key) }
    ensures { (zs : List Item) (u : State) → Bundled names.old s.now side zs u
        → Partway names.old s.now zs u to.old plan.old t.old
        → Onward names.old names.new s.now zs u to.new plan.new t.old t.new result }
{
    let next = t.at + h.size;
    let len = ByteLength::of(h);
    let e = next + len.0 as usize;
    let old = t.entries;
    let kind = kind_of(h.code);
    let p = &s[next..e];
    let key = key_of(kind, p);
    let n = names.count;
    match names.note(kind, key, side, next, p) {
        Noted::Known(i) => {
            to[old] = i as u16;
            *t = referred(plan, *t, e, old + 1, i as u16);
        }
        Noted::Entered => {
            to[old] = n as u16;
            *t = fresh(plan, *t, e, shortest_len(h) + (e - next));
        }
        Noted::Full => return None,
    }
    Some(())
}

// The item of a header.
fn headed(
    names: &mut Names<'_>,
    s: &[u8],
    side: u64,
    to: &mut [u16; SymbolTable::MAX_ENTRIES],
    plan: &mut [u16; Row::MAX_COUNT],
    t: &mut Tally,
    h: Header,
) -> Option<()>
    requires { Here names.old s.now side to.old plan.old t.old
        × (Some h ≡ header_of (drop t.old.at s.now)) }
    ensures { (zs : List Item) (u : State) → Bundled names.old s.now side zs u
        → Partway names.old s.now zs u to.old plan.old t.old
        → Onward names.old names.new s.now zs u to.new plan.new t.old t.new result }
{
    let next = t.at + h.size;
    let code = h.code;
    if is_number(code) {
        *t = after(*t, next, t.entries, shortest_len(h));
        return Some(());
    }
    if Header::REFERENCE <= code {
        *t = reference(to, plan, *t, next, h.payload);
        return Some(());
    }
    if Header::SYMBOL <= code {
        return name(names, s, side, to, plan, t, h);
    }
    if is_fixed(code, h.sz) {
        *t = after(*t, next, t.entries, h.size);
        return Some(());
    }
    *t = held(*t, next, shortest_len(h), ByteLength::of(h));
    Some(())
}

// The next item.
fn item(
    names: &mut Names<'_>,
    s: &[u8],
    side: u64,
    to: &mut [u16; SymbolTable::MAX_ENTRIES],
    plan: &mut [u16; Row::MAX_COUNT],
    t: &mut Tally,
) -> Option<()>
    requires { Here names.old s.now side to.old plan.old t.old × (t.old.at < length s.now) }
    ensures { (zs : List Item) (u : State) → Bundled names.old s.now side zs u
        → Partway names.old s.now zs u to.old plan.old t.old
        → Onward names.old names.new s.now zs u to.new plan.new t.old t.new result }
{
    match header_at(s, t.at) {
        // not in a bundle that reads
        None => None,
        Some(h) => headed(names, s, side, to, plan, t, h),
    }
}

// Measures a bundle, which is one of the texts, after what comes before it: none where it has a name too many.
pub fn measure(
    names: &mut Names<'_>,
    side: u64,
    plan: &mut [u16; Row::MAX_COUNT],
    from: Tally,
) -> Option<Tally>
    requires { Ready names.old side plan.old from }
    ensures { (zs : List Item) (u : State) → Begun names.old side zs u plan.old from
        → Measures names.old names.new zs u plan.new result }
{
    let s = names.text(side);
    // for each entry its index among the names, in fixed memory
    let mut to = [0u16; SymbolTable::MAX_ENTRIES];
    let mut t = Tally {
        at: 0,
        entries: 0,
        row: from.row,
        size: from.size,
    };
    // An item at a time, as long as it is.
    while t.at < s.len() {
        item(names, s, side, &mut to, plan, &mut t)?;
    }
    Some(t)
}

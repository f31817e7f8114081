// The walk over a bundle that reads, item by item: the row of the next item, where the one after it begins, and the
// entries so far. It judges nothing.
#![tactic(auto)]

ghost use Rattle.std.specs.Prelude.{◌≡◌, List, ℕ, ◌+◌, ◌≤◌, ◌<◌, drop, get_or, set, Some};
ghost use Rattle.format.specs.Limits.{max_bytes, max_entries};
ghost use Rattle.format.specs.Kind as Kind;
ghost use Rattle.format.specs.Header.{header_of};
ghost use Rattle.symbols.specs.Entry.{plain_entry, row_in};
ghost use Rattle.walk.specs.Walking.{begin, Left, Nexts};

use format::{ByteLength, FieldCount, Header, Row, SymbolTable};
use symbols::entry;
use symbols::entry::plain_entry;
use wire::codes::{is_integer, number_of};
use wire::header::kind_of;

// How far a walk has come.
#[derive(Clone, Copy)]
pub struct Walked {
    // where the next item begins
    pub at: usize,
    // how many entries the table has
    pub entries: usize,
    // the row of the item before
    pub row: Row,
}

impl Walked {
    // Before the first item.
    pub fn new() -> Walked
        ensures { result ≡ begin }
    {
        Walked {
            at: 0,
            entries: 0,
            row: Row::new(Row::NULL, 0, 0),
        }
    }
}

// An item with a kind and a number, which ends with its header.
fn fixed(kind: u8, number: u64, next: usize, entries: usize) -> Walked
    ensures { result ≡ record { at = next; entries = entries; row = record { kind = kind; number = number; start = 0 } } }
{
    Walked {
        at: next,
        entries,
        row: Row::new(kind, number, 0),
    }
}

// An item whose content begins at next and that makes no entry.
fn content(kind: u8, len: ByteLength, next: usize, entries: usize) -> Walked
    requires { (next ≤ max_bytes) × (len.0 ≤ max_bytes) }
    ensures { result ≡ record { at = next + len.0; entries = entries; row = record { kind = kind; number = len.0; start = next } } }
{
    let end = next + len.0 as usize;
    Walked {
        at: end,
        entries,
        row: Row::new(kind, len.0, next),
    }
}

// A name in full, whose content begins at next: it makes an entry.
fn name(
    table: &mut [u64; SymbolTable::MAX_ENTRIES],
    kind: u8,
    len: ByteLength,
    next: usize,
    entries: usize,
) -> Walked
    requires { (Kind.symbol ≤ kind) × (kind ≤ Kind.key) × (next ≤ max_bytes) × (len.0 ≤ max_bytes) × (entries < max_entries) }
    ensures walked { result ≡ record {
      at = next + len.0;
      entries = entries + 1;
      row = record { kind = kind; number = len.0; start = next };
    } }
    ensures entered { table.new ≡ set table.old entries (plain_entry kind next len.0) }
{
    table[entries] = plain_entry(kind, next, len.0 as usize);
    content(kind, len, next, entries + 1)
}

// The row of the entry that a reference stands for.
fn referred(table: &[u64; SymbolTable::MAX_ENTRIES], index: u64) -> Row
    requires { index < max_entries }
    ensures { result ≡ row_in (get_or table.now index 0) }
{
    let i = index as usize;
    entry::row(table[i])
}

// The item of a header.
fn headed(table: &mut [u64; SymbolTable::MAX_ENTRIES], w: Walked, h: Header) -> Walked
    requires { (bs : List ℕ) × Left bs table.old w × (Some h ≡ header_of (drop w.at bs)) }
    ensures { (bs : List ℕ) → Some h ≡ header_of (drop w.at bs) → Nexts bs table.old w table.new result }
{
    let next = w.at + h.size;
    let entries = w.entries;
    let code = h.code;
    // most items first
    if is_integer(code) {
        let n = number_of(code, h.payload);
        return fixed(kind_of(code), n, next, entries);
    }
    if Header::REFERENCE <= code {
        return Walked {
            at: next,
            entries,
            row: referred(table, h.payload),
        };
    }
    if Header::SYMBOL <= code {
        let len = ByteLength::of(h);
        return name(table, kind_of(code), len, next, entries);
    }
    if code == Header::STRING {
        return content(Row::STRING, ByteLength::of(h), next, entries);
    }
    if code == Header::CONTAINER {
        let count = FieldCount::of(h);
        return fixed(Row::CONTAINER, count.0, next, entries);
    }
    let sz = h.sz;
    if sz < Row::BYTES {
        return fixed(sz, h.payload, next, entries);
    }
    content(Row::BYTES, ByteLength::of(h), next, entries)
}

// The next item.
pub fn next(s: &[u8], table: &mut [u64; SymbolTable::MAX_ENTRIES], w: Walked) -> Walked
    requires { Left s.now table.old w }
    ensures { Nexts s.now table.old w table.new result }
{
    match wire::header::header_at(s, w.at) {
        // not in a bundle that reads; w itself here would carry the padding of its row round a loop, which costs as much as all else
        None => Walked::new(),
        Some(h) => headed(table, w, h),
    }
}

// A name looked up along a chain of entries with like marks, and a new name put in.
ghost use Rattle.std.specs.Prelude.{◌≡◌, ◌+◌, ◌<◌, ◌≤◌, length, take, set, None};
ghost use Rattle.format.specs.Kind as Kind;
ghost use Rattle.format.specs.Limits.{max_bytes, max_entries};
ghost use Rattle.format.specs.Names.{index};
ghost use Rattle.symbols.specs.Entry.{key_of, name_in, names_in, name, Part, Sound};
ghost use Rattle.symbols.specs.Chains.{Chained};
ghost use Rattle.symbols.specs.Noting.{NotedAs};

use crate::entry::{Entry, bucket, is_name, pack};
use format::SymbolTable;

// The links of the chains: a head for each bucket, then the next of each entry; in fixed memory, so no map of the library.
#[derive(Clone, Copy)]
pub struct Links;

impl Links {
    pub const HEADS: usize = Entry::BUCKETS;

    pub const SIZE: usize = Links::HEADS + SymbolTable::MAX_ENTRIES;
}

// The three functions below are those of `Names`, over arrays that a caller has: strict reading calls them, as its arrays
// are those that lenient reading fills with entries of no chain, which are no `Names`.

// The index of the first entry of a name.
pub fn find<'a>(
    first: &'a [u8],
    second: &'a [u8],
    entries: &[u64; SymbolTable::MAX_ENTRIES],
    links: &[u16; Links::SIZE],
    count: usize,
    kind: u8,
    key: u64,
    content: &[u8],
) -> Option<usize>
    requires { Chained first.now second.now entries.now links.now count × (key ≡ key_of kind content.now)
        × (Kind.symbol ≤ kind) × (kind ≤ Kind.key) × (length content.now ≤ max_bytes) }
    ensures { result ≡ index (name kind content.now) (names_in first.now second.now (take count entries.now)) }
{
    let mut link = links[bucket(key)];
    while let Some(i) = link.checked_sub(1) {
        let i = usize::from(i);
        if is_name(first, second, entries[i], kind, key, content) {
            return Some(i);
        }
        link = links[Links::HEADS + i];
    }
    None
}

// Puts an entry at the end, in front of its chain.
pub fn enter<'a>(
    first: &'a [u8],
    second: &'a [u8],
    entries: &mut [u64; SymbolTable::MAX_ENTRIES],
    links: &mut [u16; Links::SIZE],
    count: usize,
    e: u64,
)
    requires { Chained first.now second.now entries.old links.old count × (count < max_entries) × Sound first.now second.now e
        × (index (name_in first.now second.now e) (names_in first.now second.now (take count entries.old)) ≡ None) }
    ensures stored { entries.new ≡ set entries.old count e }
    ensures chained { Chained first.now second.now entries.new links.new (count + 1) }
{
    let head = bucket(e);
    entries[count] = e;
    links[Links::HEADS + count] = links[head];
    links[head] = (count + 1) as u16;
}

// What noting a name comes to: the index of its entry, one entry more, or no entry left for it.
#[derive(Clone, Copy)]
pub enum Noted {
    Known(usize),
    Entered,
    Full,
}

// Looks up a name that stands in one of two slices, and puts it in where it is new. The key is the caller's to make:
// without the marking of bytes this is short enough to be compiled into each caller, and strict reading is faster for it.
pub fn note<'a>(
    first: &'a [u8],
    second: &'a [u8],
    entries: &mut [u64; SymbolTable::MAX_ENTRIES],
    links: &mut [u16; Links::SIZE],
    count: usize,
    kind: u8,
    key: u64,
    side: u64,
    start: usize,
    content: &[u8],
) -> Noted
    requires { Chained first.now second.now entries.old links.old count
        × Part first.now second.now kind side start content.now × (key ≡ key_of kind content.now) }
    ensures { NotedAs first.now second.now entries.old entries.new
        links.old links.new count (name kind content.now) start result }
{
    match find(first, second, entries, links, count, kind, key, content) {
        Some(i) => Noted::Known(i),
        None => {
            if SymbolTable::MAX_ENTRIES <= count {
                return Noted::Full;
            }
            enter(first, second, entries, links, count, pack(side, start, key));
            Noted::Entered
        }
    }
}

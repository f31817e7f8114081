// The names so far, each with its index: a table in which a name is looked up and a new one is put in.
ghost use Rattle.symbols.specs.Chains.{Chained};

use crate::entry::{bucket, is_name, is_part, pack};
use crate::lookup::{Links, Noted};
use format::SymbolTable;

// The bytes of a name are a part of one of two texts.
#[derive(Drop)]
pub struct Names<'a> {
    pub first: &'a [u8],
    pub second: &'a [u8],
    // packed, of which so many stand for names
    pub entries: [u64; SymbolTable::MAX_ENTRIES],
    pub count: usize,
    // the chains: a head for each bucket, then the next of each entry
    pub links: [u16; Links::SIZE],
    pub ghost chained: { Chained first.now second.now entries links count },
}

impl<'a> Names<'a> {
    ghost use Rattle.std.specs.Prelude.{◌≡◌, true, ◌<◌, ◌≤◌, length, None, Some};
    ghost use Rattle.format.specs.Kind as Kind;
    ghost use Rattle.format.specs.Limits.{max_bytes, max_entries};
    ghost use Rattle.format.specs.Names.{index};
    ghost use Rattle.symbols.specs.Entry.{key_of, name_in, name, side_of, Part, Sound};
    ghost use Rattle.symbols.specs.Entries.{part_of};
    ghost use Rattle.symbols.specs.Names.{names_of, Empty, Grown, Notes};

    // None, over two texts.
    pub fn new(first: &'a [u8], second: &'a [u8]) -> Names<'a>
        ensures { Empty first.now second.now result }
    {
        let entries = SymbolTable::new();
        let links = [0u16; Links::SIZE];
        Names {
            first,
            second,
            entries,
            count: 0,
            links,
        }
    }

    // The first or the second text.
    pub fn text(&self, side: u64) -> &'a [u8]
        ensures { result.now ≡ side_of side self.now.first.now self.now.second.now }
    {
        if side == 0 { self.first } else { self.second }
    }

    // Whether a name is entry i, by where it stands in the first text and without looking at its bytes.
    pub fn is_part(&self, i: usize, kind: u8, start: usize, len: u64) -> bool
        requires { (Kind.symbol ≤ kind) × (kind ≤ Kind.key) × (start ≤ max_bytes) × (len ≤ max_bytes) }
        ensures { result ≡ true → index (part_of self.now.first.now kind start len).item (names_of self.now) ≡ Some i }
    {
        if self.count <= i {
            return false;
        }
        is_part(self.entries[i], kind, start, len)
    }

    // The index of a name.
    pub fn find(&self, kind: u8, key: u64, content: &[u8]) -> Option<usize>
        requires { (key ≡ key_of kind content.now) × (Kind.symbol ≤ kind) × (kind ≤ Kind.key) × (length content.now ≤ max_bytes) }
        ensures { result ≡ index (name kind content.now) (names_of self.now) }
    {
        let mut link = self.links[bucket(key)];
        while let Some(i) = link.checked_sub(1) {
            let i = usize::from(i);
            if is_name(self.first, self.second, self.entries[i], kind, key, content) {
                return Some(i);
            }
            link = self.links[Links::HEADS + i];
        }
        None
    }

    // Puts an entry at the end, in front of its chain.
    fn enter(&mut self, e: u64)
        requires { (self.old.count < max_entries) × Sound self.old.first.now self.old.second.now e
            × (index (name_in self.old.first.now self.old.second.now e) (names_of self.old) ≡ None) }
        ensures { Grown self.old self.new e }
    {
        let head = bucket(e);
        let i = self.count;
        self.entries[i] = e;
        self.links[Links::HEADS + i] = self.links[head];
        self.links[head] = (i + 1) as u16;
        self.count = i + 1;
    }

    // Looks up a name that stands in one of the texts, and puts it in where it is new. The key is the caller's to make:
    // without the marking of bytes this is short. It is compiled into each caller, and canonicalizing names is faster for it.
    #[inline(always)]
    pub fn note(&mut self, kind: u8, key: u64, side: u64, start: usize, content: &[u8]) -> Noted
        requires { Part self.old.first.now self.old.second.now kind side start content.now × (key ≡ key_of kind content.now) }
        ensures { Notes self.old self.new (name kind content.now) start result }
    {
        match self.find(kind, key, content) {
            Some(i) => Noted::Known(i),
            None => {
                if SymbolTable::MAX_ENTRIES <= self.count {
                    return Noted::Full;
                }
                self.enter(pack(side, start, key));
                Noted::Entered
            }
        }
    }
}

// An entry of the symbol table, packed into a number, and the name that it stands for. How it is packed is known here alone.
ghost use Rattle.std.specs.Prelude.{◌≡◌, true, ◌+◌, ◌<◌, ◌≤◌, eqb, length, take, drop};
ghost use Rattle.format.specs.Kind as Kind;
ghost use Rattle.format.specs.Limits.{max_bytes};
ghost use Rattle.format.specs.Names.{same_name};
ghost use Rattle.symbols.specs.Entry.{lengths, sides, side_unit, shape_of, key_of, entry_of, plain_entry, key_in, kind_in, length_in, side_in, start_in, row_in, bucket};
ghost use Rattle.symbols.specs.Entry.{side_of, part_in, name_in, name, Packed, Sound};

use crate::mark::Marks;
use format::{Bundle, Row};

// The fields of an entry, from the lowest: the kind, counted from that of symbols; the length; the mark; the side; the start.
// A field's unit is what one of it counts: as many as the fields below it have values.
#[derive(Clone, Copy)]
pub struct Entry;

impl Entry {
    const KINDS: u64 = (Row::KEY - Row::SYMBOL) as u64 + 1;

    const LENGTHS: u64 = 2 * Bundle::MAX_BYTES as u64;

    const SIDES: u64 = 2;

    const LENGTH_UNIT: u64 = Entry::KINDS;

    const MARK_UNIT: u64 = Entry::LENGTHS * Entry::LENGTH_UNIT;

    const SIDE_UNIT: u64 = Marks::COUNT * Entry::MARK_UNIT;

    const START_UNIT: u64 = Entry::SIDES * Entry::SIDE_UNIT;

    // Entries are chained by the upper bits of the mark.
    pub const BUCKETS: usize = 512;

    const BUCKET_UNIT: u64 = Entry::SIDE_UNIT / Entry::BUCKETS as u64;
}

// ---- packing

// Length and kind.
fn shape_of(kind: u8, len: u64) -> u64
    requires { (Kind.symbol ≤ kind) × (kind ≤ Kind.key) × (len ≤ lengths) }
    ensures { result ≡ shape_of kind len }
{
    len * Entry::LENGTH_UNIT + (kind as u64 - Row::SYMBOL as u64)
}

// What a name is compared by before its bytes: mark, length and kind.
pub fn key_of(kind: u8, content: &[u8]) -> u64
    requires { (Kind.symbol ≤ kind) × (kind ≤ Kind.key) × (length content.now ≤ max_bytes) }
    ensures { (result ≡ key_of kind content.now) × (result < side_unit) }
{
    crate::mark::mark(content) * Entry::MARK_UNIT + shape_of(kind, content.len() as u64)
}

// The entry of a key, at a start of one of two slices.
pub fn pack(side: u64, start: usize, key: u64) -> u64
    requires { (side < sides) × (start ≤ max_bytes) × (key < side_unit) }
    ensures { result ≡ entry_of side start key }
{
    (start as u64 * Entry::SIDES + side) * Entry::SIDE_UNIT + key
}

// An entry with no mark, where no name is looked up: a part of the first slice.
pub fn plain_entry(kind: u8, start: usize, len: usize) -> u64
    requires { (Kind.symbol ≤ kind) × (kind ≤ Kind.key) × (start ≤ max_bytes) × (len ≤ lengths) }
    ensures { result ≡ plain_entry kind start len }
{
    pack(0, start, shape_of(kind, len as u64))
}

// ---- what an entry packs

// Mark, length and kind: the key of its name.
pub fn name_key(e: u64) -> u64
    ensures { result ≡ key_in e }
{
    e % Entry::SIDE_UNIT
}

pub fn kind(e: u64) -> u8
    ensures { result ≡ kind_in e }
{
    (Row::SYMBOL as u64 + e % Entry::KINDS) as u8
}

pub fn is_key(e: u64) -> bool
    ensures { result ≡ eqb (kind_in e) Kind.key }
{
    kind(e) == Row::KEY
}

pub fn len(e: u64) -> u64
    ensures { result ≡ length_in e }
{
    e % Entry::MARK_UNIT / Entry::LENGTH_UNIT
}

pub fn side(e: u64) -> u64
    ensures { result ≡ side_in e }
{
    e / Entry::SIDE_UNIT % Entry::SIDES
}

pub fn start(e: u64) -> usize
    ensures { result ≡ start_in e }
{
    (e / Entry::START_UNIT) as usize
}

// Its name as a row.
pub fn row(e: u64) -> Row
    ensures { result ≡ row_in e }
{
    Row::new(kind(e), len(e), start(e))
}

// The bucket of an entry, or of a key.
pub fn bucket(e: u64) -> usize
    ensures { result ≡ bucket e }
{
    (e / Entry::BUCKET_UNIT % Entry::BUCKETS as u64) as usize
}

// Whether an entry is of this kind, and of this part of the first slice.
pub fn is_part(e: u64, kind: u8, start: usize, len: u64) -> bool
    requires { (Kind.symbol ≤ kind) × (kind ≤ Kind.key) × (start ≤ max_bytes) × (len ≤ max_bytes) }
    ensures { result ≡ true → Packed e start 0 len kind }
{
    // two fields at a time: start and side, length and kind
    if e / Entry::SIDE_UNIT != start as u64 * Entry::SIDES {
        return false;
    }
    e % Entry::MARK_UNIT == shape_of(kind, len)
}

// ---- the name of an entry

// A part of the first or of the second of two slices.
#[tactic(auto, unfolding(crate::specs::Entry::side_of, format::specs::Choice::pick))]
pub fn pick<'a>(first: &'a [u8], second: &'a [u8], side: u64, from: usize, len: usize) -> &'a [u8]
    requires { from + len ≤ length (side_of side first.now second.now) }
    ensures { result.now ≡ take len (drop from (side_of side first.now second.now)) }
{
    if side == 0 {
        &first[from..from + len]
    } else {
        &second[from..from + len]
    }
}

// The bytes of an entry's name.
#[tactic(auto, unfolding(crate::specs::Entry::part_in))]
pub fn part<'a>(first: &'a [u8], second: &'a [u8], e: u64) -> &'a [u8]
    requires { Sound first.now second.now e }
    ensures { result.now ≡ part_in first.now second.now e }
{
    pick(first, second, side(e), start(e), len(e) as usize)
}

// Whether an entry has this name.
#[tactic(auto, using(crate::proofs::EntryLaws::other_key, crate::proofs::EntryLaws::same_key))]
pub fn is_name<'a>(
    first: &'a [u8],
    second: &'a [u8],
    e: u64,
    kind: u8,
    key: u64,
    content: &[u8],
) -> bool
    requires { Sound first.now second.now e × (key ≡ key_of kind content.now) × (Kind.symbol ≤ kind)
        × (kind ≤ Kind.key) × (length content.now ≤ max_bytes) }
    ensures { result ≡ same_name (name kind content.now) (name_in first.now second.now e) }
{
    if name_key(e) != key {
        return false;
    }
    wire::bytes::same(content, part(first, second, e))
}

// One item, judged by the rules of reading in their order.
ghost use Rattle.std.specs.Prelude.{◌≡◌, Bool, true, false, ◌&&◌, ◌||◌, List, ℕ, ◌+◌, ◌-◌, ◌≤◌, ◌<◌, length, drop, Some};
ghost use Rattle.format.specs.Kind as Kind;
ghost use Rattle.format.specs.Code as Code;
ghost use Rattle.format.specs.Limits.{max_bytes, max_entries, max_depth};
ghost use Rattle.format.specs.Header.{header_of, is_long, is_negative_alias};
ghost use Rattle.format.specs.Reading.{Options, State, headed, item};
ghost use Rattle.symbols.specs.Chains.{Chained};
ghost use Rattle.items.specs.Judging.{Fair, Moved, Moves, Stands, Judged, Case, Body, Name, fresh_of, Entered};

use format::{ByteLength, Error, FieldCount, Header, Row, SymbolTable};
use symbols::entry::{is_key, key_of, plain_entry};
use symbols::lookup::{Links, Noted, note};
use wire::codes::is_integer;
use wire::header::kind_of;
use wire::rules::{bad_text, key_after_key};

// What one item is, with the offset of the next.
#[derive(Clone, Copy)]
pub enum Out {
    // a value that makes no entry
    Value(usize),
    // a key by reference
    Key(usize),
    // a symbol in full
    NewSymbol(usize),
    // a key in full
    NewKey(usize),
    // a container with fields in it
    Container(FieldCount, usize),
}

// Why an item is refused.
#[derive(Clone, Copy)]
pub enum Refusal {
    // No `Failure`: its place is the item's, which the caller has. With one, tried unproved, checking names took 1.5 times
    // as long and one line 1.2 times (three runs of the bench).
    Error(Error),
    // a string, symbol or key that is not UTF-8: where its content begins and ends. The caller looks for the place in it:
    // with a call for each kind, here, checking names took 1.03 times as long (four runs of the bench).
    Text(usize, usize),
}

// Strict only: a header that is longer than it has to be, or the negative alias.
fn wasteful(strict: bool, h: Header) -> bool
    requires { h.size ≡ 1 → is_long h || is_negative_alias h ≡ false }
    ensures { result ≡ (strict && (is_long h || is_negative_alias h)) }
{
    let size = h.size;
    if size == 1 {
        return false;
    }
    if !strict {
        return false;
    }
    if wire::header::is_long(h) {
        return true;
    }
    let code = h.code;
    let p = h.payload;
    if code == Header::NEGATIVE {
        return p == Header::NEGATIVE_ALIAS;
    }
    false
}

// A container: judged by its depth.
fn container(h: Header, next: usize, depth: usize) -> Result<Out, Refusal>
    requires { h.code ≡ Code.container }
    ensures moves { (strict : Bool) (s es links : List ℕ) (at names : ℕ) → Moved strict s es links at next names
        → Moves strict s es links at names depth result }
    ensures judged { (s es : List ℕ) (o : Options) (a : State) (bs : List ℕ) (at names keyed : ℕ)
        → Case s es at names keyed next h o a
        → length a.place.opened + depth ≡ max_depth → Judged o s es names a (headed o a (Some h) bs) result }
{
    if depth == 0 {
        return Err(Refusal::Error(Error::TooDeep));
    }
    let count = FieldCount::of(h);
    let n = count.0;
    if n == 0 {
        return Ok(Out::Value(next));
    }
    Ok(Out::Container(count, next))
}

// A reference: judged by its index, and as the key or the symbol that it stands for.
fn reference(
    h: Header,
    next: usize,
    names: usize,
    keyed: usize,
    entries: &[u64; SymbolTable::MAX_ENTRIES],
) -> Result<Out, Refusal>
    requires { (h.code ≡ Code.reference) × (names ≤ max_entries) × (length entries.now ≡ max_entries) }
    ensures moves { (strict : Bool) (s links : List ℕ) (at depth : ℕ)
        → Moved strict s entries.now links at next names
        → Moves strict s entries.now links at names depth result }
    ensures judged { (s : List ℕ) (o : Options) (a : State) (bs : List ℕ) (at : ℕ)
        → Case s entries.now at names keyed next h o a
        → Judged o s entries.now names a (headed o a (Some h) bs) result }
{
    let p = h.payload;
    if (names as u64) <= p {
        return Err(Refusal::Error(Error::UndefinedReference));
    }
    let i = p as usize;
    if !is_key(entries[i]) {
        return Ok(Out::Value(next));
    }
    if keyed == 1 {
        return Err(Refusal::Error(Error::UnexpectedKey));
    }
    Ok(Out::Key(next))
}

// Bytes or a string.
fn content(s: &[u8], h: Header, next: usize) -> Result<Out, Refusal>
    requires { Body h × (next ≤ length s.now) × (length s.now ≤ max_bytes) }
    ensures moves { (strict : Bool) (es links : List ℕ) (at names depth : ℕ)
        → Moved strict s.now es links at next names → Moves strict s.now es links at names depth result }
    ensures judged { (es : List ℕ) (o : Options) (a : State) (at names keyed : ℕ)
        → Case s.now es at names keyed next h o a
        → Judged o s.now es names a (headed o a (Some h) (drop at s.now)) result }
{
    let len = ByteLength::of(h);
    let p = len.0;
    if ((s.len() - next) as u64) < p {
        return Err(Refusal::Error(Error::Truncated));
    }
    let e = next + p as usize;
    if bad_text(h.code == Header::STRING, &s[next..e]) {
        return Err(Refusal::Text(next, e));
    }
    Ok(Out::Value(e))
}

// A name in full that makes an entry.
fn fresh(kind: u8, next: usize) -> Out
    ensures { result ≡ fresh_of kind next }
{
    if kind == Row::KEY {
        return Out::NewKey(next);
    }
    Out::NewSymbol(next)
}

// Strict only: a name in full, which must be new, is put into the table.
fn new_name(
    s: &[u8],
    kind: u8,
    next: usize,
    e: usize,
    names: usize,
    entries: &mut [u64; SymbolTable::MAX_ENTRIES],
    links: &mut [u16; Links::SIZE],
) -> Result<Out, Refusal>
    requires { (Kind.symbol ≤ kind) × (kind ≤ Kind.key) × (next ≤ e) × (e ≤ length s.now)
        × (length s.now ≤ max_bytes) × Chained s.now s.now entries.old links.old names }
    ensures { Entered true s.now entries.old entries.new links.new names kind next e result }
{
    let part = &s[next..e];
    let key = key_of(kind, part);
    match note(s, s, entries, links, names, kind, key, 0, next, part) {
        Noted::Known(_) => Err(Refusal::Error(Error::NotCanonical)),
        Noted::Entered => Ok(fresh(kind, e)),
        Noted::Full => Err(Refusal::Error(Error::TooManyEntries)),
    }
}

// A name in full that makes an entry, whether or not it stands in the table already.
fn any_name(
    kind: u8,
    next: usize,
    e: usize,
    names: usize,
    entries: &mut [u64; SymbolTable::MAX_ENTRIES],
) -> Result<Out, Refusal>
    requires { (Kind.symbol ≤ kind) × (kind ≤ Kind.key) × (next ≤ e) × (e ≤ max_bytes) × (names ≤ max_entries) }
    ensures { (s links : List ℕ) → e ≤ length s → Fair false s entries.old links names
        → Entered false s entries.old entries.new links names kind next e result }
{
    if SymbolTable::MAX_ENTRIES <= names {
        return Err(Refusal::Error(Error::TooManyEntries));
    }
    entries[names] = plain_entry(kind, next, e - next);
    Ok(fresh(kind, e))
}

// A symbol or a key in full.
fn name(
    s: &[u8],
    strict: bool,
    h: Header,
    next: usize,
    names: usize,
    keyed: usize,
    entries: &mut [u64; SymbolTable::MAX_ENTRIES],
    links: &mut [u16; Links::SIZE],
) -> Result<Out, Refusal>
    requires { Name h × (next ≤ length s.now) × (length s.now ≤ max_bytes) × Fair strict s.now entries.old links.old names }
    ensures moves { (at depth : ℕ) → at < next
        → Moves strict s.now entries.new links.new at names depth result }
    ensures judged { (o : Options) (a : State) (at : ℕ) → o.strict ≡ strict
        → Case s.now entries.old at names keyed next h o a
        → Judged o s.now entries.new names a (headed o a (Some h) (drop at s.now)) result }
{
    let kind = kind_of(h.code);
    if key_after_key(keyed, kind) {
        return Err(Refusal::Error(Error::UnexpectedKey));
    }
    let len = ByteLength::of(h);
    let p = len.0;
    if ((s.len() - next) as u64) < p {
        return Err(Refusal::Error(Error::Truncated));
    }
    let e = next + p as usize;
    if !utf8::is_utf8_name(&s[next..e]) {
        return Err(Refusal::Text(next, e));
    }
    if strict {
        return new_name(s, kind, next, e, names, entries, links);
    }
    any_name(kind, next, e, names, entries)
}

// The item of a header that stands at an offset.
fn judge(
    s: &[u8],
    strict: bool,
    depth: usize,
    h: Header,
    at: usize,
    names: usize,
    keyed: usize,
    entries: &mut [u64; SymbolTable::MAX_ENTRIES],
    links: &mut [u16; Links::SIZE],
) -> Result<Out, Refusal>
    requires { (Some h ≡ header_of (drop at s.now)) × (at ≤ length s.now) × (length s.now ≤ max_bytes)
        × Fair strict s.now entries.old links.old names }
    ensures moves { Moves strict s.now entries.new links.new at names depth result }
    ensures judged { (o : Options) (a : State) → o.strict ≡ strict
        → Stands s.now entries.old at names keyed a → length a.place.opened + depth ≡ max_depth
        → Judged o s.now entries.new names a (headed o a (Some h) (drop at s.now)) result }
{
    if wasteful(strict, h) {
        return Err(Refusal::Error(Error::NotCanonical));
    }
    let next = at + h.size;
    let code = h.code;
    if is_integer(code) {
        return Ok(Out::Value(next));
    }
    // most items first
    if code == Header::REFERENCE {
        return reference(h, next, names, keyed, entries);
    }
    if Header::SYMBOL <= code {
        return name(s, strict, h, next, names, keyed, entries, links);
    }
    if code == Header::STRING {
        return content(s, h, next);
    }
    if code == Header::CONTAINER {
        return container(h, next, depth);
    }
    let sz = h.sz;
    if sz < Row::BYTES {
        return Ok(Out::Value(next));
    }
    content(s, h, next)
}

// One item at an offset, by all rules but the last, the count of rows.
pub fn one(
    s: &[u8],
    strict: bool,
    depth: usize,
    at: usize,
    names: usize,
    keyed: usize,
    entries: &mut [u64; SymbolTable::MAX_ENTRIES],
    links: &mut [u16; Links::SIZE],
) -> Result<Out, Refusal>
    requires { (at ≤ length s.now) × (length s.now ≤ max_bytes) × Fair strict s.now entries.old links.old names }
    ensures moves { Moves strict s.now entries.new links.new at names depth result }
    ensures judged { (o : Options) (a : State) → o.strict ≡ strict
        → Stands s.now entries.old at names keyed a → length a.place.opened + depth ≡ max_depth
        → Judged o s.now entries.new names a (item o a (drop at s.now)) result }
{
    match wire::header::header_at(s, at) {
        None => Err(Refusal::Error(Error::Truncated)),
        Some(h) => judge(s, strict, depth, h, at, names, keyed, entries, links),
    }
}

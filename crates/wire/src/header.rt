// A header read at an offset, and the length of the shortest one.
ghost use Rattle.std.specs.Prelude.{◌≡◌, ◌+◌, ◌-◌, ◌≤◌, ◌<◌, ltb, length, take, drop};
ghost use Rattle.format.specs.Kind as Kind;
ghost use Rattle.format.specs.Code as Code;
ghost use Rattle.format.specs.Limits.{max_inline};
ghost use Rattle.format.specs.Header.{shift, big_endian, following, header_of, width, header, is_long};
ghost use Rattle.wire.specs.Heads.{sizes, max_following};

use format::{Header, Row};

// The lead byte of a header: `sz` is counted by one, the code by as many as `sz` has values.
#[derive(Clone, Copy)]
pub struct Lead;

impl Lead {
    pub const SIZES: u8 = 32;
    // The most bytes that follow it.
    pub const MAX_FOLLOWING: usize = Header::MAX_SIZE - 1;
}

// The kind of row that a code stands for. Kinds and codes are numbers: the C interface has the one in its rows, and the
// bytes have the other.
pub fn kind_of(code: u8) -> u8
    requires { code ≤ Code.key }
    ensures { result ≡ code + Kind.bytes }
{
    code + Header::KIND_SHIFT
}

// The code of a kind that is not of a fixed size.
pub fn code_of(kind: u8) -> u8
    requires { Kind.bytes ≤ kind }
    ensures { result ≡ kind - Kind.bytes }
{
    kind - Header::KIND_SHIFT
}

// The number in bytes, most significant first.
pub fn number(bytes: &[u8]) -> u64
    requires { length bytes.now ≤ max_following }
    ensures { result ≡ big_endian 0 bytes.now }
{
    let mut p = 0;
    for b in bytes {
        p = p * 256 + u64::from(*b);
    }
    p
}

// How many bytes to read for n of them: eight where there are as many, since how often a loop goes round has to be foretold.
fn span(left: usize, n: usize) -> usize
    requires { (n ≤ left) × (n ≤ max_following) }
    ensures { (n ≤ result) × (result ≤ left) × (result ≤ max_following) }
{
    if Lead::MAX_FOLLOWING <= left {
        Lead::MAX_FOLLOWING
    } else {
        n
    }
}

// The payload in the first n bytes.
fn payload(s: &[u8], n: usize) -> u64
    requires { (1 ≤ n) × (n ≤ length s.now) × (n ≤ max_following) }
    ensures { result ≡ big_endian 0 (take n s.now) }
{
    // most payloads that are not in the lead byte
    if n == 1 {
        return u64::from(s[0]);
    }
    let m = span(s.len(), n);
    number(&s[..m]) >> (8 * (m - n))
}

// How many bytes follow a lead byte.
#[tactic(auto, unfolding(format::specs::Header::following, format::specs::Choice::pick))]
fn following(code: u8, sz: u8) -> usize
    requires { sz < sizes }
    ensures { result ≡ following code sz }
{
    let z = u64::from(sz);
    if Header::MAX_INLINE < z {
        return (z - Header::MAX_INLINE) as usize;
    }
    match (code, sz) {
        (Header::BINARY, Row::FLOAT32) => 4,
        (Header::BINARY, Row::FLOAT64) => 8,
        _ => 0,
    }
}

// The payload that a lead byte has in itself.
#[tactic(auto, unfolding(format::specs::Header::shift, format::specs::Choice::pick))]
fn inline_payload(code: u8, sz: u8) -> u64
    ensures { result ≡ sz - shift code }
{
    let z = u64::from(sz);
    if code == Header::BINARY {
        z.saturating_sub(Header::FIXED)
    } else {
        z
    }
}

// The header at an offset; none where the bytes end inside it.
pub fn header_at(s: &[u8], at: usize) -> Option<Header>
    ensures { result ≡ header_of (drop at s.now) }
{
    let lead = *s.get(at)?;
    let code = lead / Lead::SIZES;
    let sz = lead % Lead::SIZES;
    // most headers: one byte with the payload in it
    if code != Header::BINARY && u64::from(sz) <= Header::MAX_INLINE {
        return Some(Header::new(code, sz, u64::from(sz), 1));
    }
    let n = following(code, sz);
    let rest = &s[at + 1..];
    if rest.len() < n {
        return None;
    }
    if n == 0 {
        return Some(Header::new(code, sz, inline_payload(code, sz), 1));
    }
    Some(Header::new(code, sz, payload(rest, n), 1 + n))
}

// The fewest bytes, from 1 to 8, that hold p: its bits without the leading zeros, in whole bytes. 0 takes a byte too, so
// the last bit counts as set. No branch, since payloads of mixed widths cannot be foretold.
#[tactic(auto, using(crate::proofs::WidthLaws::width_by_zeros))]
pub fn width(p: u64) -> usize
    ensures { result ≡ width p }
{
    let bits = 8 * Lead::MAX_FOLLOWING - u64::leading_zeros(p | 1) as usize;
    (bits + 7) / 8
}

// Does the payload stand in the lead byte?
#[tactic(auto, unfolding(format::specs::Header::shift, format::specs::Choice::pick))]
pub fn is_inline(code: u8, p: u64) -> bool
    ensures { result ≡ ltb (p + shift code) (max_inline + 1) }
{
    if code == Header::BINARY {
        return p <= Header::MAX_INLINE_BYTES;
    }
    p <= Header::MAX_INLINE
}

// The length of the shortest header: a payload that stands in the lead byte has width 1, any other stands after it.
#[tactic(auto, using(format::proofs::Numbers::width_holds, crate::proofs::WidthLaws::length_sum))]
pub fn header_len(code: u8, p: u64) -> usize
    ensures { result ≡ length (header code p) }
{
    width(p) + !is_inline(code, p) as usize
}

// Is the header longer than it has to be?
#[tactic(auto, using(crate::proofs::WidthLaws::two_is_long), unfolding(format::specs::Header::is_long))]
pub fn is_long(h: Header) -> bool
    ensures { result ≡ is_long h }
{
    if u64::from(h.sz) <= Header::MAX_INLINE {
        return false;
    }
    // most; without this, checking integers of two bytes strictly took 1.1 to 1.2 times as long (four places of the code)
    if h.size == 2 {
        return is_inline(h.code, h.payload);
    }
    header_len(h.code, h.payload) < h.size
}

// Numbers, headers and bytes, written at the start of a buffer; what is answered is how many bytes were written.
ghost use Rattle.std.specs.Prelude.{◌≡◌, ◌++◌, ◌+◌, ◌*◌, ◌≤◌, ◌<◌, length, drop};
ghost use Rattle.format.specs.Limits.{max_inline};
ghost use Rattle.format.specs.Header.{shift, digits, header};
ghost use Rattle.wire.specs.Heads.{sizes, codes, max_following};
ghost use Rattle.wire.specs.Output.{Puts};

use crate::header::{Lead, is_inline, width};
use format::Header;

// n in k bytes, most significant first. The last is written first: from the first on, by shifts of n, LLVM makes vectors
// of masks, and writing integers of three bytes or more took 1.9 to 2.2 times as long.
#[tactic(auto, using(crate::proofs::OutputLaws::last_digit), unfolding(format::specs::Header::digits))]
pub fn put_number(out: &mut [u8], k: usize, n: u64) -> usize
    requires { (k ≤ max_following) × (k ≤ length out.old) }
    ensures { (result ≡ k) × (out.new ≡ digits k n ++ drop k out.old) }
{
    let mut rest = n;
    for i in (0..k).rev() {
        out[i] = (rest % 256) as u8;
        rest /= 256;
    }
    k
}

// The lead byte that has the payload in it.
#[tactic(auto, unfolding(format::specs::Header::shift, format::specs::Choice::pick))]
fn inline_lead(code: u8, p: u64) -> u8
    requires { (code < codes) × (p + shift code ≤ max_inline) }
    ensures { result ≡ code * sizes + (p + shift code) }
{
    if code == Header::BINARY {
        return (p + Header::FIXED) as u8;
    }
    code * Lead::SIZES + p as u8
}

// The shortest header.
pub fn put_header(out: &mut [u8], code: u8, p: u64) -> usize
    requires { (code < codes) × (length (header code p) ≤ length out.old) }
    ensures { Puts (header code p) result out.old out.new }
{
    if is_inline(code, p) {
        out[0] = inline_lead(code, p);
        return 1;
    }
    let k = width(p);
    out[0] = code * Lead::SIZES + Header::MAX_INLINE as u8 + k as u8;
    // most; without this, writing the bench's integers took 1.03 times as long, but its names 0.94
    if k == 1 {
        out[1] = p as u8;
        return 2;
    }
    1 + put_number(&mut out[1..], k, p)
}

// The bytes of another buffer. By a loop: `copy_from_slice` calls `memmove`, and the library for C needs nothing from
// outside but `memset`.
pub fn copy(out: &mut [u8], from: &[u8]) -> usize
    requires { length from.now ≤ length out.old }
    ensures { Puts from.now result out.old out.new }
{
    for (i, b) in from.iter().enumerate() {
        out[i] = *b;
    }
    from.len()
}

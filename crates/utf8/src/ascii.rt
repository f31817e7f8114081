// Runs of ASCII bytes, told by vector code.
ghost use Rattle.std.specs.Prelude.{◌≡◌, true, ◌+◌, ◌*◌, ◌≤◌, length};
ghost use Rattle.format.specs.Utf8.{utf8};
ghost use Rattle.utf8.specs.Local.{before, max_short, Passing, Ascii};

use crate::local::Window;

// A short text is looked at by its two ends, which meet or overlap, the front of a long one by steps.
#[derive(Clone, Copy)]
pub struct Ends;

impl Ends {
    const MAX: usize = 32;

    pub const MAX_SHORT: usize = 2 * Ends::MAX;

    pub const STEP: usize = 64;
}

// Are the bytes ASCII below 0x7f? Callers know how many they are, so that this becomes vector code; the test of the top
// bit alone becomes slower code, so 0x7f is left to those that look closer.
fn is_ascii(s: &[u8]) -> bool
    ensures { result ≡ true → Ascii s.now 0 (length s.now) }
{
    let mut ascii = true;
    for b in s {
        ascii = ascii & (*b < 0x7f);
    }
    ascii
}

// Are the first k bytes and the last k, which are all, ASCII?
pub fn ascii_ends(s: &[u8], k: usize) -> bool
    requires { (k ≤ length s.now) × (length s.now ≤ 2 * k) }
    ensures { result ≡ true → utf8 s.now ≡ true }
{
    is_ascii(&s[..k]) & is_ascii(&s[s.len() - k..])
}

// Is a short text all ASCII? Two reads of a fixed width that meet or overlap take less than a loop; each call knows its
// width, so that it becomes vector code.
pub fn short_ascii(s: &[u8]) -> bool
    requires { length s.now ≤ max_short }
    ensures { result ≡ true → utf8 s.now ≡ true }
{
    let n = s.len();
    if Ends::MAX <= n {
        return ascii_ends(s, Ends::MAX);
    }
    if 16 <= n {
        return ascii_ends(s, 16);
    }
    if 8 <= n {
        return ascii_ends(s, 8);
    }
    if 4 <= n {
        return ascii_ends(s, 4);
    }
    if 2 <= n {
        return ascii_ends(s, 2);
    }
    ascii_ends(s, n)
}

// How many bytes at the front are ASCII, counted by steps.
pub fn ascii_front(s: &[u8]) -> usize
    ensures { (result ≤ length s.now) × Ascii s.now 0 result }
{
    let mut rest = s;
    while let Some((step, more)) = rest.split_first_chunk::<{ Ends::STEP }>() {
        if !is_ascii(step) {
            break;
        }
        rest = more;
    }
    s.len() - rest.len()
}

// How many windows at the front pass since their bytes are ASCII, counted by steps.
pub fn ascii_windows(s: &[u8]) -> usize
    requires { before ≤ length s.now }
    ensures { Passing s.now 0 result }
{
    if is_ascii(&s[..Window::BEFORE]) {
        ascii_front(&s[Window::BEFORE..])
    } else {
        0
    }
}

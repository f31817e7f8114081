// UTF-8 byte by byte: for a text with no room for a block, and for the place at which a text stops being good.
ghost use Rattle.std.specs.Prelude.{◌≡◌, ◌≤◌, length};
ghost use Rattle.format.specs.Utf8.{bad_at, stop, utf8};
ghost use Rattle.utf8.specs.Local.{Ascii, lead_of};

use crate::ascii::ascii_front;

// How many continuation bytes a byte leads; none for one that leads nothing.
#[tactic(auto, unfolding(format::specs::Utf8::leads, format::specs::Utf8::within, format::specs::Choice::pick))]
fn leads(b: u8) -> Option<usize>
    ensures { result ≡ lead_of b }
{
    match b {
        0..=0x7f => Some(0),
        0xc2..=0xdf => Some(1),
        0xe0..=0xef => Some(2),
        0xf0..=0xf4 => Some(3),
        _ => None,
    }
}

// The place at which a text stops being good, byte by byte, after ASCII, with a count of the continuation bytes that are due.
fn scan(s: &[u8], from: usize) -> Option<usize>
    requires { (from ≤ length s.now) × Ascii s.now 0 from }
    ensures { result ≡ stop s.now }
{
    let mut due = 0;
    for at in from..s.len() {
        let b = s[at];
        if due == 0 {
            let Some(n) = leads(b) else {
                return Some(at);
            };
            due = n;
        } else if 0x80 <= b && b <= 0xbf {
            due -= 1;
        } else {
            return Some(at);
        }
    }
    if due == 0 { None } else { Some(s.len()) }
}

// A text with no room for a block.
#[tactic(auto, unfolding(format::specs::Utf8::utf8))]
pub fn by_bytes(s: &[u8]) -> bool
    ensures { result ≡ utf8 s.now }
{
    scan(s, 0).is_none()
}

// The place at which a text that is not good stops being good; 0 for one that is. ASCII is passed by steps, as the place
// may be far back. Not compiled into the loops of its callers: there writing integers took 1.16 times as long, and
// checking names 1.13 times (runs of the bench).
#[inline(never)]
#[tactic(auto, unfolding(format::specs::Utf8::bad_at))]
pub fn bad_at(s: &[u8]) -> usize
    ensures { result ≡ bad_at s.now }
{
    scan(s, ascii_front(s)).unwrap_or(0)
}

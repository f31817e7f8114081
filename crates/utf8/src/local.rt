// UTF-8 by a local rule, which looks at a byte and the three before it: no branch on the data, so that it becomes vector code.
ghost use Rattle.std.specs.Prelude.{◌≡◌, not, ◌&&◌, ◌+◌, ◌-◌, ◌≤◌, length};
ghost use Rattle.format.specs.Utf8.{utf8};
ghost use Rattle.utf8.specs.Local.{before, block_bytes, due, passes, Passing, good_from, Judged};

use crate::ascii::ascii_windows;

// A window is a byte and those before it that the rule looks at; a block is so many windows, one byte further each.
#[derive(Clone, Copy)]
pub struct Window;

impl Window {
    pub const BEFORE: usize = 3;

    pub const PER_BLOCK: usize = 16;

    pub const BLOCK_BYTES: usize = Window::PER_BLOCK + Window::BEFORE;
}

// The local rule: may b come after p3, p2 and p1, the bytes three, two and one before it?
#[tactic(auto, unfolding(crate::specs::Local::passes, crate::specs::Local::due))]
fn may_follow(p3: u8, p2: u8, p1: u8, b: u8) -> bool
    ensures { result ≡ passes p3 p2 p1 b }
{
    let is_due = (0xc0 <= p1) | (0xe0 <= p2) | (0xf0 <= p3);
    let continues = (0x80 <= b) & (b <= 0xbf);
    let never = (0xc0 <= b) & (b <= 0xc1) | (0xf5 <= b);
    (is_due == continues) & !never
}

// May a text end after p3, p2 and p1?
#[tactic(auto, unfolding(crate::specs::Local::due))]
fn may_end(p3: u8, p2: u8, p1: u8) -> bool
    ensures { result ≡ not (due p3 p2 p1) }
{
    !((0xc0 <= p1) | (0xe0 <= p2) | (0xf0 <= p3))
}

// The local rule at the first three bytes, before which there is nothing.
fn starts(s: &[u8]) -> bool
    requires { before ≤ length s.now }
    ensures { utf8 s.now ≡ (result && good_from s.now 0) }
{
    let x = s[0];
    let y = s[1];
    let z = s[2];
    may_follow(0, 0, 0, x) & may_follow(0, 0, x, y) & may_follow(0, x, y, z)
}

// The local rule in all windows of a block. With no branch, and as many of them known at the call, this becomes vector code.
fn block(s: &[u8]) -> bool
    requires { before ≤ length s.now }
    ensures { Judged s.now result }
{
    let mut pass = true;
    for &[p3, p2, p1, b] in s.array_windows::<4>() {
        pass = pass & may_follow(p3, p2, p1, b);
    }
    pass
}

// The local rule in the windows from a on, by blocks. The last block ends at the end, and may look at some windows again.
// One place calls block, so that its code is put into this loop: with the rest as a slice, and the last block after the
// loop, short texts took 1.09 times as long, and ASCII 1.04 times.
fn blocks(s: &[u8], a: usize) -> bool
    requires { (block_bytes ≤ length s.now) × Passing s.now 0 a }
    ensures { good_from s.now 0 ≡ (result && good_from s.now (length s.now - before)) }
{
    let last = s.len() - Window::BLOCK_BYTES;
    let mut i = a;
    loop {
        let at = i.min(last);
        if !block(&s[at..at + Window::BLOCK_BYTES]) {
            return false;
        }
        if last <= at {
            return true;
        }
        i = at + Window::PER_BLOCK;
    }
}

// A text that has room for a block: its start, its windows, its end.
pub fn long(s: &[u8]) -> bool
    requires { block_bytes ≤ length s.now }
    ensures { result ≡ utf8 s.now }
{
    if !starts(s) {
        return false;
    }
    if !blocks(s, ascii_windows(s)) {
        return false;
    }
    let n = s.len();
    may_end(s[n - 3], s[n - 2], s[n - 1])
}

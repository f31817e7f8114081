// The mark of a name's bytes, by which most names that differ are told apart without looking at their bytes.
ghost use Rattle.std.specs.Prelude.{◌≡◌, ◌<◌, ◌≤◌, length};
ghost use Rattle.symbols.specs.Mark.{marks, max_end, mixed, mark_end, mark_of};

use wire::header::number;

#[derive(Clone, Copy)]
pub struct Marks;

impl Marks {
    // Marks are below this.
    pub const COUNT: u64 = u32::MAX as u64 + 1;
    // The most bytes that are left for `end`.
    const MAX_END: usize = 16;
}

#[tactic(auto, unfolding(crate::specs::Mark::mixed))]
fn mix(h: u64, v: u64, w: u64) -> u64
    requires { h < marks }
    ensures { (result ≡ mixed h v w) × (result < marks) }
{
    ((h + v % Marks::COUNT) % Marks::COUNT * 2654435761 + w % Marks::COUNT * 1540483477)
        % Marks::COUNT
}

// The last bytes. Two reads of a fixed width that meet or overlap take less than a loop.
fn end(h: u64, s: &[u8]) -> u64
    requires { (h < marks) × (length s.now ≤ max_end) }
    ensures { (result ≡ mark_end h s.now) × (result < marks) }
{
    let n = s.len();
    if 8 <= n {
        let g = mix(h, number(&s[..4]), number(&s[4..8]));
        return mix(g, number(&s[n - 8..n - 4]), number(&s[n - 4..]));
    }
    if 4 <= n {
        return mix(h, number(&s[..4]), number(&s[n - 4..]));
    }
    if n == 0 {
        return mix(h, 0, 0);
    }
    mix(h, number(&[s[0], s[n / 2], s[n - 1]]), 0)
}

pub fn mark(s: &[u8]) -> u64
    ensures { (result ≡ mark_of s.now) × (result < marks) }
{
    let mut h = 0;
    let mut rest = s;
    while Marks::MAX_END < rest.len() {
        h = mix(h, number(&rest[..4]), number(&rest[4..8]));
        rest = &rest[8..];
    }
    end(h, rest)
}

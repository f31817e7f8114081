// The place among containers, after one more row.
ghost use Rattle.std.specs.Prelude.{◌≡◌, ◌+◌, ◌≤◌, ◌<◌, ◌^◌, length, set};
ghost use Rattle.format.specs.Limits.{max_depth};
ghost use Rattle.rows.specs.Stack.{bottom, closed};
ghost use Rattle.rows.specs.Steps.{valued, named_by, opened_by};

use crate::state::State;
use format::{Bundle, Row};

// How many containers are open, and the fields left in the innermost.
#[derive(Clone, Copy)]
pub struct Level {
    pub depth: usize,
    pub left: u64,
}

// A value is whole, and with it each container of which it was the last field.
fn close(stack: &[u64; Bundle::MAX_DEPTH], depth: usize, left: u64) -> Level
    requires { (length stack.now ≡ max_depth) × (depth ≤ max_depth) × (2 ≤ bottom stack.now depth left) }
    ensures { result ≡ closed stack.now depth left }
{
    let mut d = depth;
    let mut l = left;
    while l < 2 {
        d -= 1;
        l = stack[d];
    }
    Level {
        depth: d,
        left: l - 1,
    }
}

// After a value of n bytes.
pub fn value(stack: &[u64; Bundle::MAX_DEPTH], s: &mut State, n: usize)
    requires { (length stack.now ≡ max_depth) × (s.old.depth ≤ max_depth)
        × (2 ≤ bottom stack.now s.old.depth s.old.left) × (s.old.row + 1 < 2 ^ 64) × (s.old.size + n < 2 ^ 64) }
    ensures { s.new ≡ valued stack.now s.old n }
{
    let to = close(stack, s.depth, s.left);
    *s = State {
        row: s.row + 1,
        depth: to.depth,
        left: to.left,
        keyed: 0,
        size: s.size + n,
    };
}

// After a name of n bytes: a key is no value yet.
pub fn named(stack: &[u64; Bundle::MAX_DEPTH], s: &mut State, kind: u8, n: usize)
    requires { (length stack.now ≡ max_depth) × (s.old.depth ≤ max_depth)
        × (2 ≤ bottom stack.now s.old.depth s.old.left) × (s.old.row + 1 < 2 ^ 64) × (s.old.size + n < 2 ^ 64) }
    ensures { s.new ≡ named_by stack.now s.old kind n }
{
    if kind == Row::KEY {
        *s = State {
            row: s.row + 1,
            depth: s.depth,
            left: s.left,
            keyed: 1,
            size: s.size + n,
        };
        return;
    }
    value(stack, s, n);
}

// After the header, of n bytes, of a container with fields in it.
pub fn descend(stack: &mut [u64; Bundle::MAX_DEPTH], s: &mut State, fields: u64, n: usize)
    requires { (length stack.old ≡ max_depth) × (s.old.depth < max_depth) × (s.old.row + 1 < 2 ^ 64)
        × (s.old.size + n < 2 ^ 64) }
    ensures state { s.new ≡ opened_by s.old fields n }
    ensures stored { stack.new ≡ set stack.old s.old.depth s.old.left }
{
    let depth = s.depth;
    stack[depth] = s.left;
    *s = State {
        row: s.row + 1,
        depth: depth + 1,
        left: fields,
        keyed: 0,
        size: s.size + n,
    };
}

// All rows judged, one after the other.
ghost use Rattle.std.specs.Prelude.{◌≡◌, ◌≤◌, length};
ghost use Rattle.format.specs.Limits.{max_bytes, max_rows};
ghost use Rattle.rows.specs.Plan.{plan_size};
ghost use Rattle.writer.specs.Verdict.{begun, Verdict};

use format::{Bundle, Failure, Row};
use rows::{Plan, State, step};
use symbols::names::Names;

// The state before the first row.
#[tactic(auto, unfolding(crate::specs::Verdict::begun))]
fn begin() -> State
    ensures { result ≡ begun }
{
    State {
        row: 0,
        depth: 0,
        left: State::TOP,
        keyed: 0,
        size: 0,
    }
}

// Judges and measures rows, and notes how each name is to be written.
pub fn judge(rows: &[Row], text: &[u8], plan: &mut [u16; Plan::SIZE]) -> Result<State, Failure>
    requires { (length rows.now ≤ max_rows) × (length text.now ≤ max_bytes) × (length plan.old ≡ plan_size) }
    ensures { Verdict text.now plan.new rows.now result }
{
    let mut names = Names::new(text, &[]);
    let mut stack = [0u64; Bundle::MAX_DEPTH];
    let mut s = begin();
    for row in rows {
        step(&mut names, &mut stack, plan, &mut s, *row)?;
    }
    Ok(s)
}

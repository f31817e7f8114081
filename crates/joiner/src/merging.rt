// Two bundles that read, merged: measured first, then written, so that an error changes no byte.
ghost use Rattle.std.specs.Prelude.{◌≡◌, ℕ, ◌≤◌, length};
ghost use Rattle.format.specs.Demand3.{Joins};
ghost use Rattle.format.specs.Reading.{lenient};
ghost use Rattle.format.specs.Limits.{max_rows};
ghost use Rattle.joiner.specs.Merging.{Both, Fitting, Measured, Ready, Planned, Put, begun, top};

use encoder::fitting::is_over;
use format::{Error, Failure, Row, fail};
use rewriter::measuring::{Tally, measure};
use rewriter::putting::{Spot, put};
use symbols::names::Names;

// Before the first item.
fn begin() -> Tally
    ensures { result ≡ begun }
{
    Tally {
        at: 0,
        entries: 0,
        row: 0,
        size: 0,
    }
}

fn start() -> Spot
    ensures { result ≡ top }
{
    Spot {
        at: 0,
        row: 0,
        out: 0,
    }
}

// Measures both bundles, and plans how their names are written: none where there is a name too many.
fn measure_both<'a>(
    first: &'a [u8],
    second: &'a [u8],
    plan: &mut [u16; Row::MAX_COUNT],
) -> Option<Tally>
    requires { Fitting first.now second.now × (length plan.old ≡ max_rows) }
    ensures { (rows : ℕ) (p : Both first.now second.now rows) → rows ≤ max_rows
        → Measured p plan.new result }
{
    let mut names = Names::new(first, second);
    let t = measure(&mut names, 0, plan, begin())?;
    measure(&mut names, 1, plan, t)
}

// Writes both bundles as planned.
fn put_both(out: &mut [u8], first: &[u8], second: &[u8], plan: &[u16; Row::MAX_COUNT]) -> Spot
    requires { Ready first.now second.now plan.now (length out.old) }
    ensures { (rows : ℕ) (p : Both first.now second.now rows)
        → Planned p plan.now (length out.old)
        → Put p out.old out.new result }
{
    let w = put(out, first, plan, start());
    put(out, second, plan, w)
}

// Merges two bundles that have so many rows together.
pub fn merge<'a>(
    first: &'a [u8],
    second: &'a [u8],
    out: &mut [u8],
    rows: usize,
) -> Result<usize, Failure>
    requires { Both first.now second.now rows }
    ensures { Joins lenient first.now second.now out.old result out.new }
{
    if Row::MAX_COUNT < rows {
        return fail(Error::TooManyRows, 0);
    }
    let mut plan = [0u16; Row::MAX_COUNT];
    let t = match measure_both(first, second, &mut plan) {
        Some(t) => t,
        None => return fail(Error::TooManyEntries, 0),
    };
    if is_over(t.size, out.len()) {
        return fail(Error::OutputTooLong, 0);
    }
    put_both(out, first, second, &plan);
    Ok(t.size)
}

// Joining two bundles, and the canonical encoding of one.
ghost use Rattle.std.specs.Prelude.{◌≡◌, length};
ghost use Rattle.format.specs.Answer.{on_side};
ghost use Rattle.format.specs.Demand3.{Joins};
ghost use Rattle.format.specs.Joining.{canonicalizing};
ghost use Rattle.format.specs.Reading.{counts, lenient};
ghost use Rattle.format.specs.Written.{Writes};

use crate::merging::merge;
use format::{Bundle, Failure};
use reader::check;

// The counts of a bundle on one side of a join.
#[tactic(auto, unfolding(format::specs::Answer::on_side))]
fn check_on(side: u8, bytes: &[u8]) -> Result<Bundle, Failure>
    ensures { result ≡ on_side side (counts lenient bytes.now) }
{
    check(bytes).map_err(|f| f.on(side))
}

// Writes the canonical encoding of the first bundle's fields followed by the second's; on an error no byte is changed.
pub fn join<'a>(first: &'a [u8], second: &'a [u8], out: &mut [u8]) -> Result<usize, Failure>
    ensures { Joins lenient first.now second.now out.old result out.new }
{
    let a = check_on(1, first)?;
    let b = check_on(2, second)?;
    merge(first, second, out, a.rows + b.rows)
}

// Writes the canonical encoding of a bundle (document 01: tighten), which is merged with the empty one; on an error no byte is changed.
pub fn canonicalize(bytes: &[u8], out: &mut [u8]) -> Result<usize, Failure>
    ensures { Writes (canonicalizing bytes.now (length out.old)) out.old result out.new }
{
    let b = check(bytes)?;
    merge(bytes, &[], out, b.rows)
}

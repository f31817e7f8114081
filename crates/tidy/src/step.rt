// One envelope, copied with its bundle in the canonical encoding.
ghost use Rattle.std.specs.Prelude.{◌≡◌, ℕ, ◌≤◌, length, Err};
ghost use Rattle.format.specs.Limits.{max_bytes};
ghost use Rattle.format.specs.Envelope.{max_envelope};
ghost use Rattle.stream.specs.Run.{Makes};
ghost use Rattle.tidy.specs.Tidied.{Closed, filter, step_of};

use format::Failure;
use stream::Step;

// An envelope that is refused takes nothing, so that the run stops, and nothing is written for it.
fn refused(f: Failure) -> Step
    ensures { result ≡ step_of 0 (Err f) }
{
    Step {
        used: 0,
        written: 0,
        outcome: Err(f),
    }
}

// Closes the canonical encoding of a bundle into an envelope.
fn closed(used: usize, bundle: &[u8], out: &mut [u8]) -> Step
    ensures { Closed used bundle.now out.old result out.new }
{
    match envelope::close(bundle, out) {
        Err(f) => refused(f),
        Ok(written) => Step {
            used,
            written,
            outcome: Ok(()),
        },
    }
}

// Writes the envelope that the bytes begin with, tidied, and nothing where it is refused; the bundle goes by way of the scratch buffer.
pub fn tidy(bytes: &[u8], scratch: &mut [u8], out: &mut [u8]) -> Step
    requires { (length scratch.old ≡ max_bytes) × (max_envelope ≤ length out.old) }
    ensures { (k : ℕ) → Makes filter k bytes.now out.old result out.new }
{
    match envelope::bundle_len(bytes) {
        Err(f) => refused(f),
        Ok(n) => match joiner::canonicalize(envelope::open(bytes), scratch) {
            Err(f) => refused(f),
            Ok(m) => closed(envelope::OVERHEAD + n, &scratch[..m], out),
        },
    }
}

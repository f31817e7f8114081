// One envelope, listed.
ghost use Rattle.std.specs.Prelude.{◌≤◌, length};
ghost use Rattle.listed.specs.Text.{max_text};
ghost use Rattle.stream.specs.Run.{Makes};
ghost use Rattle.listing.specs.Printed.{filter};

use listed::{put_bundle, put_envelope_error};
use stream::Step;

// Writes the text for the envelope that the bytes begin with. One that is refused takes none of them, so that the run stops.
pub fn list(k: u64, bytes: &[u8], out: &mut [u8]) -> Step
    requires { max_text ≤ length out.old }
    ensures { Makes filter k bytes.now out.old result out.new }
{
    match envelope::bundle_len(bytes) {
        Err(f) => Step {
            used: 0,
            written: put_envelope_error(k, f.error.code(), out),
            outcome: Err(f),
        },
        Ok(n) => {
            let printed = put_bundle(k, envelope::open(bytes), out);
            Step {
                used: envelope::OVERHEAD + n,
                written: printed.written,
                outcome: printed.outcome,
            }
        }
    }
}

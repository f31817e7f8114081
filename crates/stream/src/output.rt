// Standard output, written whole.
ghost use Rattle.std.specs.Prelude.{◌≡◌, Ok, length};

use crate::failure::{Failed, has_failed, say};
use std::io::{Error, ErrorKind, Print};

// Writes all of the bytes. An error is said on standard error; a write that a signal interrupts is tried again.
// That nobody reads any more is not said, as is usual.
pub fn put(rt: &HostRuntime, bytes: &[u8], what: &[u8]) -> Result<(), Failed>
    ensures { length bytes.now ≡ 0 → result ≡ Ok tt }
{
    let mut rest = bytes;
    // A proved loop has to end: no run uses up this number of turns.
    for _ in 0..u64::MAX {
        if rest.is_empty() {
            return Ok(());
        }
        match rt.write_some(rest) {
            Ok(0) => {
                say(rt, what, &Error::from(ErrorKind::WriteZero));
                return Err(Failed);
            }
            Ok(n) => rest = &rest[n..],
            Err(error) => {
                if error.kind() == ErrorKind::BrokenPipe {
                    return Err(Failed);
                }
                has_failed(rt, what, &error)?;
            }
        }
    }
    Err(Failed)
}

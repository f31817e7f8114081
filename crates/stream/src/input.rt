// An input through a buffer: the bytes that are not used yet stand between start and end.
ghost use Rattle.std.specs.Prelude.{◌≡◌, ◌-◌, ◌+◌, ◌<◌, ◌≤◌, length, take};
ghost use Rattle.stream.specs.State.{moved_on};
ghost use Rattle.stream.specs.Window.{Pulls, Within, unread, unused};

use crate::failure::{Failed, has_failed};
use std::io::Read;

// Ended: there is no more input, though bytes may be left. Nothing is read yet of the default.
#[derive(Clone, Copy, Debug, PartialEq, Eq, Default)]
pub struct Window {
    pub start: usize,
    pub end: usize,
    pub ended: bool,
}

impl Window {
    // The unused bytes.
    pub fn unread(self, buffer: &[u8]) -> &[u8]
        requires { Within self (length buffer.now) }
        ensures { result.now ≡ unread self buffer.now }
    {
        &buffer[self.start..self.end]
    }

    // The window behind an envelope; behind one that stops the run there is no more input.
    #[tactic(auto, using(crate::proofs::StateLaws::stops, crate::proofs::StateLaws::goes_on))]
    pub fn moved_on(self, used: usize) -> Window
        requires { self.start + used ≤ self.end }
        ensures { result ≡ moved_on self used }
    {
        if used == 0 {
            Window {
                start: self.end,
                end: self.end,
                ended: true,
            }
        } else {
            Window {
                start: self.start + used,
                ..self
            }
        }
    }

    // Reads once, behind the unused bytes, which stay; there is space for one more, so that a read of nothing is the
    // input's end. A read that a signal interrupts brings nothing; any other error is said on standard error.
    pub fn pull<R: Read>(
        &mut self,
        rt: &HostRuntime,
        source: &mut R,
        buffer: &mut [u8],
        what: &[u8],
    ) -> Result<(), Failed>
        requires { Within self.old (length buffer.old) × (unused self.old < length buffer.old) }
        ensures { Pulls self.old buffer.old self.new buffer.new }
    {
        let end = compact(buffer, *self);
        match source.read(&mut buffer[end..]) {
            Ok(n) => {
                *self = Window {
                    start: 0,
                    end: end + n,
                    ended: n == 0,
                };
                Ok(())
            }
            Err(error) => {
                *self = Window {
                    start: 0,
                    end,
                    ended: false,
                };
                has_failed(rt, what, &error)
            }
        }
    }
}

// Moves the unused bytes to the front, and answers how many there are.
fn compact(buffer: &mut [u8], w: Window) -> usize
    requires { Within w (length buffer.old) }
    ensures { (result ≡ unused w) × (take result buffer.new ≡ unread w buffer.old) }
{
    buffer.copy_within(w.start..w.end, 0);
    w.end - w.start
}

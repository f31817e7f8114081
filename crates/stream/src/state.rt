// Where a program stands in its input and its output, and what it has met on the way.
ghost use Rattle.std.specs.Prelude.{◌≡◌, ◌+◌, ◌^◌, ◌<◌, ◌≤◌, length};
ghost use Rattle.format.specs.Envelope.{max_envelope};
ghost use Rattle.stream.specs.Window.{Within, input_capacity, unused};
ghost use Rattle.stream.specs.State.{Finishes, Flushes, Ready, Refills, action_of, advanced, begun, broken, first};

use crate::input::Window;
use crate::output::put;
use format::Failure;
use std::io::Read;

// An envelope that was refused, by its number, and why.
#[derive(Clone, Copy, Debug, PartialEq, Eq)]
pub struct Refused {
    pub envelope: u64,
    pub failure: Failure,
}

// The window over the input, how many bytes of the output wait in their buffer, how many envelopes were taken, the
// first that was refused, whether one stopped the run, whether reading or writing failed, and whether the run has ended.
// The last three are no enum: an input may be begun after a failure (`begun`), and one that stops the run ends it only
// when what waits is written, which may fail.
#[derive(Clone, Copy, Debug, PartialEq, Eq)]
pub struct Stream {
    pub window: Window,
    pub filled: usize,
    pub count: u64,
    pub refusal: Option<Refused>,
    pub stopped: bool,
    pub failed: bool,
    pub done: bool,
}

// What one envelope took of the input, how many bytes were written for it, and what became of it. One that stops the
// run takes nothing.
#[derive(Clone, Copy, Debug, PartialEq, Eq)]
pub struct Step {
    pub used: usize,
    pub written: usize,
    pub outcome: Result<(), Failure>,
}

// What is to be done next: read, take the next envelope, or end.
#[derive(Clone, Copy, Debug, PartialEq, Eq)]
pub enum Action {
    Read,
    Take,
    End,
}

// What messages call the input and the output.
#[derive(Clone, Copy)]
pub struct Labels<'a> {
    pub reading: &'a [u8],
    pub writing: &'a [u8],
}

impl Stream {
    // What a read has space for beside the longest envelope: 64 KiB.
    const AHEAD: usize = 65536;
    // An input's buffer.
    pub const CAPACITY: usize = Stream::AHEAD + envelope::MAX_BYTES;

    // That buffer: it takes any envelope, so that a read has space as long as one is cut. `Output::buffer` of `runner` is
    // no instance of one function with it, since each promises what its own buffer takes (docs/PROMISES).
    pub fn buffer() -> [u8; Stream::CAPACITY]
        ensures { (input_capacity ≡ length result) × (max_envelope ≤ length result) }
    {
        [0u8; Stream::CAPACITY]
    }

    // Before the first envelope.
    pub fn new() -> Stream
        ensures { result ≡ first }
    {
        Stream {
            window: Window::default(),
            filled: 0,
            count: 0,
            refusal: None,
            stopped: false,
            failed: false,
            done: false,
        }
    }

    // Before an input, after those that are done with.
    pub fn begin(&mut self)
        ensures { self.new ≡ begun self.old }
    {
        self.window = Window::default();
        self.filled = 0;
        self.done = false;
    }

    // An envelope is taken as soon as it is whole, and what is left where the input ends.
    #[tactic(auto, using(crate::proofs::WindowLaws::ends, crate::proofs::WindowLaws::takes_last, crate::proofs::WindowLaws::takes, crate::proofs::WindowLaws::reads))]
    pub fn next(&self, input: &[u8]) -> Action
        requires { Within self.now.window (length input.now) }
        ensures { result ≡ action_of self.now input.now }
    {
        let unread = self.window.unread(input);
        if self.window.ended {
            if unread.is_empty() {
                Action::End
            } else {
                Action::Take
            }
        } else if envelope::missing(unread) == 0 {
            Action::Take
        } else {
            Action::Read
        }
    }

    // After an envelope.
    #[tactic(auto, unfolding(crate::specs::State::noted))]
    pub fn advance(&mut self, step: Step)
        requires { (self.old.window.start + step.used ≤ self.old.window.end) × (self.old.filled + step.written < 2 ^ 64) }
        ensures { self.new ≡ advanced self.old step }
    {
        // No run comes to so many envelopes that the sum wraps.
        let envelope = self.count.wrapping_add(1);
        let refused = step
            .outcome
            .err()
            .map(|failure| Refused { envelope, failure });
        self.window = self.window.moved_on(step.used);
        self.filled += step.written;
        self.count = envelope;
        self.refusal = self.refusal.or(refused);
        self.stopped = step.used == 0;
    }

    // Something failed: the run has ended.
    pub fn fail(&mut self)
        ensures { self.new ≡ broken self.old }
    {
        self.failed = true;
        self.done = true;
    }

    // Writes what waits. The run has ended where that fails.
    pub fn flush(&mut self, rt: &HostRuntime, output: &[u8], what: &[u8])
        requires { self.old.filled ≤ length output.now }
        ensures { Flushes self.old self.new }
    {
        let failed = put(rt, &output[..self.filled], what).is_err();
        self.filled = 0;
        self.failed = failed;
        self.done = failed;
    }

    // Writes what waits, and ends the run.
    pub fn finish(&mut self, rt: &HostRuntime, output: &[u8], what: &[u8])
        requires { self.old.filled ≤ length output.now }
        ensures { Finishes self.old self.new }
    {
        self.flush(rt, output, what);
        self.done = true;
    }

    // Writes what waits, so that nothing is held back, and then reads once. The run has ended where either fails.
    pub fn refill<R: Read>(
        &mut self,
        rt: &HostRuntime,
        source: &mut R,
        input: &mut [u8],
        output: &[u8],
        labels: Labels,
    )
        requires { Ready self.old (length input.old) (length output.now) × (unused self.old.window < length input.old) }
        ensures { Refills self.old input.old self.new input.new }
    {
        self.flush(rt, output, labels.writing);
        if self.failed {
            return;
        }
        let failed = self.window.pull(rt, source, input, labels.reading).is_err();
        self.failed = failed;
        self.done = failed;
    }
}

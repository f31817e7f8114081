// The run over an input: envelopes are taken as they come in, and what waits is written before more input is waited for.
ghost use Rattle.std.specs.Prelude.{◌≡◌, ◌≤◌, length};
ghost use Rattle.format.specs.Limits.{max_bytes};
ghost use Rattle.format.specs.Envelope.{max_envelope};
ghost use Rattle.listed.specs.Text.{max_text};
ghost use Rattle.runner.specs.Program.{output_capacity};
ghost use Rattle.stream.specs.Window.{unread};
ghost use Rattle.stream.specs.State.{Ready};
ghost use Rattle.stream.specs.Run.{Buffers, Runs, Takes, Turns};

use crate::program::Program;
use format::Bundle;
use listed::Text;
use std::io::Read;
use stream::{Action, Labels, Stream};

#[derive(Clone, Copy)]
pub struct Output;

impl Output {
    // The output's buffer: as long as the input's and the longest text, so that what one read brings mostly goes out in
    // one write.
    pub const CAPACITY: usize = Stream::CAPACITY + Text::MAX_LEN;

    // That buffer: it takes what is made of any envelope.
    pub fn buffer() -> [u8; Output::CAPACITY]
        ensures { (output_capacity ≡ length result) × (max_text ≤ length result) × (max_envelope ≤ length result) }
    {
        [0u8; Output::CAPACITY]
    }
}

// Takes the next envelope; where the buffer may be too short for what is made of it, writes what waits.
fn take<P: Program>(
    rt: &HostRuntime,
    input: &[u8],
    scratch: &mut [u8],
    output: &mut [u8],
    s: &mut Stream,
    writing: &[u8],
)
    requires { Ready s.old (length input.now) (length output.old) × (length scratch.old ≡ max_bytes) }
    ensures ready { Ready s.new (length input.now) (length output.new) }
    ensures takes { Takes P.filter s.old (unread s.old.window input.now) output.old s.new output.new }
{
    let space = &mut output[s.filled..];
    if space.len() < P::MAX_OUTPUT {
        s.flush(rt, output, writing);
    } else {
        s.advance(P::put(
            s.count.wrapping_add(1),
            s.window.unread(input),
            scratch,
            space,
        ));
    }
}

// One turn, by what is to be done next. The three buffers are no struct: with an invariant over their lengths its fields
// cannot be borrowed one beside the other yet, and without one each function would require the lengths (tried).
fn turn<P: Program, R: Read>(
    rt: &HostRuntime,
    source: &mut R,
    input: &mut [u8],
    scratch: &mut [u8],
    output: &mut [u8],
    s: &mut Stream,
    labels: Labels,
)
    requires ready { Ready s.old (length input.old) (length output.old) }
    requires buffers { Buffers P.filter input.old output.old }
    requires scratch_len { length scratch.old ≡ max_bytes }
    ensures still_ready { Ready s.new (length input.new) (length output.new) }
    ensures turns { Turns P.filter s.old input.old output.old s.new input.new output.new }
{
    match s.next(input) {
        Action::Read => s.refill(rt, source, input, output, labels),
        Action::Take => take::<P>(rt, input, scratch, output, s, labels.writing),
        Action::End => s.finish(rt, output, labels.writing),
    }
}

// The run over an input.
pub fn run<P: Program, R: Read>(
    rt: &HostRuntime,
    source: &mut R,
    before: Stream,
    labels: Labels,
) -> Stream
    ensures { Runs P.filter before result }
{
    let mut input = Stream::buffer();
    let mut scratch = [0u8; Bundle::MAX_BYTES];
    let mut output = Output::buffer();
    let mut s = before;
    s.begin();
    // A proved loop has to end, and nothing says that the input does: no run uses up this number of turns.
    for _ in 0..u64::MAX {
        if s.done {
            return s;
        }
        turn::<P, R>(
            rt,
            source,
            &mut input,
            &mut scratch,
            &mut output,
            &mut s,
            labels,
        );
    }
    s.fail();
    s
}

// The text for one envelope, at the start of a buffer.
ghost use Rattle.std.specs.Prelude.{◌≡◌, length};
ghost use Rattle.format.specs.Answer.{outcome_of};
ghost use Rattle.reader.specs.Answers.{rows_in};
ghost use Rattle.wire.specs.Output.{Puts};
ghost use Rattle.listed.specs.Text.{envelope_text, within};
ghost use Rattle.listed.specs.Promises.{Prints};

use crate::line::{put_envelope, put_first, put_row};
use crate::table::Table;
use ascii::Decimal;
use format::{Bundle, Failure, Row};

#[derive(Clone, Copy)]
pub struct Text;

impl Text {
    // A first line without its numbers; with ` rows ` and ` names ` it has as many bytes.
    const FIRST: [u8; 21] = *b"bundle  refused  at \n";

    const MAX_FIRST: usize = Text::FIRST.len() + 3 * Decimal::MAX_LEN;
    // Four numbers, with the byte after each.
    const MAX_ROW: usize = 4 * (Decimal::MAX_LEN + 1);
    // A buffer with so many bytes takes any text.
    pub const MAX_LEN: usize = Text::MAX_FIRST + Row::MAX_COUNT * Text::MAX_ROW;
}

// How many bytes were written, and whether the bundle reads.
#[derive(Clone, Copy, Debug, PartialEq, Eq)]
pub struct Printed {
    pub written: usize,
    pub outcome: Result<(), Failure>,
}

// How many rows are printed.
#[tactic(auto, unfolding(reader::specs::Answers::rows_in))]
fn row_count(answer: Result<Bundle, Failure>) -> usize
    ensures { result ≡ rows_in answer }
{
    answer.map_or(0, |b| b.rows)
}

// Whether the bundle reads, without its counts.
#[tactic(auto, unfolding(format::specs::Answer::outcome_of, format::specs::Answer::then))]
fn outcome(answer: Result<Bundle, Failure>) -> Result<(), Failure>
    ensures { result ≡ outcome_of answer }
{
    answer.map(|_| ())
}

// The text for the bundle of envelope k; nothing is told, and no byte changed, where the buffer is shorter than
// `Text::MAX_LEN`.
pub fn put_bundle(k: u64, bundle: &[u8], out: &mut [u8]) -> Printed
    ensures { Prints k bundle.now out.old result out.new }
{
    if out.len() < Text::MAX_LEN {
        return Printed {
            written: 0,
            outcome: Ok(()),
        };
    }
    let t = Table::read(bundle);
    let mut at = put_first(k, t.answer, out);
    for i in 0..row_count(t.answer) {
        at += put_row(i as u64, t.rows[i], &mut out[at..]);
    }
    Printed {
        written: at,
        outcome: outcome(t.answer),
    }
}

// The text for envelope k where it is refused with a number, and how long it is; 0, and no byte changed, in a buffer that
// is shorter. A number, and not an `Error`, which would ask more of callers than docs/PROMISES says.
pub fn put_envelope_error(k: u64, number: u8, out: &mut [u8]) -> usize
    ensures { Puts (within (length out.old) (envelope_text k number)) result out.old out.new }
{
    if out.len() < Text::MAX_LEN {
        return 0;
    }
    put_envelope(k, number, out)
}

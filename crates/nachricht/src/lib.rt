// The calls of the C interface, which `nachricht_c` exports, with plain numbers for what they answer.
#![tactic(auto)]

ghost use Rattle.std.specs.Prelude.{◌≡◌, length, Ok};
ghost use Rattle.format.specs.Answer.{counted, stored};
ghost use Rattle.format.specs.Limits.{max_rows};
ghost use Rattle.format.specs.Reading.{options, counts, lenient};
ghost use Rattle.format.specs.Rows as table;
ghost use Rattle.format.specs.Writing.{writing};
ghost use Rattle.format.specs.Joining.{canonicalizing, joining};
ghost use Rattle.format.specs.Envelope.{closing, opening};
ghost use Rattle.format.specs.Error.{mode_of};
ghost use Rattle.nachricht.specs.Answers.{failed_answer, counts_answer, count_answer};

use format::{Bundle, Failure, Mode, Row};

// An answer: the error's number or 0, its place, side and the row beside it, and the counts.
#[repr(C)]
#[derive(Clone, Copy, Debug, Default, PartialEq, Eq)]
pub struct Answer {
    pub error: u64,
    pub place: u64,
    pub side: u64,
    pub row: u64,
    pub count: u64,
    pub entries: u64,
    pub fields: u64,
}

impl From<Failure> for Answer {
    ghost from_gives = { λ f answer. answer ≡ failed_answer f };

    #[tactic(auto, unfolding(crate::specs::Answers::failed_answer))]
    fn from(f: Failure) -> Answer {
        Answer {
            error: u64::from(f.error.code()),
            place: f.place as u64,
            side: u64::from(f.side),
            row: f.row as u64,
            ..Answer::default()
        }
    }
}

impl From<Result<Bundle, Failure>> for Answer {
    ghost from_gives = { λ r answer. answer ≡ counts_answer r };

    #[tactic(auto, unfolding(crate::specs::Answers::counts_answer))]
    fn from(r: Result<Bundle, Failure>) -> Answer {
        match r {
            Ok(b) => Answer {
                count: b.rows as u64,
                entries: b.entries as u64,
                fields: b.fields as u64,
                ..Answer::default()
            },
            Err(f) => Answer::from(f),
        }
    }
}

impl From<Result<usize, Failure>> for Answer {
    ghost from_gives = { λ r answer. answer ≡ count_answer r };

    #[tactic(auto, unfolding(crate::specs::Answers::count_answer))]
    fn from(r: Result<usize, Failure>) -> Answer {
        match r {
            Ok(n) => Answer {
                count: n as u64,
                ..Answer::default()
            },
            Err(f) => Answer::from(f),
        }
    }
}

// Checks a bundle.
pub fn nachricht_check(bytes: &[u8], strict: bool) -> Answer
    ensures { result ≡ counts_answer (counts (options (mode_of strict) max_rows) bytes.now) }
{
    reader::check_in(bytes, Mode::from(strict)).into()
}

// Reads a bundle into a table of rows.
pub fn nachricht_read(bytes: &[u8], strict: bool, rows: &mut [Row]) -> Answer
    ensures answer { result ≡ counts_answer (counts (options (mode_of strict) (length rows.old)) bytes.now) }
    ensures filled { rows.new ≡ stored rows.old
        (table.rows (options (mode_of strict) (length rows.old)) bytes.now) }
{
    reader::read_in(bytes, Mode::from(strict), rows).into()
}

// Writes rows over a text.
pub fn nachricht_write(rows: &[Row], text: &[u8], out: &mut [u8]) -> Answer
    ensures answer { result ≡ count_answer (counted (writing rows.now text.now (length out.old))) }
    ensures buffer { out.new ≡ stored out.old
        (writing rows.now text.now (length out.old)) }
{
    writer::write(rows, text, out).into()
}

// Writes the canonical encoding of a bundle.
pub fn nachricht_canonicalize(bytes: &[u8], out: &mut [u8]) -> Answer
    ensures answer { result ≡ count_answer (counted (canonicalizing bytes.now (length out.old))) }
    ensures buffer { out.new ≡ stored out.old
        (canonicalizing bytes.now (length out.old)) }
{
    joiner::canonicalize(bytes, out).into()
}

// Joins two bundles.
pub fn nachricht_join<'a>(first: &'a [u8], second: &'a [u8], out: &mut [u8]) -> Answer
    ensures answer { result ≡ count_answer
        (counted (joining lenient first.now second.now (length out.old))) }
    ensures buffer { out.new ≡ stored out.old
        (joining lenient first.now second.now (length out.old)) }
{
    joiner::join(first, second, out).into()
}

// Opens an envelope: the bundle's length. It begins after the length and the version, at offset 3.
pub fn nachricht_open(envelope: &[u8]) -> Answer
    ensures { result ≡ count_answer (counted (opening envelope.now)) }
{
    envelope::bundle_len(envelope).into()
}

// Writes the envelope of a bundle.
pub fn nachricht_close(bundle: &[u8], out: &mut [u8]) -> Answer
    ensures answer { result ≡ count_answer (counted (closing bundle.now (length out.old))) }
    ensures buffer { out.new ≡ stored out.old (closing bundle.now (length out.old)) }
{
    envelope::close(bundle, out).into()
}

// The C interface, built as the static library `libnachricht.a`: each export makes the call of its name in `nachricht`.
#![tactic(auto)]

ghost use Rattle.std.specs.Prelude.{◌≡◌, length};
ghost use Rattle.format.specs.Answer.{counted, stored};
ghost use Rattle.format.specs.Limits.{max_rows};
ghost use Rattle.format.specs.Reading.{options, counts, lenient};
ghost use Rattle.format.specs.Rows as table;
ghost use Rattle.format.specs.Writing.{writing};
ghost use Rattle.format.specs.Joining.{canonicalizing, joining};
ghost use Rattle.format.specs.Envelope.{closing, opening};
ghost use Rattle.format.specs.Error.{mode_of};
ghost use Rattle.nachricht.specs.Answers.{counts_answer, count_answer};

use format::Row;
use nachricht::Answer;

// Checks a bundle.
#[unsafe(no_mangle)]
pub extern "C" fn nachricht_check(bytes: &[u8], strict: bool) -> Answer
    ensures { result ≡ counts_answer (counts (options (mode_of strict) max_rows) bytes.now) }
{
    nachricht::nachricht_check(bytes, strict)
}

// Reads a bundle into a table of rows.
#[unsafe(no_mangle)]
pub extern "C" fn nachricht_read(bytes: &[u8], strict: bool, rows: &mut [Row]) -> Answer
    ensures answer { result ≡ counts_answer (counts (options (mode_of strict) (length rows.old)) bytes.now) }
    ensures filled { rows.new ≡ stored rows.old
        (table.rows (options (mode_of strict) (length rows.old)) bytes.now) }
{
    nachricht::nachricht_read(bytes, strict, rows)
}

// Writes rows over a text.
#[unsafe(no_mangle)]
pub extern "C" fn nachricht_write(rows: &[Row], text: &[u8], out: &mut [u8]) -> Answer
    ensures answer { result ≡ count_answer (counted (writing rows.now text.now (length out.old))) }
    ensures buffer { out.new ≡ stored out.old
        (writing rows.now text.now (length out.old)) }
{
    nachricht::nachricht_write(rows, text, out)
}

// Writes the canonical encoding of a bundle.
#[unsafe(no_mangle)]
pub extern "C" fn nachricht_canonicalize(bytes: &[u8], out: &mut [u8]) -> Answer
    ensures answer { result ≡ count_answer (counted (canonicalizing bytes.now (length out.old))) }
    ensures buffer { out.new ≡ stored out.old
        (canonicalizing bytes.now (length out.old)) }
{
    nachricht::nachricht_canonicalize(bytes, out)
}

// Joins two bundles.
#[unsafe(no_mangle)]
pub extern "C" fn nachricht_join<'a>(first: &'a [u8], second: &'a [u8], out: &mut [u8]) -> Answer
    ensures answer { result ≡ count_answer
        (counted (joining lenient first.now second.now (length out.old))) }
    ensures buffer { out.new ≡ stored out.old
        (joining lenient first.now second.now (length out.old)) }
{
    nachricht::nachricht_join(first, second, out)
}

// Opens an envelope: the bundle's length. It begins after the length and the version, at offset 3.
#[unsafe(no_mangle)]
pub extern "C" fn nachricht_open(envelope: &[u8]) -> Answer
    ensures { result ≡ count_answer (counted (opening envelope.now)) }
{
    nachricht::nachricht_open(envelope)
}

// Writes the envelope of a bundle.
#[unsafe(no_mangle)]
pub extern "C" fn nachricht_close(bundle: &[u8], out: &mut [u8]) -> Answer
    ensures answer { result ≡ count_answer (counted (closing bundle.now (length out.old))) }
    ensures buffer { out.new ≡ stored out.old (closing bundle.now (length out.old)) }
{
    nachricht::nachricht_close(bundle, out)
}

// One row by its kind: rule 9, what it measures, and its content.
ghost use Rattle.std.specs.Prelude.{◌≡◌, true, false, [], ◌+◌, ◌≤◌, ◌<◌, ltb, length};
ghost use Rattle.format.specs.Kind as Kind;
ghost use Rattle.format.specs.Limits.{max_bytes, max_header};
ghost use Rattle.format.specs.Item.{has_content};
ghost use Rattle.format.specs.Canonical.{full};
ghost use Rattle.format.specs.Rows.{content_of};
ghost use Rattle.format.specs.Writing.{is_bad};
ghost use Rattle.rows.specs.Rules.{bad_number};

use format::{Header, Row};
use wire::header::{code_of, header_len};

// Four bytes have so many values.
#[derive(Clone, Copy)]
struct Bits;

impl Bits {
    const COUNT_32: u64 = u32::MAX as u64 + 1;
}

// Has a row of this kind content?
pub fn has_content(kind: u8) -> bool
    ensures { result ≡ has_content kind }
{
    if kind == Row::BYTES {
        return true;
    }
    Row::STRING <= kind
}

// Is a part not in the text? The sum is one of whole numbers.
pub fn outside(len: usize, start: usize, number: u64) -> bool
    ensures { result ≡ ltb len (start + number) }
{
    if len < start {
        return true;
    }
    ((len - start) as u64) < number
}

// A number that its kind may not have.
pub fn bad_number(kind: u8, number: u64) -> bool
    ensures { result ≡ bad_number kind number }
{
    // integers first, and the number before the kind: signs of integers cannot be foretold
    if Row::BYTES <= kind {
        if number != Header::NEGATIVE_ALIAS {
            return false;
        }
        return kind == Row::NEGATIVE;
    }
    if kind < Row::FLOAT32 {
        return 0 < number;
    }
    if kind == Row::FLOAT32 {
        return Bits::COUNT_32 <= number;
    }
    false
}

// The content of a row that has some.
pub fn content(text: &[u8], row: Row) -> &[u8]
    requires { (length text.now ≤ max_bytes) × (is_bad text.now row ≡ false) × (has_content row.kind ≡ true) }
    ensures { result.now ≡ content_of text.now row }
{
    let start = row.start;
    let end = start + row.number as usize;
    &text[start..end]
}

// The length of an item in full that has no content.
pub fn plain_len(kind: u8, number: u64) -> usize
    requires { kind ≤ Kind.container }
    ensures { (result ≡ length (full (record { kind = kind; number = number; content = [] }))) × (result ≤ max_header) }
{
    if Row::BYTES <= kind {
        return header_len(code_of(kind), number);
    }
    // the lead byte, and the float
    if kind == Row::FLOAT32 {
        return 5;
    }
    if kind == Row::FLOAT64 {
        return Header::MAX_SIZE;
    }
    1
}

// Rules of one item that reading and writing ask alike.
ghost use Rattle.std.specs.Prelude.{◌≡◌, not, ◌&&◌, eqb};
ghost use Rattle.format.specs.Kind as Kind;
ghost use Rattle.format.specs.Utf8.{utf8};

use format::Row;
use utf8::is_utf8;

// A key where a key was taken (1) and its value is due.
pub fn key_after_key(keyed: usize, kind: u8) -> bool
    ensures { result ≡ (eqb keyed 1 && eqb kind Kind.key) }
{
    keyed == 1 && kind == Row::KEY
}

// A string that is not UTF-8; bytes pass.
pub fn bad_text(string: bool, part: &[u8]) -> bool
    ensures { result ≡ (string && not (utf8 part.now)) }
{
    string && !is_utf8(part)
}

// UTF-8 of any text and of names: ASCII and short texts by less than the local rule.
ghost use Rattle.std.specs.Prelude.{◌≡◌, true};
ghost use Rattle.format.specs.Utf8.{utf8};

use crate::ascii::{Ends, ascii_ends, short_ascii};
use crate::bytewise::by_bytes;
use crate::local::{Window, long};

// Whether bytes are UTF-8, by the condensed rule.
pub fn is_utf8(s: &[u8]) -> bool
    ensures { result ≡ utf8 s.now }
{
    if s.len() <= Ends::MAX_SHORT && short_ascii(s) {
        return true;
    }
    if s.len() < Window::BLOCK_BYTES {
        return by_bytes(s);
    }
    long(s)
}

// The same for names, which are mostly short ASCII: small enough to be compiled into its caller.
pub fn is_utf8_name(s: &[u8]) -> bool
    ensures { result ≡ utf8 s.now }
{
    let n = s.len();
    if 16 <= n && n <= 32 && ascii_ends(s, 16) {
        return true;
    }
    is_utf8(s)
}

// What the header of an item in a bundle that reads says of it.
ghost use Rattle.std.specs.Prelude.{◌≡◌, ◌&&◌, List, ℕ, ◌≤◌, leb, ltb, eqb, length, Some};
ghost use Rattle.format.specs.Code as Code;
ghost use Rattle.format.specs.Limits.{fixed_sizes, max_header};
ghost use Rattle.format.specs.Header.{header, header_of};

use format::{Header, Row};
use wire::header::header_len;

// An integer or a container?
pub fn is_number(code: u8) -> bool
    ensures { result ≡ (leb Code.positive code && leb code Code.container) }
{
    if code < Header::POSITIVE {
        return false;
    }
    code <= Header::CONTAINER
}

// Null, true, false or a float?
pub fn is_fixed(code: u8, sz: u8) -> bool
    ensures { result ≡ (eqb code Code.binary && ltb sz fixed_sizes) }
{
    if code != Header::BINARY {
        return false;
    }
    sz < Row::BYTES
}

// The length of the shortest header in place of one that was read: one byte stays one byte.
pub fn shortest_len(h: Header) -> usize
    requires { (bs : List ℕ) × (Some h ≡ header_of bs) }
    ensures { (result ≡ length (header h.code h.payload)) × (result ≤ max_header) }
{
    let size = h.size;
    if size == 1 {
        return 1;
    }
    header_len(h.code, h.payload)
}

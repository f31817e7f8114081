// One item written at the start of a buffer; what is answered is how many bytes were written.
ghost use Rattle.std.specs.Prelude.{[], ◌++◌, ◌≤◌, ◌<◌, length};
ghost use Rattle.format.specs.Kind as Kind;
ghost use Rattle.format.specs.Canonical.{full};
ghost use Rattle.format.specs.Header.{header};
ghost use Rattle.wire.specs.Heads.{codes};
ghost use Rattle.wire.specs.Output.{Puts};
ghost use Rattle.encoder.specs.Plan.{referring};

use format::{Header, Row, SymbolTable};
use wire::output::{copy, put_header, put_number};

// How a name is to be written: an index, or in full, as a number of a table in fixed memory (`specs/Plan`).
#[derive(Clone, Copy)]
pub struct Reference;

impl Reference {
    // in place of an index: a name in full
    pub const FULL: u16 = SymbolTable::MAX_ENTRIES as u16;
}

// Null, true, false or a float.
pub fn put_fixed(out: &mut [u8], kind: u8, number: u64) -> usize
    requires { (kind < Kind.bytes) × (length (full (record { kind = kind; number = number; content = [] })) ≤ length out.old) }
    ensures { Puts (full (record { kind = kind; number = number; content = [] })) result out.old out.new }
{
    out[0] = kind;
    if kind == Row::FLOAT32 {
        return 1 + put_number(&mut out[1..], 4, number);
    }
    if kind == Row::FLOAT64 {
        return 1 + put_number(&mut out[1..], 8, number);
    }
    1
}

// A header and content.
pub fn put_sized(out: &mut [u8], code: u8, number: u64, part: &[u8]) -> usize
    requires { (code < codes) × (length (header code number ++ part.now) ≤ length out.old) }
    ensures { Puts (header code number ++ part.now) result out.old out.new }
{
    let n = put_header(out, code, number);
    n + copy(&mut out[n..], part)
}

// A name, by its reference or in full.
#[tactic(auto, using(crate::proofs::OutputLaws::by_reference, crate::proofs::OutputLaws::in_full))]
pub fn put_named(out: &mut [u8], refer: u16, code: u8, number: u64, part: &[u8]) -> usize
    requires { (code < codes) × (length (referring refer (header code number ++ part.now)) ≤ length out.old) }
    ensures { Puts (referring refer (header code number ++ part.now)) result out.old out.new }
{
    if refer < Reference::FULL {
        return put_header(out, Header::REFERENCE, refer as u64);
    }
    put_sized(out, code, number, part)
}

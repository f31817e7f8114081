// The two programs, by what they make of one envelope.
ghost use Rattle.std.specs.Prelude.{◌≡◌, ℕ, ◌≤◌, List, length, refl};
ghost use Rattle.format.specs.Limits.{max_bytes};
ghost use Rattle.format.specs.Envelope.{max_envelope};
ghost use Rattle.listed.specs.Text.{max_text};
ghost use Rattle.format.specs.Answer.{Answer};
ghost use Rattle.stream.specs.Run.{Filter, Makes};
ghost use Rattle.stream.specs.Laws.{Takes};
ghost use Rattle.runner.specs.Program.{listing_filter, output_capacity, tidy_filter};
ghost use Rattle.std.proofs.Common.{rules};
ghost use Rattle.listing.proofs.ListLaws as listing;
ghost use Rattle.tidy.proofs.TidyLaws as tidy;

use listed::Text;
use stream::Step;

// A filter that can be run over an input.
pub trait Program {
    // What it makes of an envelope.
    ghost filter: { Filter };

    ghost MAX_OUTPUT: { ℕ };

    // A buffer of so many bytes takes what is made of any envelope.
    const MAX_OUTPUT: usize;

    // Writes what is made of envelope k, which the bytes begin with.
    fn put(k: u64, bytes: &[u8], scratch: &mut [u8], out: &mut [u8]) -> Step
        requires { (length scratch.old ≡ max_bytes) × (filter.most ≤ length out.old) }
        ensures { Makes filter k bytes.now out.old result out.new };

    // What a step takes lies in the bytes.
    ghost inside: { Takes filter };

    ghost most: { MAX_OUTPUT ≡ filter.most };

    // It makes no more of an envelope than it says.
    ghost short: { (k : ℕ) (a : Answer (List ℕ)) → length (filter.output k a) ≤ filter.most };

    // The output's buffer takes that.
    ghost fits: { filter.most ≤ output_capacity };
}

// It prints the rows of each bundle.
#[derive(Clone, Copy, Debug, PartialEq, Eq)]
pub struct Listing;

impl Program for Listing {
    ghost filter = { listing_filter };

    ghost inside = { listing.inside };

    ghost short = { listing.short };

    ghost fits = { Prim.search rules };

    ghost most = { refl };

    ghost MAX_OUTPUT = { max_text };

    const MAX_OUTPUT: usize = Text::MAX_LEN;

    fn put(k: u64, bytes: &[u8], _scratch: &mut [u8], out: &mut [u8]) -> Step {
        listing::list(k, bytes, out)
    }
}

// It writes each bundle in the canonical encoding.
#[derive(Clone, Copy, Debug, PartialEq, Eq)]
pub struct Tidy;

impl Program for Tidy {
    ghost filter = { tidy_filter };

    ghost inside = { tidy.inside };

    ghost short = { tidy.short };

    ghost fits = { Prim.search rules };

    ghost most = { refl };

    ghost MAX_OUTPUT = { max_envelope };

    const MAX_OUTPUT: usize = envelope::MAX_BYTES;

    fn put(_k: u64, bytes: &[u8], scratch: &mut [u8], out: &mut [u8]) -> Step {
        tidy::tidy(bytes, scratch, out)
    }
}

// The joiner: two bundles to one, and one bundle to its canonical encoding.
#![tactic(auto)]

mod joining;
mod merging;

pub use joining::{canonicalize, join};

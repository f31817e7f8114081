// The canonical encoding of one item after another: what writing and joining have in common.
#![tactic(auto)]

pub mod fitting;
pub mod putting;

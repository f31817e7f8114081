// The run of a program over one input: what it makes of each envelope, turn by turn.
#![tactic(auto)]

mod program;
mod turns;

pub use program::{Listing, Program, Tidy};
pub use turns::run;

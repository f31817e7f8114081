// The programs `listing` and `tidy`: their command line, their inputs one after the other, and the exit status.
#![tactic(auto)]

mod about;
mod arguments;
mod entry;
mod line;
mod sources;

pub use about::Command;
pub use entry::start;
pub use runner::{Listing, Tidy};

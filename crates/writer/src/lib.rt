// The writer: rows judged and measured, then written in their canonical encoding.
#![tactic(auto)]

mod judging;
mod putting;
mod writing;

pub use writing::write;

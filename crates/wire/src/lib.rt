// The leaves: a header read, bytes compared, rules that reading and writing share, and headers and bytes written.
#![tactic(auto)]

pub mod bytes;
pub mod codes;
pub mod header;
pub mod output;
pub mod rules;

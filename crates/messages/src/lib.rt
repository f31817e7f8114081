// What the programs say on standard error.
#![tactic(auto)]

mod label;
mod refusal;

pub use label::{Label, put_label, put_unknown_option};
pub use refusal::{Refusal, put_refusal};

// Text in ASCII: words, and numbers in decimal.
#![tactic(auto)]

mod number;

pub use number::{Decimal, put_decimal, put_ended, put_labelled};

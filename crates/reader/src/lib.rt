// The reader: the fields of a container by recursion, `check` and `read`.
#![tactic(auto)]

mod checking;
mod fields;
mod fill;
mod reading;

pub use checking::{check, check_in};
pub use reading::{read, read_in};

// The text that `listing` prints for one envelope.
#![tactic(auto)]

mod line;
mod table;
mod text;

pub use text::{Printed, Text, put_bundle, put_envelope_error};

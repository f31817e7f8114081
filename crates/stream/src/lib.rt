// An input as a window that moves over its bytes, and standard output behind a buffer: fixed memory, pieces of any size.
#![tactic(auto)]

mod failure;
mod input;
mod output;
mod state;

pub use failure::{Failed, say};
pub use input::Window;
pub use output::put;
pub use state::{Action, Labels, Refused, Step, Stream};

// One row, judged by the rules of writing in their order, and measured.
#![tactic(auto)]

mod item;
mod name;
mod place;
mod row;
mod state;

pub use item::{content, has_content};
pub use name::Plan;
pub use row::step;
pub use state::State;

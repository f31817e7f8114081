// UTF-8 judged: of any text, and of names, which are short and mostly ASCII. And the place at which a text stops being
// good.
#![tactic(auto)]

mod ascii;
mod bytewise;
mod local;
mod text;

pub use bytewise::bad_at;
pub use text::{is_utf8, is_utf8_name};

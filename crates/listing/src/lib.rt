// What `listing` makes of one envelope: the text for it.
#![tactic(auto)]

mod step;

pub use step::list;

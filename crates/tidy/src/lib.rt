// What `tidy` makes of one envelope: it is opened, its bundle written canonically, and closed again.
#![tactic(auto)]

mod step;

pub use step::tidy;

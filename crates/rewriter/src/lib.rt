// A bundle that reads, item by item after those of another: measured, which plans how its names are written, and then written as planned.
#![tactic(auto)]

mod item;
pub mod measuring;
pub mod putting;

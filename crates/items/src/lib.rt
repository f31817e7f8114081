// One item of a bundle, judged by the rules of reading in their order.
#![tactic(auto)]

pub mod item;

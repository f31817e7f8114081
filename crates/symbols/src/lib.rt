// The symbol table in memory: packed entries, and names looked up by chains: in `lookup` for strict reading, in `Names` for
// writing and joining.
#![tactic(auto)]

pub mod entry;
pub mod lookup;
pub mod mark;
pub mod names;

// A list of nodes and members that stands in a store of words, whatever its kind.
#![tactic(auto)]

pub mod list;
pub mod nodes;

// The clauses of a node, an OR or an AND, by its long clause, whatever the mode.
#![tactic(auto)]

mod evaluate;
mod nodes;

pub use nodes::write_node;

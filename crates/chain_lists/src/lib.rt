// The lists whose nodes refer to the node of the time before or after: of kind 3 (carried, preferred), and of kind 11.
#![tactic(auto)]

mod carried;
mod gap_nodes;
mod or_chain;
mod precedence;
mod preferred;

pub use precedence::fill_precedence;
pub use preferred::fill_preferred;

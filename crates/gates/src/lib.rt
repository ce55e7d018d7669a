// The writers of a start, of kind 6's variable and of a unit.
#![tactic(auto)]

pub mod clauses;
pub mod units;

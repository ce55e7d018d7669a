// The clauses of an instance's formula, in the order of document 01.
#![tactic(auto)]

mod before;
mod formula;
mod lists;
mod part;
mod walk;

pub use formula::write_formula;

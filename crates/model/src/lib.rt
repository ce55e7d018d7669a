// Evaluating a model: whether every hard clause is true in it, how many of its bytes hold Y and S, and the weight of the soft
// clauses that it falsifies.
#![tactic(auto)]

mod operations;
mod size;
mod truth;

pub use operations::{evaluate, evaluate_read};

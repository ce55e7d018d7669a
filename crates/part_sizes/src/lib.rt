// The sizes of the constraints: each from a list that was filled, and the walk over all of them, in which the sizes of the formula
// and of its tail grow.
#![tactic(auto)]

mod size;
mod walk;

pub use size::constraint_size;
pub use walk::{Total, constraints_total};

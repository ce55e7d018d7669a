// Refusals 7 and 8 and the sizes of a file's formula: a walk over the tables and the constraints, whose counted lists are filled
// but not written.
#![tactic(auto)]

mod answer;
mod sized;
mod whole;

pub use answer::sizes;
pub use sized::{measure, measure_bound};
pub use whole::whole_size;

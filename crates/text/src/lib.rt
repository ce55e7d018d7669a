// The text for solvers, in the older "p wcnf" form.
#![tactic(auto)]

mod lines;
mod size;
mod write;

pub use size::text_size;
pub use write::text;

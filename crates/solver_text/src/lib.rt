// What a solver printed, read into a lent model, and the model decoded.
#![tactic(auto)]

mod handover;
mod operation;

pub use operation::solver_text;

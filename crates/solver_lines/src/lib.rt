// The lines of a solver's text, and the literals of its v lines noted in a store with a byte for each variable.
#![tactic(auto)]

mod line;
mod lines;
mod note;
mod words;

pub use line::Line;
pub use lines::read_lines;

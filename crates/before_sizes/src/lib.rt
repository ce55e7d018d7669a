// The sizes of what stands before the constraints.
#![tactic(auto)]

mod before;

pub use before::before_size;

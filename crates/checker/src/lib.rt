// The operation that checks a proof, at a bound or without the tail.
#![tactic(auto)]

mod answer;

pub use answer::check;

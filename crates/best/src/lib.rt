// Whether a model is the best: it is decoded, and a proof is checked at the bound one below its cost.
#![tactic(auto)]

mod answer;

pub use answer::best;

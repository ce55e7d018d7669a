// The steps of a proof, as they stand in its bytes: each is read whole. specs/ says what is read.
#![tactic(auto)]

pub mod step;

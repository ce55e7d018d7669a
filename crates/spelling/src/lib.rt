// The literals of a new clause are read from a proof, and made false. specs/ says what is read.
#![tactic(auto)]

pub mod literals;

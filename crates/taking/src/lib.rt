// A step of the proof is taken. The definitions stand in turns/specs.
#![tactic(auto)]

pub mod step;

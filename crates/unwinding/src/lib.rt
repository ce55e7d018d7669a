// The marks of a step are opened again. The definitions stand in turns/specs.
#![tactic(auto)]

pub mod opening;

// The literals of a clause are copied from a proof into the words. specs/ says what is copied.
#![tactic(auto)]

pub mod literals;

// What comes next in a check, by its phase. The definitions stand in turns/specs.
#![tactic(auto)]

pub mod next;

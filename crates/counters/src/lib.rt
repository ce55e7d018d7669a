// Counters: their cells and rows as clauses, by mode.
#![tactic(auto)]

pub mod cells;

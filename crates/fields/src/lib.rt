// The fields of a constraint of each kind, read by one table into a flat struct of numbers. A list stands in a store beside.
#![tactic(auto)]

mod field;
mod flat;
mod kind;
mod list;
mod read;
mod table;

pub use flat::Flat;
pub use kind::{KindName, kind_named};
pub use read::fields_at;
pub use table::Totals;

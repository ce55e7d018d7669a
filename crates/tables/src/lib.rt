// The tables of an instance: rows of 126 bytes, each a count and then as many members, for the resources of events and for
// time groups; beside them the durations of events.
#![tactic(auto)]

mod occurrences;
mod room;
mod row;
mod store;

pub use occurrences::count_members;
pub use room::{dated, with_groups};
pub use row::{row_len, row_member};
pub use store::{durations, group_rows, list, resource_rows, window_rows};

// The windows of a calendar as rows of the groups' table, after the time groups (order 6).
#![tactic(auto)]

mod groups;
mod row;
mod window;

pub use groups::all_groups_at;

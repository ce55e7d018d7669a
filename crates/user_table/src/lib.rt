// The table of the users of each resource.
#![tactic(auto)]

mod users;

pub use users::{fill_users, users_of};

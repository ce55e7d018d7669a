// The literals of the formula's lists, gathered from the tables of an instance into a lent slice of words. Each function that
// gathers answers how many literals there are; they stand at the front of the slice.
#![tactic(auto)]

mod events;
mod gate;
mod times;
mod variable;

pub use events::{s_spread, y_of_events};
pub use gate::outputs;
pub use times::{group_times, member_is, s_of_event, x_of_group, y_of_event};
pub use variable::{base, numbering};

// What marks the last word of a clause. sink::LAST is the same: neither crate may know the other.
pub const LAST: u32 = 2147483648;

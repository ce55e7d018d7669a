// A calendar of seven days, each of up to 24 periods (order 6): read once to know how many times it has, with refusal 22, and once
// more into an array when its windows are to be shown.
#![tactic(auto)]

mod calendar;
mod days;
mod period;

pub use calendar::times_at;
pub use days::{Period, calendar_of};
pub use period::limited_in;

// What a timetable is: refusals 10 to 12.
#![tactic(auto)]

pub mod bytes;
pub mod check;

// The score of bytes that are a timetable of an accepted file: each resource's uses are counted once, then each constraint is
// decoded once and charged.
#![tactic(auto)]

mod scored;
mod walk;

pub use scored::score_of;
pub use walk::Score;

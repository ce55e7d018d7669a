// Scoring a timetable, and whether two timetables are the same sheet.
#![tactic(auto)]

mod operations;

pub use operations::{same_sheet, score};

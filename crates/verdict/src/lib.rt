// What is answered of one or two lent timetables once the file is read: refusals 10 to 12, the score, the same sheet.
#![tactic(auto)]

mod judged;
mod same;
mod scored;

pub use same::same_read;
pub use scored::score_read;

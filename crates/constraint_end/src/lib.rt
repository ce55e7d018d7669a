// A constraint as it stands in the file, checked at its end: the length of its counted list (4), whether its two events are one (19),
// its bounds and the order of its lengths or of its gap's bounds (5).
#![tactic(auto)]

mod by_kind;
mod check;
mod clash;
mod end;
mod fault;
mod group;
mod idle;
mod spread;

pub use check::checked_at;

// The deviation of a constraint of each kind, by counts over the bytes of a timetable (Y and S) and over two tables of its own:
// how often each resource is used at each time, and whether it is (X).
#![tactic(auto)]

mod busy;
mod by_kind;
mod charge;
mod clash;
mod cluster;
mod distribute;
mod group;
mod idle;
mod lengths;
mod precedence;
mod preferred;
mod rows;
mod split;
mod spread;
mod subevents;
mod unavailable;

pub use by_kind::deviation_of;

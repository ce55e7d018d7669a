// The constraints of an instance. They stay in the file, and are decoded one at a time: into a flat struct of numbers, and into a
// kind with its fields.
#![tactic(auto)]

mod busy;
mod by_kind;
mod clash;
mod cluster;
mod distribute;
mod flat;
mod idle;
mod kinds;
mod lengths;
mod next;
mod over_groups;
mod precedence;
mod preferred;
mod split;
mod spread;
mod unavailable;

pub use busy::Busy;
pub use clash::Clash;
pub use distribute::Distribute;
pub use flat::{FlatConstraint, flat_at};
pub use kinds::{Bounds, Constraint, Head, Kind, bounds_of};
pub use lengths::Lengths;
pub use next::constraint_at;
pub use over_groups::OverGroups;
pub use precedence::Precedence;
pub use preferred::Preferred;
pub use split::Split;
pub use spread::Spread;
pub use unavailable::Unavailable;

// The lists of the kinds that count outputs of nodes, a file for each kind.
#![tactic(auto)]

mod cluster;
mod distribute;
mod going_on;
mod idle;
mod lengths;

pub use cluster::fill_cluster;
pub use distribute::fill_distribute;
pub use idle::fill_idle;
pub use lengths::fill_lengths;

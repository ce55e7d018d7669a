// The lists of the kinds that have no nodes, a file for each kind.
#![tactic(auto)]

mod busy;
mod clash;
mod split;
mod spread;
mod unavailable;

pub use busy::fill_busy;
pub use clash::fill_clash;
pub use split::fill_split;
pub use spread::fill_spread;
pub use unavailable::fill_unavailable;

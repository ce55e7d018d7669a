// The blocks of the formula before its constraints: starts, uses, durations.
#![tactic(auto)]

mod durations;
mod starts;
mod uses;

pub use durations::write_durations;
pub use starts::write_starts;
pub use uses::write_uses;

// The model that a solver's text gives, filled into a store.
#![tactic(auto)]

mod filling;
mod settling;

pub use filling::fill;

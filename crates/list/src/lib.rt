// A constraint's counted lists, filled into a lent store of words: the nodes one after another, and after the nodes the members.
#![tactic(auto)]

mod by_kind;

pub use by_kind::{fill, lists};

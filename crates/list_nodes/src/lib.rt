// What a filled list has, and its nodes: each a head word with the number of its inputs, then its long clause.
#![tactic(auto)]

mod filled;
mod node;
mod run;

pub use filled::{Filled, plain};
pub use node::{store_either, store_group, store_idling, store_neither, store_or, store_words};
pub use run::{store_all, store_none, store_run, store_some, store_until, store_with};

// A word of a solver's v line: a literal, the closing 0, or neither.
#![tactic(auto)]

mod numeral;
mod word;

pub use word::{Word, word_at};

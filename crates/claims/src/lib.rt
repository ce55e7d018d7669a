// What a proof is to show, and the formula of such a claim in the lent words: its sizes (7 to 9), its clauses, its tail.
#![tactic(auto)]

mod bounded;
pub mod claim;
pub mod prepare;
mod rows;

// The run of a check: what a proof's bytes show of the clauses that stand in the lent stores, turn by turn. specs/ says what the
// run is; what it means is shown in the crate run_meaning.
#![tactic(auto)]

mod deleting;
pub mod drive;

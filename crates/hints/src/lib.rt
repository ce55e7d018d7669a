// The machine that judges a proof, id by id. specs/ says what each turn makes of it.
#![tactic(auto)]

pub mod machine;

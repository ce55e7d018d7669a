// The numbers of a proof up to a 0 are passed over. specs/ says where they end.
#![tactic(auto)]

pub mod numbers;

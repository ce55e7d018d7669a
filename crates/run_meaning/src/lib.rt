// What the run of a check means: its answer is the plain run's answer for the formula that stands in the stores. All of it stands
// in proofs/laws, with no code in it.
#![tactic(auto)]

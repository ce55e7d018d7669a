// What is read of a proof, and copied, in terms of the definitions: its numbers, its steps, its literals. proofs/laws shows it; there is no
// code here.
#![tactic(auto)]

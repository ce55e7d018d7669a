// What is proved of the definitions in the crate scope, with no code in it. Laws stand in proofs/laws; laws.antt lists the files
// in reading order, and Demands.antt ends them.
#![tactic(auto)]

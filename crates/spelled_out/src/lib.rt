// A file with windows and the same file with its groups spelled out: they are read as the same instance. All of it stands in proofs/laws.
#![tactic(auto)]

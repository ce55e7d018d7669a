// What a solver prints: a text for each model that reads back as that model, and what is read is a model. All of it stands in proofs/laws.
#![tactic(auto)]

// The formula of an accepted file has fewer than 2^32 words, and so the rows of its clauses are exact. All of it stands in proofs/.
#![tactic(auto)]

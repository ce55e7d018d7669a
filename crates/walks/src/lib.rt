// What proofs by hand share, statement by statement: locals, slices that are opened or lent, calls. All of it stands in proofs/.
#![tactic(auto)]

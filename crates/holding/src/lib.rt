// What words and rows hold between two steps of a check: the live clauses by their ids, rows in order, good literals; and that
// it holds once a directory was built. All of it stands in proofs/laws.
#![tactic(auto)]

// That the sizes by arithmetic are those of a formula's items: of gates, counters, counted lists, rules, and the formula as a whole
// with its tail. Sizes of items are said in specs/, laws stand in proofs/laws; there is no code.
#![tactic(auto)]

// Demands 2 and 3 of the C functions: what a call that returns 0 says of timetables. All of it stands in proofs/laws.
#![tactic(auto)]

// Which numbers the refusals of each operation have is shown in proofs/laws/Numbers.antt; there is no code.
#![tactic(auto)]

// What each call of an operation leaves behind is said in specs/Operations.antt; there is no code.
#![tactic(auto)]

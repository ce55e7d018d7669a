// A check between two walks over ids: what is counted, the clause at hand, and what each step does to them. specs/ says what.
#![tactic(auto)]

pub mod check;

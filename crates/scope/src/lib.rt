// What the operations answer. specs/ has the definitions that a reader of document 01 must believe; specs/Answers.antt says
// which number and values of document 01 an answer stands for.
#![tactic(auto)]

mod refusal;

pub use refusal::{Reason, Refusal};

// A value that was read, and the offset after it; or a refusal.
pub type Parsed<T> = Result<(T, usize), Refusal>;

// The deviations of hard constraints, summed.
#[derive(Clone, Copy)]
pub struct Infeasibility(pub u64);

// The cost: the sum of weight times deviation of the other constraints. It is never added to an infeasibility.
#[derive(Clone, Copy)]
pub struct Objective(pub u64);

// The numbering of a formula's variables: the last variable before those of S, before the first gate's output, before those of
// X, and before what the rules add. Y comes first. Y, S and X stand in rows of one variable for each time.
#[derive(Clone, Copy)]
pub struct Layout {
    pub starts: u32,
    pub primary: u32,
    pub uses: u32,
    pub others: u32,
}

// What an accepted instance has.
#[derive(Clone, Copy)]
pub struct InstanceSize {
    pub times: u32,
    pub events: u32,
    pub resources: u32,
    pub groups: u32,
    pub constraints: u32,
}

// What a formula needs of a store: a byte for each variable, a row for each clause, a word for each literal.
#[derive(Clone, Copy)]
pub struct FormulaSize {
    pub variables: u64,
    pub clauses: u64,
    pub words: u64,
}

// What a walk over a group's members keeps from one to the next: how many are idle so far, how many without X have come since the
// last with X, and whether one had X.
#[derive(Clone, Copy)]
pub struct Kept {
    pub idle: u64,
    pub since: u64,
    pub seen: bool,
}

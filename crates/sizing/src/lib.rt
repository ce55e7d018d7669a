// The sizes of a formula by arithmetic, with no walk over its clauses: variables, hard clauses, words, soft units and the
// sum of their weights. Crate measuring ties each size to the items that it stands for.
#![tactic(auto)]

pub mod blocks;
pub mod counts;
pub mod nodes;
pub mod rows;
pub mod sums;

// Variables, hard clauses, words (literals of hard clauses), soft units, and the sum of the soft units' weights.
#[derive(Clone, Copy)]
pub struct Size {
    pub variables: u64,
    pub clauses: u64,
    pub words: u64,
    pub units: u64,
    pub weight: u64,
}

//! What the solver tells.

use dual_check::Duals;
use flow_facts::BoundWord;

/// How the run ended.
#[derive(Drop)]
pub enum SolveEnd {
    /// No right side is negative: the greatest point, a numerator and a denominator for each column.
    Least(Vec<(i128, i128)>),
    /// Some number of this pivot, counted from 1 after the opening, has more than 128 bits.
    Wide(u32),
    /// All pivots were made, and a right side is still negative.
    Pivots,
}

/// The multipliers, and how the run ended.
#[derive(Drop)]
pub struct Solved {
    /// The multipliers of the last tableau.
    pub duals: Duals,
    /// How the run ended.
    pub end: SolveEnd,
}

/// A path bound, and what shows it.
#[derive(Drop)]
pub struct PathBound {
    /// No run that meets the facts costs more.
    pub value: u64,
    /// How the run ended.
    pub word: BoundWord,
    /// The multipliers of the last tableau. The value is theirs, rounded down.
    pub duals: Duals,
}

//! What an exploration tells of ends.

use abstract_memory::AMem;

/// What an exploration tells of the ends of runs.
#[derive(Drop)]
pub enum Ends<'a> {
    /// No place was left. The memory stands for what each run that ends leaves; None where no run ends.
    All(Option<AMem<'a>>),
    /// The turns were used up. The first place that was left stands in this scope.
    Unbounded(u32),
}

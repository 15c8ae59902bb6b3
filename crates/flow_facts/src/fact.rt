//! Facts.

/// A fault that a run may end with, as a fact names it.
pub use alf_ops::RunFault as RunKind;

/// What is said of every run. Scopes and nodes are named by their numbers; where there are two
/// counts, the least stands before the greatest.
#[derive(Clone, Copy, Debug, PartialEq, Eq, Drop)]
pub enum Fact {
    /// Each execution of the scope visits its header so often.
    Loop(u32, u32, u32),
    /// Each execution of the scope has the node so often.
    Count(u32, u32, u32, u32),
    /// The node never occurs.
    Dead(u32),
    /// The node occurs so often in a run.
    Total(u32, u32, u32),
    /// No iteration of the scope has both nodes.
    Pair(u32, u32, u32),
    /// A run may end at the node with this fault. It demands nothing of a run.
    Alarm(u32, RunKind),
}

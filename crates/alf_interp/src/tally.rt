//! What is counted of a run.

use crate::moved::Outputs;
use alf_ops::RunFault;

/// How a run ends.
#[derive(Drop)]
pub enum RunEnd {
    /// The root returned, and these are the outputs.
    Returned(Outputs),
    /// With this fault.
    Faulted(RunFault),
}

/// What is counted of a run that is over. Nodes are told by their numbers.
#[derive(Drop)]
pub struct Tally {
    /// For each node how often the run stands there.
    pub counts: Vec<u32>,
    /// How many nodes the run has.
    pub turns: u32,
    /// What the nodes of the run cost together.
    pub cost: u64,
    /// The last node, at which the run ends or faults.
    pub last: u32,
    pub end: RunEnd,
}

/// The one run, as far as it was made.
#[derive(Drop)]
pub enum Counted {
    /// It is over.
    Over(Tally),
    /// It has more nodes than the turns. This is the node that comes after so many.
    Left(u32),
}

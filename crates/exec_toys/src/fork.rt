//! Forks of a flow chart.

use alf_ops::RunFault;

/// How a number goes on.
#[derive(Clone, Copy, Debug, PartialEq, Eq, Drop)]
pub enum Way {
    /// To this node, and it is so much less. The number of nodes stands for the end of the run.
    Goes(u32, u32),
    /// The run ends with this fault.
    Fails(RunFault),
}

/// What is done at a node: numbers below the limit go one way, and all others another way.
#[derive(Clone, Copy, Debug, PartialEq, Eq, Drop)]
pub struct Fork {
    pub limit: u32,
    pub below: Way,
    pub above: Way,
}

//! What is told of a step.

use alf_ops::{RunFault, Value};

/// What a run gives at its end: the value that the root returned, if any, and for each exported frame in
/// order what it holds as a whole, or none where its load would fault.
#[derive(Drop)]
pub struct Outputs {
    pub returned: Option<Value>,
    pub globals: Vec<Option<Value>>,
}

/// Where a step led.
#[derive(Drop)]
pub enum Moved {
    /// To the node of this number.
    To(u32),
    /// To the end of the run, with its outputs.
    Ended(Outputs),
    /// To the end of the run, with this fault at the node where the machine stood.
    Faulted(RunFault),
}

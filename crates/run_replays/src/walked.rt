//! Runs that were made.

use alf_ops::RunFault;
use domain_core::Recorder;
use flow_gathering::FourRecorders;

/// The books of the four recorders.
pub type FourBooks = <FourRecorders as Recorder>::Book;

/// A run that is over: the book that has it, what it cost, its last node, and its fault if it had one.
#[derive(Drop)]
pub struct RunBook<B> {
    pub book: B,
    pub cost: u64,
    pub last: u32,
    pub fault: Option<RunFault>,
}

/// How a run went.
#[derive(Drop)]
pub enum Walked<B> {
    /// It came to this node, which may not be there as often.
    Passed(u32),
    /// It is over.
    Over(RunBook<B>),
}

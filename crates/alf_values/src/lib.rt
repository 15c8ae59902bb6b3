//! What the memory of a run holds, for every history that it stands for.
//!
//! `Frames` keep each byte of each frame of a checked program. They stand for a history where the
//! same frames are active and each byte of an active frame holds what the history left there.
//! `enter`, `leave` and `store` carry every such history one event on, and `load` answers the load of
//! each of them. What a load gives after a history is defined in `alf_ops`, apart from all bytes that
//! are kept here.
#![tactic(auto)]

// One byte, and why a store is refused.
mod bytes;
mod fault;

// The bytes of one frame, and the frames of a program.
mod cells;
mod slots;

// The memory of a run.
mod memory;

// What the definitions promise.
mod laws;

pub use bytes::Content;
pub use fault::ValueFault;
pub use laws::bytes_that_stand_give_each_load;
pub use memory::Frames;

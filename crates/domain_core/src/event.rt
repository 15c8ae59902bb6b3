//! Events of an exploration.

/// What may be done to a pool of places, which are numbered from 0.
#[derive(Clone, Copy, Debug, PartialEq, Eq, Drop)]
pub enum Event {
    /// The place is replaced by the successors of its state.
    Step(u32),
    /// The first place becomes the join of both, and the second is removed.
    Merge(u32, u32),
}

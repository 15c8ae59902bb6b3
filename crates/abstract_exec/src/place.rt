//! Places.

use smallvec::SmallVec;
use std::marker::Model;
use worklist::Keyed;

/// A position, in place where it has at most four numbers, as that of a node in no loop, which has three.
pub type Position = SmallVec<u32, 4>;

/// A place of a pool. Its key is its position.
#[derive(Drop)]
pub struct Place<T, R> {
    pub node: u32,
    pub position: Position,
    pub state: T,
    pub recorder: R,
}

impl<T, R> Model for Place<T, R> {
    ghost use Rattle.worklist_rules.specs.Pools.{Spot};

    ghost Value = { Spot T R };

    ghost view = { λ place. record { node = place.node; position = place.position.items; state = place.state; recorder = place.recorder } };
}

impl<T, R> Keyed for Place<T, R> {
    ghost key_of = { λ place. place.position };

    fn key(&self) -> &[u32] {
        &self.position
    }
}

//! Places of statements, and marks of assignments.

use c_unit::Binary;

/// Where a statement stands.
#[derive(Clone, Copy, Debug, PartialEq, Eq)]
pub enum Standing {
    /// As a part of another statement.
    Part,
    /// In a block, where declarations stand too.
    Item,
    /// In the block of a switch, where labels stand too.
    SwitchItem,
    /// As the block of a switch.
    SwitchBlock,
}

/// What stands after what is assigned to or stepped.
#[derive(Clone, Copy, Debug, PartialEq, Eq)]
pub enum Assigning {
    Assign,
    Update(Binary),
    Step(bool),
}

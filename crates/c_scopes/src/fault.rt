//! Faults of a unit, as code tells them.

/// What is wrong in a unit, by the number of a token.
#[derive(Clone, Copy, Debug, PartialEq, Eq)]
pub enum Fault {
    /// The name at the token is not known there.
    Unknown(u32),
    /// The name at the token is declared or defined there, and was before.
    Duplicate(u32),
    /// The smallest part that is wrong begins with the token.
    Mistyped(u32),
}

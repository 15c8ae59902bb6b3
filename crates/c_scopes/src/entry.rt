//! What names are bound to.

use c_unit::{Integer, Outcome, Scalar};

/// What a name is bound to.
#[derive(Drop)]
pub enum Bound {
    /// A variable, with its type.
    Variable(Scalar),
    /// An array, with the type of its elements.
    Array(Integer),
    /// A function: what it gives, and the types of its parameters.
    Function(Outcome, Vec<Scalar>),
}

/// A name in a scope: the token that declares it, by which its object is known, and what it is bound to.
#[derive(Drop)]
pub struct Entry {
    pub token: u32,
    pub bound: Bound,
}

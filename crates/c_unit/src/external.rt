use crate::statement::Stmt;
use crate::types::{Constant, Integer, Outcome, Scalar};

/// A parameter: its first token, its type, and its name. A parameter `T x[]` is a pointer.
#[derive(Drop)]
pub struct Parameter {
    pub first: u32,
    pub kind: Scalar,
    pub name: Option<u32>,
}

/// What a name at file level is.
#[derive(Drop)]
pub enum Shape {
    /// An integer, and what it holds at first.
    Integer(Option<Constant>),
    /// An array: its size, and what its first elements hold at first.
    Array(u32, Option<Vec<Constant>>),
    /// A function, with its parameters.
    Function(Vec<Parameter>),
}

/// A name that is declared at file level.
#[derive(Drop)]
pub struct Declarator {
    pub name: u32,
    pub shape: Shape,
}

/// What stands at file level.
#[derive(Drop)]
pub enum External {
    /// A declaration: its first token, the type, and what is declared.
    Declare(u32, Outcome, Vec<Declarator>),
    /// A function: its first token, what it gives, its name, its parameters, and its block.
    Define(u32, Outcome, u32, Vec<Parameter>, Vec<Stmt>),
}

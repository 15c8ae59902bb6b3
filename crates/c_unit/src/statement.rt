use crate::expression::{Binary, Expr};
use crate::types::{Constant, Integer};

/// A call: the name of the function, and the arguments.
#[derive(Drop)]
pub struct Call {
    pub name: u32,
    pub arguments: Vec<Expr>,
}

/// What is assigned with `=`, what a local holds at first, or what is returned.
#[derive(Drop)]
pub enum Value {
    Expr(Expr),
    Call(Call),
}

/// What a statement or a part of a `for` does.
#[derive(Drop)]
pub enum Effect {
    /// What is assigned to, the token, and the value.
    Assign(Expr, u32, Value),
    /// What is assigned to, the operator before the `=`, the token, and the other operand.
    Update(Expr, Binary, u32, Expr),
    /// The operand of `++`, where `up` is true, or of `--`, and the token. It stands before the operand, or after it.
    Step(Expr, bool, u32),
    Call(Call),
}

/// What a local is.
#[derive(Drop)]
pub enum LocalShape {
    /// An integer, and what it holds at first.
    Integer(Option<Value>),
    /// A pointer, and what it holds at first.
    Pointer(Option<Value>),
    /// An array: its size, and what its first elements hold at first.
    Array(u32, Option<Vec<Constant>>),
}

/// A local that is declared.
#[derive(Drop)]
pub struct Local {
    pub name: u32,
    pub shape: LocalShape,
}

/// What stands in a block. A statement of one word has the number of its token.
#[derive(Drop)]
pub enum Stmt {
    /// A semicolon alone.
    Empty(u32),
    /// A declaration: its first token, the type, and what is declared.
    Declare(u32, Integer, Vec<Local>),
    Block(Vec<Stmt>),
    /// The condition, what is done where it holds, and what is done otherwise.
    If(Expr, Box<Stmt>, Option<Box<Stmt>>),
    While(Expr, Box<Stmt>),
    Do(Box<Stmt>, Expr),
    /// What is done first, the condition, what is done after each turn, and what is done in each.
    For(Option<Box<Stmt>>, Option<Expr>, Option<Effect>, Box<Stmt>),
    /// The value, and what stands in the block.
    Switch(Expr, Vec<Stmt>),
    /// A label of a switch, and its constant.
    Case(u32, Constant),
    Default(u32),
    Break(u32),
    Continue(u32),
    Return(u32, Option<Value>),
    Effect(Effect),
}

//! What a checked program is made of.

use alf_ops::Op;
use alf_program::Num;
use flow_base::Name;

/// A frame: the number of the function that has it, or none where it is global, its name, and its
/// size in bits.
#[derive(Drop)]
pub struct FrameRow {
    pub owner: Option<u32>,
    pub name: Name,
    pub bits: u32,
}

/// An expression.
#[derive(Drop)]
pub enum Term {
    Num(Num),
    /// The address of a frame's byte: the frame's number and the offset.
    Addr(u32, u32),
    /// A load of so many bits from an address.
    Load(u32, Box<Term>),
    /// An operator, the sizes that are written after it, and its operands in order.
    Apply(Op, Vec<u32>, Vec<Term>),
}

/// A statement that control goes through.
#[derive(Drop)]
pub enum Act {
    Null,
    /// A store to an address, of a value.
    Store(Term, Term),
}

/// How a block ends. A block is told by its number in its function.
#[derive(Drop)]
pub enum BlockEnd {
    /// On to the next block, since a label follows or nothing.
    Fall(u32),
    Jump(u32),
    /// A switch on a value: its targets in order, each with its number, and the block of every
    /// other value.
    Switch(Term, Vec<(u64, u32)>, u32),
    /// A call of a function with arguments, then the frame and the offset of its result, and the
    /// block after it.
    Call {
        func: u32,
        args: Vec<Term>,
        result: Option<(u32, u32)>,
        next: u32,
    },
    Return(Option<Term>),
}

/// Statements that follow one another, and what comes after them.
#[derive(Drop)]
pub struct Block {
    pub stmts: Vec<Act>,
    pub end: BlockEnd,
}

/// What a frame holds at first: the frame, the offset and the number.
#[derive(Clone, Copy)]
pub struct InitRow {
    pub frame: u32,
    pub offset: u32,
    pub num: Num,
}

/// A cell whose word a run is given: the frame, the offset in bytes and the size in bits, and the
/// least and the greatest number that the word may stand for.
#[derive(Clone, Copy, Debug, PartialEq, Eq)]
pub struct InputRow {
    pub frame: u32,
    pub offset: u32,
    pub size: u32,
    pub low: i128,
    pub high: i128,
}

/// A function: its name, the frames of its arguments, all its frames with those first, and what they
/// hold at first.
#[derive(Drop)]
pub struct FuncRow {
    pub name: Name,
    pub args: Vec<u32>,
    pub frames: Vec<u32>,
    pub inits: Vec<InitRow>,
}

/// A function with its blocks.
#[derive(Drop)]
pub struct FuncParts {
    pub row: FuncRow,
    pub blocks: Vec<Block>,
}

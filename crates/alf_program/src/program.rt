use alf_ops::Op;
use arrayvec::ArrayVec;
use flow_base::Name;

/// A number as it is written: whether with a sign, its size in bits, and its word.
///
/// A negative number is held by its bits in two's complement.
#[derive(Clone, Copy, Debug, PartialEq, Eq)]
pub struct Num {
    pub signed: bool,
    pub size: u32,
    pub bits: u64,
}

/// The sizes that are written after an operator. No operator has more.
pub type Sizes = ArrayVec<u32, 3>;

/// An expression.
#[derive(Drop)]
pub enum Expr {
    Num(Num),
    /// The address of a frame's byte: the frame and the offset.
    Addr(Name, u32),
    /// A load of so many bits from an address.
    Load(u32, Box<Expr>),
    /// An operator, the sizes that are written after it, and its operands in order.
    Apply(Op, Sizes, Vec<Expr>),
}

/// A statement.
#[derive(Drop)]
pub enum Stmt {
    Null,
    /// A store to an address, of a value.
    Store(Expr, Expr),
    Jump(Name),
    /// A switch on a value: its targets in order, and the label of every other value.
    Switch(Expr, Vec<(Num, Name)>, Name),
    /// A call of a function with arguments, and the frame and offset of its result.
    Call(Name, Vec<Expr>, Option<(Name, u32)>),
    Return(Option<Expr>),
}

/// What stands in the list of a function's statements.
#[derive(Drop)]
pub enum Item {
    Label(Name),
    Stmt(Stmt),
}

/// A frame and its size in bits.
#[derive(Drop)]
pub struct Alloc {
    pub name: Name,
    pub bits: u32,
}

/// What a frame holds at first: the frame, the offset and the number.
#[derive(Drop)]
pub struct Init {
    pub name: Name,
    pub offset: u32,
    pub num: Num,
}

/// A function.
#[derive(Drop)]
pub struct Func {
    pub name: Name,
    pub args: Vec<Alloc>,
    pub decls: Vec<Alloc>,
    pub inits: Vec<Init>,
    pub items: Vec<Item>,
}

/// A program: the frames and labels that it exports, its global frames, what these hold at first,
/// and its functions.
#[derive(Drop)]
pub struct Program {
    pub exports: Vec<Name>,
    pub labels: Vec<Name>,
    pub decls: Vec<Alloc>,
    pub inits: Vec<Init>,
    pub funcs: Vec<Func>,
}

ghost use Rattle.std.specs.Prelude.{◌≡◌, nat_le};
ghost use Rattle.c_unit.specs.Tree.{expression_of};
ghost use Rattle.c_unit.specs.Measures.{first_of, depth_of};

use crate::types::Scalar;

/// An operator before its operand.
#[derive(Clone, Copy, Debug, PartialEq, Eq)]
pub enum Unary {
    Not,
    Complement,
    Minus,
    Plus,
    /// What a pointer leads to.
    Load,
    Address,
}

/// An operator between its operands.
#[derive(Clone, Copy, Debug, PartialEq, Eq)]
pub enum Binary {
    Multiply,
    Divide,
    Remainder,
    Add,
    Subtract,
    ShiftLeft,
    ShiftRight,
    Less,
    Greater,
    AtMost,
    AtLeast,
    Equal,
    Unequal,
    And,
    Xor,
    Or,
    /// `&&`, which stands in conditions alone.
    Both,
    /// `||`, which stands in conditions alone.
    Either,
}

/// An expression, with the numbers of its tokens.
#[derive(Drop)]
pub enum Expr {
    Constant(u32),
    Name(u32),
    /// What stands between parentheses; the number is that of the first.
    Parentheses(u32, Box<Expr>),
    /// An operator, its token and its operand.
    Unary(Unary, u32, Box<Expr>),
    /// The parenthesis before the type, the type and the operand.
    Cast(u32, Scalar, Box<Expr>),
    /// The base, the bracket and the index.
    Index(Box<Expr>, u32, Box<Expr>),
    /// An operator, its token and its operands.
    Binary(Binary, u32, Box<Expr>, Box<Expr>),
}

impl Expr {
    /// The number of the first token. Takes no memory, and goes as deep as the expression.
    pub fn first(&self) -> u32
        ensures { result ≡ first_of (expression_of self.now) }
    {
        match self {
            Expr::Constant(token) | Expr::Name(token) => *token,
            Expr::Parentheses(token, _) | Expr::Unary(_, token, _) | Expr::Cast(token, _, _) => {
                *token
            }
            Expr::Index(base, _, _) => base.first(),
            Expr::Binary(_, _, left, _) => left.first(),
        }
    }

    /// Whether at most so many operators are nested in one another. Takes no memory, and goes as
    /// deep as the expression.
    pub fn is_within(&self, most: u32) -> bool
        ensures { result ≡ nat_le (depth_of (expression_of self.now)) most }
    {
        match self {
            Expr::Constant(_) | Expr::Name(_) => true,
            Expr::Parentheses(_, inner) => inner.is_within(most),
            Expr::Unary(_, _, operand) | Expr::Cast(_, _, operand) => {
                0 < most && operand.is_within(most - 1)
            }
            Expr::Index(left, _, right) | Expr::Binary(_, _, left, right) => {
                0 < most && left.is_within(most - 1) && right.is_within(most - 1)
            }
        }
    }
}

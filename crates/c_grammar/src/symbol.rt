//! Symbols: what a token is to the grammar.

ghost use Rattle.std.specs.Prelude.{◌≡◌};
ghost use Rattle.c_grammar.specs.Symbols.{constant_symbol, symbol_of, lead_of, starts_type, is_specifier};

use crate::marks::mark_symbol;
use crate::words::word_symbol;
use c_tokens::{Kind, Worth, worth_of};
use c_unit::{Binary, Unary};

/// A word of a type.
#[derive(Clone, Copy, Debug, PartialEq, Eq)]
pub enum TypeWord {
    Void,
    Char,
    Short,
    Int,
    Signed,
    Unsigned,
}

/// What a token is to the grammar. Single marks and keywords are told apart by their texts.
#[derive(Clone, Copy, Debug, PartialEq, Eq)]
pub enum Symbol {
    /// A name of at most 28 bytes.
    Name,
    /// A constant, and its value.
    Constant(u32),
    Type(TypeWord),
    Const,
    Static,
    /// An operator that may stand between two operands.
    Operator(Binary),
    /// `!` or `~`.
    Prefix(Unary),
    /// `++` or `--`.
    Step(bool),
    /// `=`.
    Assign,
    /// An operator with `=`, as `+=`.
    Update(Binary),
    OpenParen,
    OpenBracket,
    OpenBrace,
    CloseBracket,
    Semicolon,
    CloseParen,
    Comma,
    /// `case` or `default`.
    Label,
    /// The first word of a statement.
    Statement,
    /// `}`, `:` or `else`.
    Closing,
    /// A keyword or a mark that has no place in the profile, or a name of more than 28 bytes.
    Unplaced,
    /// A number that is too large.
    TooLarge,
    /// None of the tokens of the profile or of C.
    NoSymbol,
}

/// How an operand begins.
#[derive(Clone, Copy, Debug, PartialEq, Eq)]
pub enum Lead {
    Name,
    Constant,
    Paren,
    Prefix(Unary),
}

fn constant_symbol(worth: Worth) -> Symbol
    ensures { result ≡ constant_symbol worth }
{
    match worth {
        Worth::NoConstant => Symbol::NoSymbol,
        Worth::TooLarge => Symbol::TooLarge,
        Worth::Int(value) => Symbol::Constant(value),
        Worth::UnsignedInt(value) => Symbol::Constant(value),
    }
}

/// What a token of this kind and text is. Takes no memory, and goes over the text a fixed number of times.
pub fn symbol_of(kind: Kind, text: &[u8]) -> Symbol
    ensures { result ≡ symbol_of kind text.now }
{
    match kind {
        Kind::Identifier => word_symbol(text),
        Kind::Number => constant_symbol(worth_of(kind, text)),
        Kind::Character => constant_symbol(worth_of(kind, text)),
        Kind::Punctuator => mark_symbol(text),
        _ => Symbol::NoSymbol,
    }
}

/// How an operand begins with this symbol, if one does.
pub fn lead_of(symbol: Symbol) -> Option<Lead>
    ensures { result ≡ lead_of symbol }
{
    match symbol {
        Symbol::Name => Some(Lead::Name),
        Symbol::Constant(_) => Some(Lead::Constant),
        Symbol::OpenParen => Some(Lead::Paren),
        Symbol::Prefix(op) => Some(Lead::Prefix(op)),
        Symbol::Operator(Binary::Multiply) => Some(Lead::Prefix(Unary::Load)),
        Symbol::Operator(Binary::And) => Some(Lead::Prefix(Unary::Address)),
        Symbol::Operator(Binary::Add) => Some(Lead::Prefix(Unary::Plus)),
        Symbol::Operator(Binary::Subtract) => Some(Lead::Prefix(Unary::Minus)),
        _ => None,
    }
}

/// Whether a type begins with this symbol.
pub fn starts_type(symbol: Symbol) -> bool
    ensures { result ≡ starts_type symbol }
{
    match symbol {
        Symbol::Type(_) => true,
        Symbol::Const => true,
        _ => false,
    }
}

/// Whether the words of a type go on with this symbol, as far as it is such a word.
pub fn is_specifier(symbol: Symbol) -> bool
    ensures { result ≡ is_specifier symbol }
{
    match symbol {
        Symbol::Type(_) => true,
        Symbol::Const => true,
        Symbol::Static => true,
        _ => false,
    }
}

//! What might stand at a place besides what fits there.

ghost use Rattle.std.specs.Prelude.{◌≡◌};
ghost use Rattle.c_grammar.specs.Symbols.{is_step, is_star, is_bracket, is_close_bracket, is_paren, is_brace, is_comma};
ghost use Rattle.c_grammar.specs.Symbols.{is_name, starts_expression, is_object_end, continues, ends_effect, is_label};
ghost use Rattle.c_grammar.specs.Symbols.{starts_statement, goes_with};

use crate::symbol::{Symbol, lead_of, starts_type};
use c_unit::Binary;

/// With which symbols C99 could go on at a place, besides those that fit there, if each form of the
/// profile might stand wherever C99 lets it.
#[derive(Clone, Copy, Debug, PartialEq, Eq)]
pub enum Others {
    /// None.
    Nothing,
    /// A step, as before an operand.
    Steps,
    /// A step, or a type in parentheses.
    StepsAndTypes,
    /// A step, or a list in braces.
    StepsAndBraces,
    /// Any expression.
    Expressions,
    /// Any expression, or a list in braces.
    ExpressionsAndBraces,
    /// Any expression, or no size at all.
    Sizes,
    /// What an expression goes on with: operators, brackets, the parenthesis of a call, steps. Where
    /// `unary` is true also an assignment, and where `comma` is true also a comma.
    Rest { unary: bool, comma: bool },
    /// What a statement goes on with that is an expression, or its end: `)` where `last` is true, and
    /// otherwise `;`.
    RestOrEnd { last: bool },
    /// What declares an object: `;`, `,`, `=` or `[`.
    Object,
    /// What declares a parameter: a name, `*`, `[` or `,`.
    Parameter,
    /// `*`.
    Stars,
    /// `[`.
    Brackets,
    /// `*` or `[`.
    StarsAndBrackets,
    /// `(`.
    Parens,
    /// `[` or `(`.
    BracketsAndParens,
    /// `{`.
    Braces,
    /// `case` or `default`.
    Labels,
    /// Any statement, `case` or `default`.
    Statements,
}

/// How a cast may stand where an operand begins.
#[derive(Clone, Copy, Debug, PartialEq, Eq)]
pub enum Casts {
    Taken,
    /// C99 has casts here, and the profile has none.
    Outside,
    /// C99 has none.
    Refused,
}

fn is_step(symbol: Symbol) -> bool
    ensures { result ≡ is_step symbol }
{
    match symbol {
        Symbol::Step(_) => true,
        _ => false,
    }
}

fn is_star(symbol: Symbol) -> bool
    ensures { result ≡ is_star symbol }
{
    match symbol {
        Symbol::Operator(Binary::Multiply) => true,
        _ => false,
    }
}

fn is_bracket(symbol: Symbol) -> bool
    ensures { result ≡ is_bracket symbol }
{
    match symbol {
        Symbol::OpenBracket => true,
        _ => false,
    }
}

fn is_close_bracket(symbol: Symbol) -> bool
    ensures { result ≡ is_close_bracket symbol }
{
    match symbol {
        Symbol::CloseBracket => true,
        _ => false,
    }
}

fn is_paren(symbol: Symbol) -> bool
    ensures { result ≡ is_paren symbol }
{
    match symbol {
        Symbol::OpenParen => true,
        _ => false,
    }
}

fn is_brace(symbol: Symbol) -> bool
    ensures { result ≡ is_brace symbol }
{
    match symbol {
        Symbol::OpenBrace => true,
        _ => false,
    }
}

fn is_comma(symbol: Symbol) -> bool
    ensures { result ≡ is_comma symbol }
{
    match symbol {
        Symbol::Comma => true,
        _ => false,
    }
}

fn is_name(symbol: Symbol) -> bool
    ensures { result ≡ is_name symbol }
{
    match symbol {
        Symbol::Name => true,
        _ => false,
    }
}

fn starts_expression(symbol: Symbol) -> bool
    ensures { result ≡ starts_expression symbol }
{
    is_step(symbol) || lead_of(symbol).is_some()
}

// `;`, `,`, `=` or `[`.
fn is_object_end(symbol: Symbol) -> bool
    ensures { result ≡ is_object_end symbol }
{
    match symbol {
        Symbol::Semicolon => true,
        Symbol::Comma => true,
        Symbol::Assign => true,
        Symbol::OpenBracket => true,
        _ => false,
    }
}

fn continues(unary: bool, comma: bool, symbol: Symbol) -> bool
    ensures { result ≡ continues unary comma symbol }
{
    match symbol {
        Symbol::Operator(_) => true,
        Symbol::OpenBracket => true,
        Symbol::OpenParen => true,
        Symbol::Step(_) => true,
        Symbol::Assign => unary,
        Symbol::Update(_) => unary,
        Symbol::Comma => comma,
        _ => false,
    }
}

fn ends_effect(last: bool, symbol: Symbol) -> bool
    ensures { result ≡ ends_effect last symbol }
{
    match symbol {
        Symbol::CloseParen => last,
        Symbol::Semicolon => !last,
        _ => false,
    }
}

fn is_label(symbol: Symbol) -> bool
    ensures { result ≡ is_label symbol }
{
    match symbol {
        Symbol::Label => true,
        _ => false,
    }
}

/// Whether a statement begins with the symbol; `case` and `default` begin none.
pub fn starts_statement(symbol: Symbol) -> bool
    ensures { result ≡ starts_statement symbol }
{
    match symbol {
        Symbol::Statement => true,
        Symbol::Semicolon => true,
        Symbol::OpenBrace => true,
        _ => starts_expression(symbol),
    }
}

/// Whether the symbol is among the others of a place.
#[tactic(auto, unfolding(crate::specs::Symbols::goes_with))]
pub fn goes_with(others: Others, symbol: Symbol) -> bool
    ensures { result ≡ goes_with others symbol }
{
    match others {
        Others::Nothing => false,
        Others::Steps => is_step(symbol),
        Others::StepsAndTypes => is_step(symbol) || starts_type(symbol),
        Others::StepsAndBraces => is_step(symbol) || is_brace(symbol),
        Others::Expressions => starts_expression(symbol),
        Others::ExpressionsAndBraces => starts_expression(symbol) || is_brace(symbol),
        Others::Sizes => starts_expression(symbol) || is_close_bracket(symbol),
        Others::Rest { unary, comma } => continues(unary, comma, symbol),
        Others::RestOrEnd { last } => continues(true, true, symbol) || ends_effect(last, symbol),
        Others::Object => is_object_end(symbol),
        Others::Parameter => is_name(symbol)
            || is_star(symbol)
            || is_bracket(symbol)
            || is_comma(symbol),
        Others::Stars => is_star(symbol),
        Others::Brackets => is_bracket(symbol),
        Others::StarsAndBrackets => is_star(symbol) || is_bracket(symbol),
        Others::Parens => is_paren(symbol),
        Others::BracketsAndParens => is_bracket(symbol) || is_paren(symbol),
        Others::Braces => is_brace(symbol),
        Others::Labels => is_label(symbol),
        Others::Statements => starts_statement(symbol) || is_label(symbol),
    }
}

//! What is asked of operators and expressions.

ghost use Rattle.std.specs.Prelude.{◌≡◌, ◌≤◌, ◌&&◌};
ghost use Rattle.c_unit.specs.Tree.{expression_of, value_of};
ghost use Rattle.c_grammar.specs.Expressions.{rank_of, joins_conditions, is_not, is_logical, is_unary, is_postfix};
ghost use Rattle.c_grammar.specs.Expressions.{rest_of, rest_after_postfix, rest_of_value, may_stand, takes_cast};
ghost use Rattle.c_grammar.specs.Expressions.{cast_others};

use c_grammar::{Casts, Others};
use c_unit::{Binary, Expr, Unary, Value};

/// How tightly an operator binds.
pub fn rank_of(op: Binary) -> u32
    ensures rank { result ≡ rank_of op }
    ensures within { result ≤ 10 }
{
    match op {
        Binary::Multiply => 10,
        Binary::Divide => 10,
        Binary::Remainder => 10,
        Binary::Add => 9,
        Binary::Subtract => 9,
        Binary::ShiftLeft => 8,
        Binary::ShiftRight => 8,
        Binary::Less => 7,
        Binary::Greater => 7,
        Binary::AtMost => 7,
        Binary::AtLeast => 7,
        Binary::Equal => 6,
        Binary::Unequal => 6,
        Binary::And => 5,
        Binary::Xor => 4,
        Binary::Or => 3,
        Binary::Both => 2,
        Binary::Either => 1,
    }
}

/// Whether the operator is `&&` or `||`.
pub fn joins_conditions(op: Binary) -> bool
    ensures { result ≡ joins_conditions op }
{
    match op {
        Binary::Both => true,
        Binary::Either => true,
        _ => false,
    }
}

pub fn is_not(op: Unary) -> bool
    ensures { result ≡ is_not op }
{
    match op {
        Unary::Not => true,
        _ => false,
    }
}

/// Whether `&&` and `||` may stand in the right side of an operator.
pub fn logical_right(logical: bool, op: Binary) -> bool
    ensures { result ≡ (logical && joins_conditions op) }
{
    logical && joins_conditions(op)
}

/// Whether `&&` and `||` may stand in the operand of an operator.
pub fn logical_operand(logical: bool, op: Unary) -> bool
    ensures { result ≡ (logical && is_not op) }
{
    logical && is_not(op)
}

/// Whether `&&` or `||` is the outermost operator, under `!` and parentheses alone.
pub fn is_logical(expr: &Expr) -> bool
    ensures { result ≡ is_logical (expression_of expr.now) }
{
    match expr {
        Expr::Constant(_) => false,
        Expr::Name(_) => false,
        Expr::Parentheses(_, inner) => is_logical(inner),
        Expr::Unary(op, _, operand) => is_not(*op) && is_logical(operand),
        Expr::Cast(_, _, _) => false,
        Expr::Index(_, _, _) => false,
        Expr::Binary(op, _, _, _) => joins_conditions(*op),
    }
}

fn is_unary(expr: &Expr) -> bool
    ensures { result ≡ is_unary (expression_of expr.now) }
{
    match expr {
        Expr::Constant(_) => true,
        Expr::Name(_) => true,
        Expr::Parentheses(_, _) => true,
        Expr::Unary(_, _, _) => true,
        Expr::Cast(_, _, _) => false,
        Expr::Index(_, _, _) => true,
        Expr::Binary(_, _, _, _) => false,
    }
}

/// Whether no operator before an operand, no cast and no operator between operands is outermost.
pub fn is_postfix(expr: &Expr) -> bool
    ensures { result ≡ is_postfix (expression_of expr.now) }
{
    match expr {
        Expr::Constant(_) => true,
        Expr::Name(_) => true,
        Expr::Parentheses(_, _) => true,
        Expr::Unary(_, _, _) => false,
        Expr::Cast(_, _, _) => false,
        Expr::Index(_, _, _) => true,
        Expr::Binary(_, _, _, _) => false,
    }
}

/// What C99 could go on with after an expression.
pub fn rest_of(comma: bool, expr: &Expr) -> Others
    ensures { result ≡ rest_of comma (expression_of expr.now) }
{
    Others::Rest {
        unary: is_unary(expr),
        comma,
    }
}

/// What C99 could go on with after a call or a step.
pub fn rest_after_postfix(comma: bool) -> Others
    ensures { result ≡ rest_after_postfix comma }
{
    Others::Rest { unary: true, comma }
}

/// What C99 could go on with after a value.
pub fn rest_of_value(comma: bool, value: &Value) -> Others
    ensures { result ≡ rest_of_value comma (value_of value.now) }
{
    match value {
        Value::Expr(expr) => rest_of(comma, expr),
        Value::Call(_) => rest_after_postfix(comma),
    }
}

/// Whether the operator stands where these operators may, after this left side.
pub fn may_stand(min: u32, logical: bool, left: &Expr, op: Binary) -> bool
    ensures { result ≡ may_stand min logical (expression_of left.now) op }
{
    if joins_conditions(op) {
        min <= rank_of(op) && logical
    } else {
        min <= rank_of(op) && !is_logical(left)
    }
}

pub fn takes_cast(casts: Casts) -> bool
    ensures { result ≡ takes_cast casts }
{
    match casts {
        Casts::Taken => true,
        _ => false,
    }
}

/// What might stand after a parenthesis where casts stand so.
pub fn cast_others(casts: Casts) -> Others
    ensures { result ≡ cast_others casts }
{
    match casts {
        Casts::Outside => Others::StepsAndTypes,
        _ => Others::Steps,
    }
}

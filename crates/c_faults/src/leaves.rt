//! Names and constants, and what may be assigned to.

ghost use Rattle.std.specs.Prelude.{◌≡◌, Some, IfOk};
ghost use Rattle.c_unit.specs.Tree.{expression_of};
ghost use Rattle.c_rules.specs.Faults.{earliest};
ghost use Rattle.c_rules.specs.Names as names;
ghost use Rattle.c_rules.specs.Expressions as laws;
ghost use Rattle.c_scopes.specs.FirstFault.{told};
ghost use Rattle.c_scopes.specs.Views.{bound_of};

use c_scopes::{Bound, Fault, Scopes};
use c_tokens::Worth;
use c_unit::{Expr, Integer, Scalar, Unary};

/// The type of a constant.
pub fn constant_type(worth: Worth) -> Scalar
    ensures { result ≡ names.constant_type worth }
{
    match worth {
        Worth::NoConstant => Scalar::Integer(Integer::Int),
        Worth::TooLarge => Scalar::Integer(Integer::Int),
        Worth::Int(_) => Scalar::Integer(Integer::Int),
        Worth::UnsignedInt(_) => Scalar::Integer(Integer::UnsignedInt),
    }
}

// What a name is as a value: an array is a pointer to its element type, and a function is none.
fn value_type(bound: &Bound) -> Option<Scalar>
    ensures { result ≡ laws.value_type (bound_of bound.now) }
{
    match bound {
        Bound::Variable(kind) => Some(*kind),
        Bound::Array(kind) => Some(Scalar::Pointer(*kind)),
        Bound::Function(_, _) => None,
    }
}

// Whether the name is that of a variable.
fn is_variable(bound: &Bound) -> bool
    ensures { result ≡ laws.is_variable (bound_of bound.now) }
{
    match bound {
        Bound::Variable(_) => true,
        Bound::Array(_) => false,
        Bound::Function(_, _) => false,
    }
}

/// The type of a name as a value. The name of a function stands in calls alone.
pub fn name_type(scopes: &Scopes<'_>, token: u32) -> Result<Scalar, Fault>
    ensures told { told result
        ≡ earliest (laws.name_faults token (names.look_up scopes.now.words scopes.now.scopes token)) }
    ensures typed { IfOk result (λ t. laws.type_at (names.look_up scopes.now.words scopes.now.scopes token) ≡ Some t) }
{
    let Some(entry) = scopes.look_up(token) else {
        return Err(Fault::Unknown(token));
    };
    match value_type(&entry.bound) {
        Some(kind) => Ok(kind),
        None => Err(Fault::Mistyped(token)),
    }
}

// Whether the name at the token is that of a variable.
fn is_variable_at(scopes: &Scopes<'_>, token: u32) -> bool
    ensures { result ≡ laws.is_variable_at (names.look_up scopes.now.words scopes.now.scopes token) }
{
    match scopes.look_up(token) {
        Some(entry) => is_variable(&entry.bound),
        None => false,
    }
}

// Whether the operator gives what a pointer leads to.
fn is_load(op: Unary) -> bool
    ensures { result ≡ laws.is_load op }
{
    match op {
        Unary::Load => true,
        _ => false,
    }
}

/// Whether an expression may be assigned to. Goes as deep as parentheses stand in one another around it.
pub fn designates(scopes: &Scopes<'_>, e: &Expr) -> bool
    ensures { result ≡ laws.designates scopes.now.words scopes.now.scopes (expression_of e.now) }
{
    match e {
        Expr::Constant(_) => false,
        Expr::Name(token) => is_variable_at(scopes, *token),
        Expr::Parentheses(_, inner) => designates(scopes, inner),
        Expr::Unary(op, _, _) => is_load(*op),
        Expr::Cast(_, _, _) => false,
        Expr::Index(_, _, _) => true,
        Expr::Binary(_, _, _, _) => false,
    }
}

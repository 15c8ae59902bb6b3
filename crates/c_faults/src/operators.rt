//! Operators over operands that have types.

ghost use Rattle.std.specs.Prelude.{◌≡◌, true, Some, IfOk};
ghost use Rattle.c_unit.specs.Tree.{expression_of};
ghost use Rattle.c_unit.specs.Measures.{first_of};
ghost use Rattle.c_rules.specs.Faults.{earliest};
ghost use Rattle.c_rules.specs.Expressions.{misfit, unsuited, is_of_conditions as of_conditions, part_faults};
ghost use Rattle.c_scopes.specs.FirstFault.{told};

use c_scopes::{Fault, suits};
use c_unit::{Binary, Expr, Integer, Scalar};

/// The type that an operator gives; where its operands do not fit, the token is wrong.
pub fn fitting(given: Option<Scalar>, token: u32) -> Result<Scalar, Fault>
    ensures told { told result ≡ earliest (misfit true given token) }
    ensures typed { IfOk result (λ t. given ≡ Some t) }
{
    match given {
        Some(kind) => Ok(kind),
        None => Err(Fault::Mistyped(token)),
    }
}

/// The same, where the operator's expression begins with its first operand.
pub fn fitting_from(given: Option<Scalar>, operand: &Expr) -> Result<Scalar, Fault>
    ensures told { told result ≡ earliest (misfit true given (first_of (expression_of operand.now))) }
    ensures typed { IfOk result (λ t. given ≡ Some t) }
{
    match given {
        Some(kind) => Ok(kind),
        None => Err(Fault::Mistyped(operand.first())),
    }
}

/// Whether a type suits where one is wanted; where it does not, the expression is wrong.
pub fn check_suits(wanted: Scalar, given: Scalar, e: &Expr) -> Result<(), Fault>
    ensures told { told result ≡ earliest (unsuited wanted (Some given) (first_of (expression_of e.now))) }
{
    if suits(wanted, given) {
        Ok(())
    } else {
        Err(Fault::Mistyped(e.first()))
    }
}

/// Whether the operands of the operator are conditions.
pub fn is_of_conditions(op: Binary) -> bool
    ensures { result ≡ of_conditions op }
{
    match op {
        Binary::Both => true,
        Binary::Either => true,
        _ => false,
    }
}

/// An operand of `&&` or `||` is an integer.
pub fn check_part(op: Binary, given: Scalar, e: &Expr) -> Result<(), Fault>
    ensures told { told result ≡ earliest (part_faults op (Some given) (first_of (expression_of e.now))) }
{
    if is_of_conditions(op) {
        check_suits(Scalar::Integer(Integer::Int), given, e)
    } else {
        Ok(())
    }
}

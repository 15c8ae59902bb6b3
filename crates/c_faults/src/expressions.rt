//! The type of an expression, or its first fault.

ghost use Rattle.std.specs.Prelude.{◌≡◌, Some, IfOk};
ghost use Rattle.c_unit.specs.Tree.{expression_of};
ghost use Rattle.c_rules.specs.Faults.{earliest};
ghost use Rattle.c_rules.specs.Expressions.{type_of, faults_of};
ghost use Rattle.c_scopes.specs.FirstFault.{told};

use crate::leaves::{constant_type, designates, name_type};
use crate::operators::{check_part, fitting, fitting_from};
use c_scopes::{Fault, Scopes, binary_type, cast_type, index_type, unary_type};
use c_unit::{Expr, Scalar};

/// The type of an expression, or the first of its faults. Each part is seen once.
#[cycle(expressions)]
#[tactic(auto, using(crate::proofs::Pairs::binary_told))]
pub fn expression_type(scopes: &Scopes<'_>, e: &Expr) -> Result<Scalar, Fault>
    ensures told { told result ≡ earliest (faults_of scopes.now.words scopes.now.scopes (expression_of e.now)) }
    ensures typed { IfOk result (λ t. type_of scopes.now.words scopes.now.scopes (expression_of e.now) ≡ Some t) }
{
    match e {
        Expr::Constant(token) => Ok(constant_type(scopes.words().worth_at(*token))),
        Expr::Name(token) => name_type(scopes, *token),
        Expr::Parentheses(_, inner) => expression_type(scopes, inner),
        Expr::Unary(op, token, operand) => {
            let given = expression_type(scopes, operand)?;
            let place = designates(scopes, operand);
            fitting(unary_type(*op, place, given), *token)
        }
        Expr::Cast(token, to, operand) => {
            let given = expression_type(scopes, operand)?;
            fitting(cast_type(*to, given), *token)
        }
        Expr::Index(base, _, index) => {
            let from = expression_type(scopes, base)?;
            let by = expression_type(scopes, index)?;
            fitting_from(index_type(from, by), base)
        }
        Expr::Binary(op, _, left, right) => {
            let first = expression_type(scopes, left)?;
            check_part(*op, first, left)?;
            let second = expression_type(scopes, right)?;
            check_part(*op, second, right)?;
            fitting_from(binary_type(*op, first, second), left)
        }
    }
}

//! Expressions with numbers in place of names.

ghost use Rattle.std.specs.Prelude.{◌≡◌, map, IfOk};
ghost use Rattle.alf_program.specs.Tree.{expression_of, with_frames};
ghost use Rattle.alf_check.specs.CheckedPrograms.{term_of};
ghost use Rattle.alf_check.specs.Names.{numbers_of};

use crate::lookup::Names;
use crate::rows::Term;
use alf_program::Expr;
use std::alloc::{AllocError, Global};

/// The expression, with the number of each frame.
#[cycle(expressions)]
pub fn term(alloc: Global, names: &Names<'_>, expr: &Expr) -> Result<Term, AllocError>
    ensures { IfOk result (λ term. term_of term ≡ with_frames (numbers_of names.now).frame (expression_of expr.now)) }
{
    match expr {
        Expr::Num(num) => Ok(Term::Num(*num)),
        Expr::Addr(frame, offset) => Ok(Term::Addr(names.frame(frame.bytes()), *offset)),
        Expr::Load(size, at) => {
            let at = term(alloc, names, at)?;
            Ok(Term::Load(*size, Box::new(alloc, at)?))
        }
        Expr::Apply(op, sizes, operands) => {
            let operands = terms(alloc, names, operands)?;
            Ok(Term::Apply(*op, Vec::from_slice(alloc, sizes)?, operands))
        }
    }
}

/// The expressions in their order.
#[cycle(expressions)]
pub fn terms(alloc: Global, names: &Names<'_>, exprs: &[Expr]) -> Result<Vec<Term>, AllocError>
    ensures { IfOk result
        (λ terms. map term_of terms.items
        ≡ map (with_frames (numbers_of names.now).frame) (map expression_of exprs.now)) }
{
    let mut terms = Vec::with_capacity(alloc, exprs.len())?;
    for expr in exprs {
        let term = term(alloc, names, expr)?;
        terms.push(term)?;
    }
    Ok(terms)
}

//! Expressions.

ghost use Rattle.std.specs.Prelude.{◌≡◌, IfOk};
ghost use Rattle.alf_program.specs.Tree as alf;
ghost use Rattle.c_unit.specs.Tree.{expression_of};
ghost use Rattle.c_unit.specs.Units.{unit_of};
ghost use Rattle.c_rules.specs.Expressions.{on_both, type_of};
ghost use Rattle.c_rules.specs.Types as types;
ghost use Rattle.c_lowered.specs.Values as values;
ghost use Rattle.object_layout.specs.Views.{program_in};
ghost use Rattle.operator_lowering.specs.Operands.{operand_of};
ghost use Rattle.expression_lowering.specs.Kinds as kinds;

use crate::leaves::{constant_value, name_address, name_value};
use crate::typed::{Typed, binary_kind, cast_kind, index_kind, kind_or_int, unary_kind};
use alf_program::Expr as Term;
use c_scopes::Scopes;
use c_unit::{Expr, Scalar, Unary};
use object_layout::Table;
use operator_lowering::{
    binary_value, cast_to, element_address, loaded, pointee, unary_value, whole,
};
use std::alloc::{AllocError, Global};

// Where an element lies, with the type of its base.
#[derive(Drop)]
struct Element {
    base: Scalar,
    kind: Option<Scalar>,
    at: Term,
}

/// The value of an expression. `&&` and `||` have no value and give 0.
#[cycle(expressions)]
pub fn value_of(
    alloc: Global,
    table: &Table<'_>,
    scopes: &Scopes<'_>,
    e: &Expr,
) -> Result<Typed, AllocError>
    requires { (unit_of table.now).words ≡ scopes.now.words }
    ensures kind { IfOk result
        (λ v. v.kind ≡ type_of (unit_of table.now).words scopes.now.scopes (expression_of e.now)) }
    ensures value { IfOk result
        (λ v. alf.expression_of v.value
        ≡ values.value_of (program_in table.now) scopes.now.scopes (expression_of e.now)) }
{
    match e {
        Expr::Constant(token) => Ok(constant_value(table, *token)),
        Expr::Name(token) => name_value(alloc, table, scopes, *token),
        Expr::Parentheses(_, inner) => value_of(alloc, table, scopes, inner),
        Expr::Unary(op, _, operand) => {
            let given = operand_of(alloc, table, scopes, *op, operand)?;
            let value = unary_value(alloc, *op, kind_or_int(given.kind), given.value)?;
            let kind = unary_kind(scopes, *op, operand, given.kind);
            Ok(Typed { kind, value })
        }
        Expr::Cast(_, to, operand) => {
            let given = value_of(alloc, table, scopes, operand)?;
            let value = cast_to(alloc, *to, given.value)?;
            let kind = cast_kind(*to, given.kind);
            Ok(Typed { kind, value })
        }
        Expr::Index(base, _, index) => {
            let from = value_of(alloc, table, scopes, base)?;
            let by = value_of(alloc, table, scopes, index)?;
            let element = element_of(alloc, from, by)?;
            let held = Scalar::Integer(pointee(element.base));
            let value = loaded(alloc, held, element.at)?;
            Ok(Typed {
                kind: element.kind,
                value,
            })
        }
        Expr::Binary(op, _, left, right) => {
            let l = value_of(alloc, table, scopes, left)?;
            let r = value_of(alloc, table, scopes, right)?;
            let (a, b) = (kind_or_int(l.kind), kind_or_int(r.kind));
            let value = binary_value(alloc, *op, a, b, l.value, r.value)?;
            let kind = binary_kind(*op, l.kind, r.kind);
            Ok(Typed { kind, value })
        }
    }
}

// What an operator before an operand is lowered from, with the operand's type.
#[cycle(expressions)]
fn operand_of(
    alloc: Global,
    table: &Table<'_>,
    scopes: &Scopes<'_>,
    op: Unary,
    operand: &Expr,
) -> Result<Typed, AllocError>
    requires { (unit_of table.now).words ≡ scopes.now.words }
    ensures kind { IfOk result
        (λ v. v.kind ≡ type_of (unit_of table.now).words scopes.now.scopes (expression_of operand.now)) }
    ensures value { IfOk result
        (λ v. alf.expression_of v.value
        ≡ operand_of op (values.value_of (program_in table.now) scopes.now.scopes (expression_of operand.now))
        (values.address_of (program_in table.now) scopes.now.scopes (expression_of operand.now))) }
{
    match op {
        Unary::Not => value_of(alloc, table, scopes, operand),
        Unary::Complement => value_of(alloc, table, scopes, operand),
        Unary::Minus => value_of(alloc, table, scopes, operand),
        Unary::Plus => value_of(alloc, table, scopes, operand),
        Unary::Load => value_of(alloc, table, scopes, operand),
        Unary::Address => address_of(alloc, table, scopes, operand),
    }
}

// Where an element lies, by its base and its index.
fn element_of(alloc: Global, base: Typed, index: Typed) -> Result<Element, AllocError>
    ensures base { IfOk result (λ v. v.base ≡ kinds.kind_or_int base.kind) }
    ensures kind { IfOk result (λ v. v.kind ≡ on_both types.index_type base.kind index.kind) }
    ensures at { IfOk result
        (λ v. alf.expression_of v.at
        ≡ values.element_address (kinds.kind_or_int base.kind) (kinds.kind_or_int index.kind)
        (alf.expression_of base.value) (alf.expression_of index.value)) }
{
    let (a, b) = (kind_or_int(base.kind), kind_or_int(index.kind));
    let kind = index_kind(base.kind, index.kind);
    let at = element_address(alloc, a, b, base.value, index.value)?;
    Ok(Element { base: a, kind, at })
}

/// Where the object lies that an expression designates, with the type of the expression. Of what designates nothing
/// the address is of no use.
#[cycle(expressions)]
pub fn address_of(
    alloc: Global,
    table: &Table<'_>,
    scopes: &Scopes<'_>,
    e: &Expr,
) -> Result<Typed, AllocError>
    requires { (unit_of table.now).words ≡ scopes.now.words }
    ensures kind { IfOk result
        (λ v. v.kind ≡ type_of (unit_of table.now).words scopes.now.scopes (expression_of e.now)) }
    ensures value { IfOk result
        (λ v. alf.expression_of v.value
        ≡ values.address_of (program_in table.now) scopes.now.scopes (expression_of e.now)) }
{
    match e {
        Expr::Constant(token) => Ok(Typed {
            kind: constant_value(table, *token).kind,
            value: whole(0),
        }),
        Expr::Name(token) => name_address(alloc, table, scopes, *token),
        Expr::Parentheses(_, inner) => address_of(alloc, table, scopes, inner),
        Expr::Unary(op, _, operand) => {
            let given = value_of(alloc, table, scopes, operand)?;
            let kind = unary_kind(scopes, *op, operand, given.kind);
            Ok(Typed {
                kind,
                value: given.value,
            })
        }
        Expr::Cast(_, to, operand) => {
            let given = value_of(alloc, table, scopes, operand)?;
            let kind = cast_kind(*to, given.kind);
            Ok(Typed {
                kind,
                value: whole(0),
            })
        }
        Expr::Index(base, _, index) => {
            let from = value_of(alloc, table, scopes, base)?;
            let by = value_of(alloc, table, scopes, index)?;
            let element = element_of(alloc, from, by)?;
            Ok(Typed {
                kind: element.kind,
                value: element.at,
            })
        }
        Expr::Binary(op, _, left, right) => {
            let l = value_of(alloc, table, scopes, left)?;
            let r = value_of(alloc, table, scopes, right)?;
            let kind = binary_kind(*op, l.kind, r.kind);
            Ok(Typed {
                kind,
                value: whole(0),
            })
        }
    }
}

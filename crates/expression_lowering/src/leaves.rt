//! Names and constants.

ghost use Rattle.std.specs.Prelude.{◌≡◌, Some, IfOk};
ghost use Rattle.alf_program.specs.Tree as alf;
ghost use Rattle.c_unit.specs.Units.{unit_of};
ghost use Rattle.c_rules.specs.Names as names;
ghost use Rattle.c_rules.specs.Expressions as laws;
ghost use Rattle.c_scopes.specs.Views.{bound_of};
ghost use Rattle.c_lowered.specs.Values as values;
ghost use Rattle.object_layout.specs.Views.{program_in};

use crate::typed::Typed;
use alf_program::Expr as Term;
use c_scopes::{Bound, Scopes};
use c_tokens::Worth;
use c_unit::{Integer, Scalar};
use object_layout::Table;
use operator_lowering::{address, constant_of, loaded};
use std::alloc::{AllocError, Global};

// The type of a constant.
fn constant_type(worth: Worth) -> Scalar
    ensures { result ≡ names.constant_type worth }
{
    match worth {
        Worth::NoConstant => Scalar::Integer(Integer::Int),
        Worth::TooLarge => Scalar::Integer(Integer::Int),
        Worth::Int(_) => Scalar::Integer(Integer::Int),
        Worth::UnsignedInt(_) => Scalar::Integer(Integer::UnsignedInt),
    }
}

/// A constant.
pub fn constant_value(table: &Table<'_>, token: u32) -> Typed
    ensures kind { result.kind ≡ Some (names.constant_type (names.worth_at (unit_of table.now).words token)) }
    ensures value { alf.expression_of result.value
        ≡ values.constant_of (names.worth_at (unit_of table.now).words token) }
{
    let worth = table.words().worth_at(token);
    Typed {
        kind: Some(constant_type(worth)),
        value: constant_of(worth),
    }
}

// What a name that is bound so gives, where its object lies at this address.
fn bound_value(alloc: Global, bound: &Bound, at: Term) -> Result<Typed, AllocError>
    ensures kind { IfOk result (λ v. v.kind ≡ laws.value_type (bound_of bound.now)) }
    ensures value { IfOk result
        (λ v. alf.expression_of v.value ≡ values.bound_value (bound_of bound.now) (alf.expression_of at)) }
{
    match bound {
        Bound::Variable(kind) => {
            let value = loaded(alloc, *kind, at)?;
            Ok(Typed {
                kind: Some(*kind),
                value,
            })
        }
        Bound::Array(kind) => Ok(Typed {
            kind: Some(Scalar::Pointer(*kind)),
            value: at,
        }),
        Bound::Function(_, _) => Ok(Typed {
            kind: None,
            value: at,
        }),
    }
}

// What a name is as a value.
fn value_type(bound: &Bound) -> Option<Scalar>
    ensures { result ≡ laws.value_type (bound_of bound.now) }
{
    match bound {
        Bound::Variable(kind) => Some(*kind),
        Bound::Array(kind) => Some(Scalar::Pointer(*kind)),
        Bound::Function(_, _) => None,
    }
}

/// What a name gives.
pub fn name_value(
    alloc: Global,
    table: &Table<'_>,
    scopes: &Scopes<'_>,
    token: u32,
) -> Result<Typed, AllocError>
    requires { (unit_of table.now).words ≡ scopes.now.words }
    ensures kind { IfOk result
        (λ v. v.kind ≡ laws.type_at (names.look_up (unit_of table.now).words scopes.now.scopes token)) }
    ensures value { IfOk result
        (λ v. alf.expression_of v.value
        ≡ values.name_value (names.look_up (unit_of table.now).words scopes.now.scopes token)
        (values.place_of (program_in table.now) scopes.now.scopes token)) }
{
    match scopes.look_up(token) {
        Some(entry) => {
            let at = address(alloc, table.frame_of(entry.token), 0)?;
            bound_value(alloc, &entry.bound, at)
        }
        None => {
            let at = address(alloc, table.frame_of(token), 0)?;
            Ok(Typed {
                kind: None,
                value: at,
            })
        }
    }
}

/// Where the object of a name lies.
pub fn name_address(
    alloc: Global,
    table: &Table<'_>,
    scopes: &Scopes<'_>,
    token: u32,
) -> Result<Typed, AllocError>
    requires { (unit_of table.now).words ≡ scopes.now.words }
    ensures kind { IfOk result
        (λ v. v.kind ≡ laws.type_at (names.look_up (unit_of table.now).words scopes.now.scopes token)) }
    ensures value { IfOk result
        (λ v. alf.expression_of v.value ≡ values.place_of (program_in table.now) scopes.now.scopes token) }
{
    match scopes.look_up(token) {
        Some(entry) => {
            let at = address(alloc, table.frame_of(entry.token), 0)?;
            Ok(Typed {
                kind: value_type(&entry.bound),
                value: at,
            })
        }
        None => {
            let at = address(alloc, table.frame_of(token), 0)?;
            Ok(Typed {
                kind: None,
                value: at,
            })
        }
    }
}

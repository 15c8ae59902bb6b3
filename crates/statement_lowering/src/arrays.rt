//! What local arrays hold at first.

ghost use Rattle.std.specs.Prelude.{◌≡◌, ◌≤◌, ◌+◌, IfOk, OnOk};
ghost use Rattle.std.specs.Option.{option_map};
ghost use Rattle.alf_program.specs.Tree as alf;
ghost use Rattle.c_unit.specs.Limits.{most_elements};
ghost use Rattle.c_unit.specs.Units.{unit_of};
ghost use Rattle.c_meaning.specs.Objects.{count_at};
ghost use Rattle.c_meaning.specs.Values as sizes;
ghost use Rattle.c_meaning.specs.Statements as meaning;
ghost use Rattle.c_lowered.specs.Effects as laws;
ghost use Rattle.object_layout.specs.Views.{program_in};
ghost use Rattle.condition_lowering.specs.Views.{Makes};

use alf_program::{Expr as Term, Item, Stmt as Act};
use c_unit::{Constant, Integer};
use condition_lowering::{Code, put_act};
use object_layout::count_at;
use operator_lowering::{address, bytes_of_type, constant_of, cut, negated, whole};
use std::alloc::AllocError;

// A constant as an expression, with its minus.
fn constant_value(code: Code<'_, '_>, constant: Constant) -> Result<Term, AllocError>
    ensures { IfOk result
        (λ term. alf.expression_of term ≡ laws.constant_value (program_in code.entry.table.now) constant) }
{
    let number = constant_of(code.table.words().worth_at(constant.token));
    if constant.minus {
        negated(code.alloc, number)
    } else {
        Ok(number)
    }
}

// The first of the constants, or 0.
fn first_element(code: Code<'_, '_>, constants: &[Constant]) -> Result<Term, AllocError>
    ensures { IfOk result
        (λ term. alf.expression_of term ≡ laws.first_element (program_in code.entry.table.now) constants.now) }
{
    match constants.split_first() {
        Some((constant, _)) => constant_value(code, *constant),
        None => Ok(whole(0)),
    }
}

// The constants after the first.
fn further_elements(constants: &[Constant]) -> &[Constant]
    ensures { result.now ≡ meaning.further_elements constants.now }
{
    match constants.split_first() {
        Some((_, others)) => others,
        None => constants,
    }
}

// Puts the stores of so many elements, those without a constant included.
#[tactic(auto, using(crate::proofs::Steps::next_element))]
fn put_elements(
    code: Code<'_, '_>,
    items: &mut Vec<Item>,
    name: &[u8],
    kind: Integer,
    count: u32,
    constants: &[Constant],
) -> Result<(), AllocError>
    requires few { count ≤ most_elements }
    ensures { OnOk result
        (Makes items.old.items items.new.items
        (laws.element_items (program_in code.entry.table.now) name.now kind 0 count constants.now)) }
{
    let mut left = count;
    let mut offset: u32 = 0;
    let mut rest = constants;
    'elements: while left > 0 {
        let number = first_element(code, rest)?;
        let value = cut(code.alloc, kind, number)?;
        let at = address(code.alloc, name, offset)?;
        put_act(items, Act::Store(at, value))?;
        offset = after(offset, kind);
        rest = further_elements(rest);
        left -= 1;
    }
    Ok(())
}

// The offset of the next element.
#[tactic(auto, using(crate::proofs::Steps::bytes_few))]
fn after(offset: u32, kind: Integer) -> u32
    requires room { offset ≤ 32768 }
    ensures next { result ≡ offset + sizes.bytes_of_type kind }
    ensures within { result ≤ offset + 4 }
{
    offset + bytes_of_type(kind)
}

/// Puts what an array holds at first, if it is told.
pub fn put_array(
    code: Code<'_, '_>,
    items: &mut Vec<Item>,
    kind: Integer,
    name: &[u8],
    size: u32,
    firsts: &Option<Vec<Constant>>,
) -> Result<(), AllocError>
    requires few { count_at (unit_of code.table.now).words size ≤ most_elements }
    ensures { OnOk result
        (Makes items.old.items items.new.items
        (laws.array_items (program_in code.entry.table.now) kind name.now size
        (option_map (λ constants. constants.items) firsts.now))) }
{
    match firsts {
        Some(constants) => {
            let count = count_at(code.table.words(), size);
            put_elements(code, items, name, kind, count, constants)?;
            Ok(())
        }
        None => Ok(()),
    }
}

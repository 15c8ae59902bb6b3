//! Labels of a function, and jumps to them.

ghost use Rattle.std.specs.Prelude.{◌≡◌, ◌∷◌, IfOk, OnOk};
ghost use Rattle.c_lowered.specs.Conditions as laws;
ghost use Rattle.condition_lowering.specs.Views.{Makes, within_of};

use crate::code::Code;
use crate::items::{put, put_act};
use alf_program::{Item, Stmt as Act};
use flow_base::Name;
use object_layout::numbered_name;
use std::alloc::AllocError;

/// The name of the function's label of this number, as `f::L0` of the first one of `f`.
pub fn label_name(code: Code<'_, '_>, number: u64) -> Result<Name, AllocError>
    ensures { IfOk result (λ name. name ≡ laws.label (within_of code.entry) number) }
{
    numbered_name(
        code.alloc,
        code.table.function_name(code.function),
        b"L",
        number,
    )
}

/// Puts the function's label of this number.
pub fn put_label(code: Code<'_, '_>, items: &mut Vec<Item>, number: u64) -> Result<(), AllocError>
    ensures { OnOk result
        (Makes items.old.items items.new.items (λ rest. laws.label_item (within_of code.entry) number ∷ rest)) }
{
    let name = label_name(code, number)?;
    put(items, Item::Label(name))?;
    Ok(())
}

/// Puts a jump to the function's label of this number.
pub fn put_jump(code: Code<'_, '_>, items: &mut Vec<Item>, number: u64) -> Result<(), AllocError>
    ensures { OnOk result
        (Makes items.old.items items.new.items (λ rest. laws.jump (within_of code.entry) number ∷ rest)) }
{
    let name = label_name(code, number)?;
    put_act(items, Act::Jump(name))?;
    Ok(())
}

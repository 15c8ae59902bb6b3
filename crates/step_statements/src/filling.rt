//! Cells filled, and what frames hold at first.

ghost use Rattle.std.specs.Prelude.{◌≡◌, OnOk, ◌∷◌, []};
ghost use Rattle.memory_model.specs.KeptMemories.{memory_in, rows_of, IsMemory};
ghost use Rattle.transfer_rules.specs.CellStores.{IsCellAt};
ghost use Rattle.transfer_rules.specs.Evaluating.{width_of};
ghost use Rattle.transfer_rules.specs.Filling.{filled, with_inits};
ghost use Rattle.step_statements.specs.Typed.{IsStorable};
ghost use Rattle.step_statements.specs.Rooms.{HasRoom, HaveRoom};

use crate::storing::store_at;
use abstract_memory::AMem;
use alf_check::InitRow;
use interval_congruence::Strided;
use pointer_domain::AVal;
use std::alloc::{AllocError, Global};

/// Puts a value in a cell of an active frame. After want of memory the memory is given up.
pub fn fill(
    alloc: Global,
    memory: &mut AMem<'_>,
    frame: u32,
    offset: u32,
    value: &AVal,
) -> Result<(), AllocError>
    requires kept { IsMemory memory.old }
    requires value { IsStorable value.now }
    requires cell { IsCellAt (rows_of memory.old.checked) (memory_in memory.old).runs frame offset
        (width_of value.now) }
    ensures checked { OnOk result (memory.new.checked ≡ memory.old.checked) }
    ensures kept { OnOk result (IsMemory memory.new) }
    ensures filled { OnOk result
        (memory_in memory.new ≡ filled (memory_in memory.old) frame offset (width_of value.now) value.now) }
{
    store_at(alloc, memory, frame, offset, value)?;
    Ok(())
}

/// Puts a word in a cell of an active frame.
fn put_word(alloc: Global, memory: &mut AMem<'_>, init: &InitRow) -> Result<(), AllocError>
    requires kept { IsMemory memory.old }
    requires room { HasRoom memory.old init.now }
    ensures checked { OnOk result (memory.new.checked ≡ memory.old.checked) }
    ensures kept { OnOk result (IsMemory memory.new) }
    ensures filled { OnOk result (memory_in memory.new ≡ with_inits (init.now ∷ []) (memory_in memory.old)) }
{
    let word = AVal::word(alloc, Strided::one_word(init.num.size, init.num.bits));
    fill(alloc, memory, init.frame, init.offset, &word)
}

/// Puts the words that frames hold at first, in their order. After want of memory the memory is given up.
pub fn put_inits(alloc: Global, memory: &mut AMem<'_>, inits: &[InitRow]) -> Result<(), AllocError>
    requires kept { IsMemory memory.old }
    requires room { HaveRoom memory.old inits.now }
    ensures checked { OnOk result (memory.new.checked ≡ memory.old.checked) }
    ensures kept { OnOk result (IsMemory memory.new) }
    ensures filled { OnOk result (memory_in memory.new ≡ with_inits inits.now (memory_in memory.old)) }
{
    let mut rest = inits;
    while let Some((init, others)) = rest.split_first() {
        put_word(alloc, memory, init)?;
        rest = others;
    }
    Ok(())
}

//! The memory at the start of runs.

ghost use Rattle.std.specs.Prelude.{◌≡◌, ◌∷◌, [], IfOk, OnOk};
ghost use Rattle.alf_check.specs.CheckedPrograms.{seen};
ghost use Rattle.alf_check.specs.Inputs.{KeepInputs};
ghost use Rattle.memory_model.specs.KeptMemories.{memory_in, IsMemory};
ghost use Rattle.transfer_rules.specs.Filling.{range_of, with_inputs, first_memory};
ghost use Rattle.transfer_rules.specs.PartMachines.{IsOwn};
ghost use Rattle.abstract_step.specs.Inputs.{IsRange, HasInputRoom, HaveInputRoom};

use abstract_memory::AMem;
use alf_check::{Checked, InputRow};
use interval_congruence::Strided;
use pointer_domain::AVal;
use std::alloc::{AllocError, Global};
use step_statements::{enter_plainly, fill, put_inits};

/// The words of an input inside its range.
fn range(row: &InputRow) -> Strided
    requires { IsRange row.now }
    ensures { result ≡ range_of row.now }
{
    let step = if row.low < row.high { 1 } else { 0 };
    Strided::norm(row.size, row.low, row.high, step)
}

/// Puts an input inside its range. After want of memory the memory is given up.
fn put_input(alloc: Global, memory: &mut AMem<'_>, row: &InputRow) -> Result<(), AllocError>
    requires kept { IsMemory memory.old }
    requires room { HasInputRoom memory.old row.now }
    ensures checked { OnOk result (memory.new.checked ≡ memory.old.checked) }
    ensures kept { OnOk result (IsMemory memory.new) }
    ensures filled { OnOk result (memory_in memory.new ≡ with_inputs (row.now ∷ []) (memory_in memory.old)) }
{
    let words = AVal::word(alloc, range(row));
    fill(alloc, memory, row.frame, row.offset, &words)
}

/// Puts each input inside its range, in their order. After want of memory the memory is given up.
fn put_inputs(alloc: Global, memory: &mut AMem<'_>, rows: &[InputRow]) -> Result<(), AllocError>
    requires kept { IsMemory memory.old }
    requires room { HaveInputRoom memory.old rows.now }
    ensures checked { OnOk result (memory.new.checked ≡ memory.old.checked) }
    ensures kept { OnOk result (IsMemory memory.new) }
    ensures filled { OnOk result (memory_in memory.new ≡ with_inputs rows.now (memory_in memory.old)) }
{
    let mut rest = rows;
    while let Some((row, others)) = rest.split_first() {
        put_input(alloc, memory, row)?;
        rest = others;
    }
    Ok(())
}

/// What frames hold where runs start: the root is entered, and each input is inside its range.
pub(crate) fn first_memory<'a>(
    alloc: Global,
    checked: &'a Checked,
    rows: &[InputRow],
) -> Result<AMem<'a>, AllocError>
    requires { KeepInputs (seen checked.now) rows.now }
    ensures own { IfOk result (IsOwn checked.now) }
    ensures first { IfOk result (λ memory. memory_in memory ≡ first_memory (seen checked.now) rows.now) }
{
    checked.keeps();
    let mut memory = AMem::new(alloc, checked)?;
    put_inits(alloc, &mut memory, checked.inits())?;
    enter_plainly(alloc, &mut memory, checked, checked.root())?;
    put_inputs(alloc, &mut memory, rows)?;
    Ok(memory)
}

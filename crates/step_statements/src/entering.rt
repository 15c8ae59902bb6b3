//! Functions entered with their arguments.

ghost use Rattle.std.specs.Prelude.{◌≡◌, ◌<◌, [], OnOk, length};
ghost use Rattle.alf_check.specs.CheckedPrograms.{seen};
ghost use Rattle.memory_model.specs.KeptMemories.{memory_in, IsMemory};
ghost use Rattle.transfer_rules.specs.Filling.{with_arguments, entered_with};
ghost use Rattle.step_statements.specs.Arguments.{HaveFrames, FitCall};

use crate::filling::{fill, put_inits};
use abstract_memory::AMem;
use alf_check::Checked;
use pointer_domain::AVal;
use std::alloc::{AllocError, Global};

/// Puts each value at the start of the frame of its argument. After want of memory the memory is given up.
fn put_arguments(
    alloc: Global,
    memory: &mut AMem<'_>,
    args: &[u32],
    values: &[AVal],
) -> Result<(), AllocError>
    requires kept { IsMemory memory.old }
    requires frames { HaveFrames memory.old args.now values.now }
    ensures checked { OnOk result (memory.new.checked ≡ memory.old.checked) }
    ensures kept { OnOk result (IsMemory memory.new) }
    ensures filled { OnOk result (memory_in memory.new ≡ with_arguments args.now values.now (memory_in memory.old)) }
{
    let mut rest = args;
    let mut left = values;
    while let Some((frame, others)) = rest.split_first() {
        let Some((value, further)) = left.split_first() else {
            return Ok(());
        };
        fill(alloc, memory, *frame, 0, value)?;
        rest = others;
        left = further;
    }
    Ok(())
}

/// Enters a function with the values of its arguments, and puts what its frames hold at first. After want of memory
/// the memory is given up.
pub fn enter(
    alloc: Global,
    memory: &mut AMem<'_>,
    checked: &Checked,
    func: u32,
    values: &[AVal],
) -> Result<(), AllocError>
    requires kept { IsMemory memory.old }
    requires program { memory.old.checked ≡ checked.now }
    requires func { func < length (seen checked.now).funcs }
    requires call { FitCall (seen checked.now) func values.now }
    ensures checked { OnOk result (memory.new.checked ≡ memory.old.checked) }
    ensures kept { OnOk result (IsMemory memory.new) }
    ensures entered { OnOk result
        (memory_in memory.new ≡ entered_with (seen checked.now) func values.now (memory_in memory.old)) }
{
    checked.keeps();
    let row = checked.func(func);
    memory.enter(alloc, func)?;
    put_arguments(alloc, memory, &row.args, values)?;
    put_inits(alloc, memory, &row.inits)
}

/// Enters a function whose arguments are given nothing, as the root is entered, and puts what its frames hold at first.
/// After want of memory the memory is given up.
pub fn enter_plainly(
    alloc: Global,
    memory: &mut AMem<'_>,
    checked: &Checked,
    func: u32,
) -> Result<(), AllocError>
    requires kept { IsMemory memory.old }
    requires program { memory.old.checked ≡ checked.now }
    requires func { func < length (seen checked.now).funcs }
    ensures checked { OnOk result (memory.new.checked ≡ memory.old.checked) }
    ensures kept { OnOk result (IsMemory memory.new) }
    ensures entered { OnOk result
        (memory_in memory.new ≡ entered_with (seen checked.now) func [] (memory_in memory.old)) }
{
    checked.keeps();
    let row = checked.func(func);
    memory.enter(alloc, func)?;
    put_inits(alloc, memory, &row.inits)?;
    Ok(())
}

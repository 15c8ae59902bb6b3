//! The memory that runs leave.

ghost use Rattle.std.specs.Prelude.{◌≡◌, List, map, IfOk, IfSome};
ghost use Rattle.alf_ops.specs.declared.history.RunEvent.{RunEvent};
ghost use Rattle.alf_check.specs.CheckedPrograms.{act_of, seen};
ghost use Rattle.memory_model.specs.KeptMemories.{rows_of, IsMemory};
ghost use Rattle.left_cells.specs.Ends.{AreOfOne, IsAfter, StandsIn, IsLike};

use abstract_memory::AMem;
use alf_check::Act;
use alf_runs::values_have_their_size;
use std::alloc::{AllocError, Global};
use step_statements::do_statements;

/// The memory after the statements of a block; None where no run goes on after them.
///
/// It stands for the history after the statements, whichever history the memory before them stood for.
pub fn left_memory<'a>(
    alloc: Global,
    memory: AMem<'a>,
    acts: &[Act],
) -> Result<Option<AMem<'a>>, AllocError>
    requires keep { AreOfOne (seen memory.checked) (map act_of acts.now) }
    requires kept { IsMemory memory }
    ensures like { IfOk result (λ left. IfSome left (IsLike memory.entry)) }
    ensures stands { IfOk result
        (λ left. (later : List RunEvent) → IsAfter memory.entry.checked (map act_of acts.now) memory.entry later
        → StandsIn (rows_of memory.entry.checked) left later) }
{
    values_have_their_size();
    let mut after = memory;
    let (goes_on, _) = do_statements(alloc, &mut after, acts)?;
    if !goes_on {
        return Ok(None);
    }
    Ok(Some(after))
}

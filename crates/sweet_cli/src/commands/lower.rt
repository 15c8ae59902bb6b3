//! `lower FILE`: the canonical text of the program of ALF that a file of C is lowered to.

ghost use Rattle.std.specs.Prelude.{IfOk};
ghost use Rattle.command_plans.specs.Works.{Works};
ghost use Rattle.sweet_cli.specs.Words.{lower_meant};
ghost use Rattle.sweet_cli.specs.Task.{IsPromised};
ghost use Rattle.sweet_cli.specs.Lower.{lower, lowering};

use crate::words::LowerWords;
use alf_text::{print, writable_programs_are_spelled};
use c_lower::lower_text;
use command_plans::Stop;
use flow_base::Shelf;
use program_files::checked_unit_in;
use std::alloc::Global;

/// The canonical text.
#[tactic(auto, unfolding(crate::specs::Lower::lowering))]
pub fn lower<F: Shelf>(alloc: Global, given: LowerWords<'_>, shelf: &mut F) -> Result<Vec<u8>, Stop>
    ensures work { Works (lowering (lower_meant given.entry)) (λ text. text.items) (F.state shelf.old) result
        (F.state shelf.new) }
    ensures promise { IfOk result
        (λ text. IsPromised (lower (lower_meant given.entry)) (F.state shelf.old) (F.state shelf.new) text.items) }
{
    // What canonical texts spell, as the promise needs it.
    writable_programs_are_spelled();
    let program = checked_unit_in(alloc, given.file, given.root, shelf)?;
    let lowered = lower_text(alloc, &program)?;
    let text = print(alloc, &lowered)?;
    Ok(text)
}

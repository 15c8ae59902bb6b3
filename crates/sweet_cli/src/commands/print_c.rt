//! `print FILE` of a file of C: the canonical text of the unit.

ghost use Rattle.std.specs.Prelude.{IfOk};
ghost use Rattle.command_plans.specs.Works.{Works};
ghost use Rattle.sweet_cli.specs.Task.{IsPromised};
ghost use Rattle.sweet_cli.specs.PrintC.{print_c, printing_c};

use c_text::{print as print_unit, spelled_units_are_read_back};
use command_plans::Stop;
use flow_base::Shelf;
use program_files::unit_in;
use std::alloc::Global;

/// The canonical text.
pub fn print_c<F: Shelf>(alloc: Global, file: &str, shelf: &mut F) -> Result<Vec<u8>, Stop>
    ensures work { Works (printing_c file.now) (λ text. text.items) (F.state shelf.old) result (F.state shelf.new) }
    ensures promise { IfOk result
        (λ text. IsPromised (print_c file.now) (F.state shelf.old) (F.state shelf.new) text.items) }
{
    // That canonical texts are read back, as the promise needs it.
    spelled_units_are_read_back();
    let text = printing_c(alloc, file, shelf)?;
    Ok(text)
}

// The order of work.
#[tactic(auto, unfolding(crate::specs::PrintC::printing_c))]
fn printing_c<F: Shelf>(alloc: Global, file: &str, shelf: &mut F) -> Result<Vec<u8>, Stop>
    ensures { Works (printing_c file.now) (λ text. text.items) (F.state shelf.old) result (F.state shelf.new) }
{
    let unit = unit_in(alloc, file, shelf)?;
    let text = print_unit(alloc, &unit)?;
    Ok(text)
}

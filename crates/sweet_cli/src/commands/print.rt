//! `print FILE`: the canonical text of the program.

ghost use Rattle.std.specs.Prelude.{IfOk};
ghost use Rattle.command_plans.specs.Works.{Works};
ghost use Rattle.sweet_cli.specs.Task.{IsPromised};
ghost use Rattle.sweet_cli.specs.Print.{print, printing};

use alf_text::{canonical_texts_are_read_back, print as print_program};
use command_plans::Stop;
use flow_base::Shelf;
use program_files::program_in;
use std::alloc::Global;

/// The canonical text.
pub fn print<F: Shelf>(alloc: Global, file: &str, shelf: &mut F) -> Result<Vec<u8>, Stop>
    ensures work { Works (printing file.now) (λ text. text.items) (F.state shelf.old) result (F.state shelf.new) }
    ensures promise { IfOk result
        (λ text. IsPromised (print file.now) (F.state shelf.old) (F.state shelf.new) text.items) }
{
    // What canonical texts spell, as the promise needs it.
    canonical_texts_are_read_back();
    let text = printing(alloc, file, shelf)?;
    Ok(text)
}

// The order of work.
#[tactic(auto, unfolding(crate::specs::Print::printing))]
fn printing<F: Shelf>(alloc: Global, file: &str, shelf: &mut F) -> Result<Vec<u8>, Stop>
    ensures { Works (printing file.now) (λ text. text.items) (F.state shelf.old) result (F.state shelf.new) }
{
    let program = program_in(alloc, file, shelf)?;
    let text = print_program(alloc, &program)?;
    Ok(text)
}

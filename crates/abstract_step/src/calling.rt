//! Calls.

ghost use Rattle.std.specs.Prelude.{ℕ, List, Option, IfOk, map};
ghost use Rattle.alf_program.specs.Tree.{NumberedExpression};
ghost use Rattle.alf_check.specs.CheckedPrograms.{Call, seen, term_of};
ghost use Rattle.alf_runs.specs.Steps.{frames_of};
ghost use Rattle.memory_model.specs.KeptMemories.{memory_in};
ghost use Rattle.transfer_rules.specs.Remains.{goes_on};
ghost use Rattle.transfer_rules.specs.Evaluating.{arguments_at};
ghost use Rattle.transfer_rules.specs.Stepping.{call_to};
ghost use Rattle.step_statements.specs.Arguments.{FitCall};
ghost use Rattle.transfer_rules.specs.PartMachines.{IsOwn};
ghost use Rattle.abstract_step.specs.Standing.{path_at, StandsAt, IsCallAt};
ghost use Rattle.abstract_step.specs.Turns.{IsTurn};

use crate::here::Here;
use crate::turns::{after, nowhere, to_node};
use abstract_memory::AMem;
use alf_check::Term;
use domain_core::Stepped;
use pointer_domain::AVal;
use std::alloc::{AllocError, Global};
use step_statements::{enter, evaluate_arguments};

/// A call: the arguments are evaluated in order, and then the function is entered.
pub(crate) fn call<'a>(
    alloc: Global,
    here: &Here<'_>,
    func: u32,
    args: &[Term],
    memory: AMem<'a>,
) -> Result<Stepped<AMem<'a>>, AllocError>
    requires stands { IsCallAt here.now func (map term_of args.now) }
    requires own { IsOwn here.now.checked memory }
    ensures { (block next : ℕ) (to : Option (ℕ × ℕ))
        → StandsAt here.now block (Call func (map term_of args.now) to next)
        → IfOk result (λ stepped. IsTurn here.now stepped.next.items stepped.faults
        (goes_on (arguments_at (frames_of (seen here.now.checked)) (memory_in memory.entry) (map term_of args.now))
        (call_to (seen here.now.checked) (path_at here.now) block func (memory_in memory.entry)))) }
{
    let (values, faults) = evaluate_arguments(alloc, &memory, args)?;
    match values {
        None => Ok(nowhere(alloc, here, faults)),
        Some(values) => {
            let stepped = go_in(alloc, here, func, &values, memory)?;
            Ok(after(faults, stepped))
        }
    }
}

/// To the entry of the function, with the values of its arguments.
fn go_in<'a>(
    alloc: Global,
    here: &Here<'_>,
    func: u32,
    values: &[AVal],
    memory: AMem<'a>,
) -> Result<Stepped<AMem<'a>>, AllocError>
    requires call { FitCall (seen here.now.checked) func values.now }
    requires own { IsOwn here.now.checked memory }
    ensures { (block next : ℕ) (args : List NumberedExpression) (to : Option (ℕ × ℕ))
        → StandsAt here.now block (Call func args to next)
        → IfOk result
        (λ stepped. IsTurn here.now stepped.next.items stepped.faults
        (call_to (seen here.now.checked) (path_at here.now) block func (memory_in memory.entry) values.now)) }
{
    let mut memory = memory;
    enter(alloc, &mut memory, here.checked(), func, values)?;
    to_node(alloc, here, None, memory)
}

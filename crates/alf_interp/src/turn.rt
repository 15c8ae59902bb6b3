//! What a node's step does, but for the number of the next node.

ghost use Rattle.std.specs.Prelude.{◌≡◌, ◌<◌, ℕ, List, IfSome, Option, Some, None, length, map, reverse, slice_get};
ghost use Rattle.alf_ops.specs.declared.history.RunEvent.{RunEvent};
ghost use Rattle.alf_ops.specs.Pointers.{operands};
ghost use Rattle.alf_check.specs.CheckedPrograms.{NumberedProgram, Return, seen, end_of, term_of, blocks_at};
ghost use Rattle.alf_check.specs.Kept.{KeepsEnding, IsBlockOf};
ghost use Rattle.alf_values.specs.Memories.{shapes, IsMadeFor};
ghost use Rattle.alf_values.specs.Standing.{StandsFor, IsStorable};
ghost use Rattle.flow_graph.specs.Nodes.{ending_at};
ghost use Rattle.flow_graph.specs.Paths.{IsCall, HasBlock};
ghost use Rattle.flow_graph.specs.Places.{node_at};
ghost use Rattle.alf_runs.specs.Expressions.{value_of};
ghost use Rattle.alf_runs.specs.Outcomes.{Ended, outputs};
ghost use Rattle.alf_runs.specs.PlaceLaws.{IsPlaced};
ghost use Rattle.alf_runs.specs.Steps.{At, Over, step, frames_of, target_of, switch_step, call_step, result_step};
ghost use Rattle.alf_runs.specs.Steps.{go_back, leave, ending_step, block_step};
ghost use Rattle.alf_interp.specs.Doing.{Remembers};
ghost use Rattle.alf_interp.specs.Typed.{IsTyped};
ghost use Rattle.alf_interp.specs.Turns.{Turns, IsKeptCall, IsInstance, IsCaller, IsCallerOf, IsTaken};

use crate::filling::enter;
use crate::moved::Outputs;
use crate::outputs::outputs_of;
use crate::statements::run_statements;
use crate::values::{value, values};
use alf_check::{BlockEnd, Checked, Term};
use alf_ops::{RunFault, Value};
use alf_runs::{starts_and_calls_store_without_a_fault, values_have_their_size};
use alf_values::{Frames, ValueFault};
use std::alloc::Global;

/// How a step ends that has no fault.
#[derive(Drop)]
pub enum Turn {
    /// The run goes on at the node with this block to which an edge leads, or at an entry.
    On(Option<u32>),
    /// The run is at its end, with its outputs.
    Ended(Outputs),
}

/// Where a step is made: the blocks of the calls that lead there, from the root on, and the function;
/// and the function of the last of these calls.
#[derive(Clone, Copy)]
pub struct Instance<'a> {
    pub path: &'a [u32],
    pub func: u32,
    pub caller: u32,
}

/// A step from a block, or from an entry, which only moves on.
pub fn take_turn(
    alloc: Global,
    checked: &Checked,
    instance: &Instance<'_>,
    block: Option<u32>,
    frames: &mut Frames,
) -> Result<Turn, ValueFault>
    requires here { IsInstance (seen checked.now) (reverse instance.now.path.now) instance.now.func }
    requires block { HasBlock (seen checked.now) instance.now.func block }
    requires caller { IsCaller (seen checked.now) (reverse instance.now.path.now) block instance.now.caller }
    requires made { IsMadeFor (seen checked.now) frames.old }
    requires remembers { Remembers frames.old }
    ensures made { IsMadeFor (seen checked.now) frames.new }
    ensures turns { (history : List RunEvent) → StandsFor frames.old history
        → IsPlaced (seen checked.now) (step (seen checked.now) (At (node_at instance.now.path.now block) history))
        → Turns frames.new (step (seen checked.now) (At (node_at instance.now.path.now block) history)) result }
{
    match block {
        None => Ok(Turn::On(Some(0))),
        Some(block) => run_block(alloc, checked, instance, block, frames),
    }
}

// A block: its statements in order, and then its ending.
fn run_block(
    alloc: Global,
    checked: &Checked,
    instance: &Instance<'_>,
    block: u32,
    frames: &mut Frames,
) -> Result<Turn, ValueFault>
    requires here { IsInstance (seen checked.now) (reverse instance.now.path.now) instance.now.func }
    requires block { IsBlockOf (seen checked.now) instance.now.func block }
    requires caller { IsCaller (seen checked.now) (reverse instance.now.path.now) (Some block) instance.now.caller }
    requires made { IsMadeFor (seen checked.now) frames.old }
    requires remembers { Remembers frames.old }
    ensures made { IsMadeFor (seen checked.now) frames.new }
    ensures turns { (history : List RunEvent) → StandsFor frames.old history
        → IsPlaced (seen checked.now)
        (block_step (seen checked.now) (reverse instance.now.path.now) block
        (slice_get (blocks_at (seen checked.now) instance.now.func) block) history)
        → Turns frames.new
        (block_step (seen checked.now) (reverse instance.now.path.now) block
        (slice_get (blocks_at (seen checked.now) instance.now.func) block) history) result }
{
    let row = checked.block(instance.func, block);
    run_statements(frames, &row.stmts)?;
    end_block(alloc, checked, instance, block, &row.end, frames)
}

// The ending of a block.
fn end_block(
    alloc: Global,
    checked: &Checked,
    instance: &Instance<'_>,
    block: u32,
    end: &BlockEnd,
    frames: &mut Frames,
) -> Result<Turn, ValueFault>
    requires here { IsInstance (seen checked.now) (reverse instance.now.path.now) instance.now.func }
    requires ends { ending_at (seen checked.now) instance.now.func block ≡ Some (end_of end.now) }
    requires keeps { KeepsEnding (seen checked.now) instance.now.func block (end_of end.now) }
    requires caller { IsCaller (seen checked.now) (reverse instance.now.path.now) (Some block) instance.now.caller }
    requires made { IsMadeFor (seen checked.now) frames.old }
    requires remembers { Remembers frames.old }
    ensures made { IsMadeFor (seen checked.now) frames.new }
    ensures turns { (history : List RunEvent) → StandsFor frames.old history
        → IsPlaced (seen checked.now)
        (ending_step (seen checked.now) (reverse instance.now.path.now) block (end_of end.now) history)
        → Turns frames.new
        (ending_step (seen checked.now) (reverse instance.now.path.now) block (end_of end.now) history) result }
{
    checked.keeps();
    match end {
        BlockEnd::Fall(next) => Ok(Turn::On(Some(*next))),
        BlockEnd::Jump(to) => Ok(Turn::On(Some(*to))),
        BlockEnd::Switch(term, targets, others) => switch(frames, term, targets, *others),
        BlockEnd::Call { func, args, .. } => call(alloc, checked, *func, args, frames),
        BlockEnd::Return(None) => leave(alloc, checked, instance, None, frames),
        BlockEnd::Return(Some(term)) => {
            let returned = value(frames, term)?;
            leave(alloc, checked, instance, Some(returned), frames)
        }
    }
}

// A switch: it takes the first target that equals the value, else the block of every other.
fn switch(
    frames: &Frames,
    term: &Term,
    targets: &[(u64, u32)],
    others: u32,
) -> Result<Turn, ValueFault>
    requires typed { IsTyped (term_of term.now) }
    requires remembers { Remembers frames.now }
    ensures { (path : List ℕ) (history : List RunEvent) → StandsFor frames.now history
        → Turns frames.now
        (switch_step path targets.now others history (value_of (shapes frames.now) history (term_of term.now))) result }
{
    match value(frames, term)? {
        Value::Int { bits, .. } => Ok(Turn::On(Some(target_of(targets, others, bits)))),
        Value::Ptr { .. } => Err(ValueFault::Run(RunFault::Kind)),
    }
}

// The block of the first target of this word, else that of every other word.
fn target_of(targets: &[(u64, u32)], others: u32, word: u64) -> u32
    ensures { result ≡ target_of targets.now others word }
{
    let mut rest = targets;
    while let Some((target, further)) = rest.split_first() {
        if target.0 == word {
            return target.1;
        }
        rest = further;
    }
    others
}

// A call: the arguments are evaluated, and then the function is entered.
fn call(
    alloc: Global,
    checked: &Checked,
    func: u32,
    args: &[Term],
    frames: &mut Frames,
) -> Result<Turn, ValueFault>
    requires call { IsKeptCall (seen checked.now) func (map term_of args.now) }
    requires made { IsMadeFor (seen checked.now) frames.old }
    requires remembers { Remembers frames.old }
    ensures made { IsMadeFor (seen checked.now) frames.new }
    ensures turns { (path : List ℕ) (block : ℕ) (history : List RunEvent) → StandsFor frames.old history
        → Turns frames.new
        (call_step (seen checked.now) path block func history
        (operands (map (value_of (frames_of (seen checked.now)) history) (map term_of args.now)))) result }
{
    checked.keeps();
    values_have_their_size();
    starts_and_calls_store_without_a_fault();
    let given = values(alloc, frames, args)?;
    enter(checked, frames, func, &given)?;
    Ok(Turn::On(None))
}

// A function is left: the root's return ends the run, any other goes back to its call.
fn leave(
    alloc: Global,
    checked: &Checked,
    instance: &Instance<'_>,
    returned: Option<Value>,
    frames: &mut Frames,
) -> Result<Turn, ValueFault>
    requires here { IsInstance (seen checked.now) (reverse instance.now.path.now) instance.now.func }
    requires caller { IsCallerOf (seen checked.now) (reverse instance.now.path.now) instance.now.caller }
    requires taken { IsTaken (reverse instance.now.path.now) returned }
    requires made { IsMadeFor (seen checked.now) frames.old }
    ensures made { IsMadeFor (seen checked.now) frames.new }
    ensures turns { (history : List RunEvent) → StandsFor frames.old history
        → IsPlaced (seen checked.now) (leave (seen checked.now) (reverse instance.now.path.now) returned history)
        → Turns frames.new (leave (seen checked.now) (reverse instance.now.path.now) returned history) result }
{
    frames.leave(instance.func);
    match instance.path.split_last() {
        None => end(alloc, checked, returned, frames),
        Some((block, _)) => go_back(checked, instance.caller, *block, returned, frames),
    }
}

// The end of the run.
fn end(
    alloc: Global,
    checked: &Checked,
    returned: Option<Value>,
    frames: &Frames,
) -> Result<Turn, ValueFault>
    requires { IsMadeFor (seen checked.now) frames.now }
    ensures { (history : List RunEvent) → StandsFor frames.now history
        → Turns frames.now (Over (Ended (outputs (seen checked.now) returned history))) result }
{
    match outputs_of(alloc, checked, frames, returned) {
        Ok(outputs) => Ok(Turn::Ended(outputs)),
        Err(_) => Err(ValueFault::Memory),
    }
}

// Back to the call that stands in a block of the caller.
fn go_back(
    checked: &Checked,
    caller: u32,
    block: u32,
    returned: Option<Value>,
    frames: &mut Frames,
) -> Result<Turn, ValueFault>
    requires func { caller < length (seen checked.now).funcs }
    requires call { IsCall (seen checked.now) caller block }
    requires storable { IfSome returned IsStorable }
    requires made { IsMadeFor (seen checked.now) frames.old }
    ensures made { IsMadeFor (seen checked.now) frames.new }
    ensures turns { (path : List ℕ) (history : List RunEvent) → StandsFor frames.old history
        → IsPlaced (seen checked.now)
        (go_back (seen checked.now) path (ending_at (seen checked.now) caller block) returned history)
        → Turns frames.new
        (go_back (seen checked.now) path (ending_at (seen checked.now) caller block) returned history) result }
{
    checked.keeps();
    match &checked.block(caller, block).end {
        BlockEnd::Call {
            result: to,
            next,
            ..
        } => store_result(*to, *next, returned, frames),
        _ => unreachable!(),
    }
}

// The result is stored where the call wants it, and the run goes on after the call.
fn store_result(
    to: Option<(u32, u32)>,
    next: u32,
    returned: Option<Value>,
    frames: &mut Frames,
) -> Result<Turn, ValueFault>
    requires storable { IfSome returned IsStorable }
    ensures shapes { shapes frames.new ≡ shapes frames.old }
    ensures functions { length frames.new.running ≡ length frames.old.running }
    ensures turns { (program : NumberedProgram) (path : List ℕ) (history : List RunEvent)
        → shapes frames.old ≡ frames_of program → StandsFor frames.old history
        → IsPlaced program (result_step program path next to returned history)
        → Turns frames.new (result_step program path next to returned history) result }
{
    match (to, returned) {
        (Some((frame, offset)), Some(value)) => match frames.store(
            Value::Ptr { frame, offset },
            value,
        ) {
            Ok(()) => Ok(Turn::On(Some(next))),
            Err(fault) => Err(fault),
        },
        (None, None) => Ok(Turn::On(Some(next))),
        (None, Some(_)) => Ok(Turn::On(Some(next))),
        (Some(_), None) => Ok(Turn::On(Some(next))),
    }
}

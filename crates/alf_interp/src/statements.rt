//! Statements that follow one another.

ghost use Rattle.std.specs.Prelude.{◌≡◌, List, Ok, length, map};
ghost use Rattle.std.specs.List.{AllByRecursion};
ghost use Rattle.alf_ops.specs.declared.history.RunEvent.{RunEvent};
ghost use Rattle.alf_check.specs.CheckedPrograms.{Store, act_of, term_of};
ghost use Rattle.alf_values.specs.Memories.{shapes};
ghost use Rattle.alf_values.specs.Standing.{StandsFor};
ghost use Rattle.alf_runs.specs.Statements.{after_statement, after_statements};
ghost use Rattle.alf_interp.specs.Doing.{Remembers, Does};
ghost use Rattle.alf_interp.specs.Typed.{IsTypedStatement};

use crate::values::value;
use alf_check::{Act, Term};
use alf_values::{Frames, ValueFault};

/// Statements in their order, or the first fault.
pub fn run_statements(frames: &mut Frames, acts: &[Act]) -> Result<(), ValueFault>
    requires typed { AllByRecursion IsTypedStatement (map act_of acts.now) }
    requires remembers { Remembers frames.old }
    ensures shapes { shapes frames.new ≡ shapes frames.old }
    ensures functions { length frames.new.running ≡ length frames.old.running }
    ensures does { (history : List RunEvent) → StandsFor frames.old history
        → Does frames.new (after_statements (shapes frames.old) (map act_of acts.now) (Ok history)) result }
{
    let mut rest = acts;
    while let Some((act, others)) = rest.split_first() {
        run_statement(frames, act)?;
        rest = others;
    }
    Ok(())
}

// A statement.
fn run_statement(frames: &mut Frames, act: &Act) -> Result<(), ValueFault>
    requires typed { IsTypedStatement (act_of act.now) }
    requires remembers { Remembers frames.old }
    ensures shapes { shapes frames.new ≡ shapes frames.old }
    ensures functions { length frames.new.running ≡ length frames.old.running }
    ensures does { (history : List RunEvent) → StandsFor frames.old history
        → Does frames.new (after_statement (shapes frames.old) (act_of act.now) history) result }
{
    match act {
        Act::Null => Ok(()),
        Act::Store(to, term) => store(frames, to, term),
    }
}

// A store: the address is evaluated first, then the value, and then the address is tested.
fn store(frames: &mut Frames, to: &Term, term: &Term) -> Result<(), ValueFault>
    requires typed { IsTypedStatement (Store (term_of to.now) (term_of term.now)) }
    requires remembers { Remembers frames.old }
    ensures shapes { shapes frames.new ≡ shapes frames.old }
    ensures functions { length frames.new.running ≡ length frames.old.running }
    ensures does { (history : List RunEvent) → StandsFor frames.old history
        → Does frames.new (after_statement (shapes frames.old) (Store (term_of to.now) (term_of term.now)) history)
        result }
{
    let place = value(frames, to)?;
    let stored = value(frames, term)?;
    frames.store(place, stored)
}

//! Functions entered, and what frames hold at first.

ghost use Rattle.std.specs.Prelude.{◌≡◌, ◌<◌, List, ◌∷◌, IfErr, OnOk, length};
ghost use Rattle.std.specs.List.{AllZip, AllByRecursion};
ghost use Rattle.alf_ops.specs.declared.history.RunEvent.{RunEvent};
ghost use Rattle.alf_ops.specs.Values.{size_of};
ghost use Rattle.alf_check.specs.CheckedPrograms.{seen};
ghost use Rattle.alf_values.specs.declared.fault.ValueFault.{ValueFault};
ghost use Rattle.alf_values.specs.Memories.{shapes, IsMadeFor};
ghost use Rattle.alf_values.specs.Standing.{StandsFor, IsStorable};
ghost use Rattle.alf_runs.specs.Entering.{with_arguments, with_inits, args_at, entered};
ghost use Rattle.alf_runs.specs.Starts.{with_inputs};
ghost use Rattle.alf_runs.specs.Steps.{frames_of};
ghost use Rattle.alf_interp.specs.Filling.{HasRoom, ArgumentsHaveRoom, InitsHaveRoom, InputsHaveRoom, IsInitWord};
ghost use Rattle.alf_interp.specs.Filling.{IsInputWord};

use alf_check::{Checked, InitRow, InputRow};
use alf_ops::Value;
use alf_values::{Frames, ValueFault};

/// Enters a function with the values of its arguments, and puts what its frames hold at first.
pub fn enter(
    checked: &Checked,
    frames: &mut Frames,
    func: u32,
    values: &[Value],
) -> Result<(), ValueFault>
    requires func { func < length (seen checked.now).funcs }
    requires made { IsMadeFor (seen checked.now) frames.old }
    requires storable { AllByRecursion IsStorable values.now }
    ensures made { IsMadeFor (seen checked.now) frames.new }
    ensures entered { OnOk result ((history : List RunEvent) → StandsFor frames.old history
        → ArgumentsHaveRoom (frames_of (seen checked.now)) (RunEvent.Enter func ∷ history)
        (args_at (seen checked.now) func) values.now
        → StandsFor frames.new (entered (seen checked.now) func values.now history)) }
    ensures refused { IfErr result (λ fault. fault ≡ ValueFault.Memory) }
{
    let row = checked.func(func);
    match frames.enter(func) {
        Ok(()) => {}
        Err(_) => return Err(ValueFault::Memory),
    }
    put_arguments(frames, &row.args, values);
    put_inits(frames, &row.inits);
    Ok(())
}

/// Puts what frames hold at first.
pub fn put_inits(frames: &mut Frames, inits: &[InitRow])
    requires words { AllByRecursion IsInitWord inits.now }
    ensures shapes { shapes frames.new ≡ shapes frames.old }
    ensures functions { length frames.new.running ≡ length frames.old.running }
    ensures puts { (history : List RunEvent) → StandsFor frames.old history
        → InitsHaveRoom (shapes frames.old) history inits.now → StandsFor frames.new (with_inits inits.now history) }
{
    let mut rest = inits;
    while let Some((init, others)) = rest.split_first() {
        put_word(
            frames,
            init.frame,
            init.offset,
            init.num.size,
            init.num.bits,
        );
        rest = others;
    }
}

/// Puts the words of inputs.
pub fn put_inputs(frames: &mut Frames, rows: &[InputRow], words: &[u64])
    requires words { AllZip IsInputWord rows.now words.now }
    ensures shapes { shapes frames.new ≡ shapes frames.old }
    ensures functions { length frames.new.running ≡ length frames.old.running }
    ensures puts { (history : List RunEvent) → StandsFor frames.old history
        → InputsHaveRoom (shapes frames.old) history rows.now words.now
        → StandsFor frames.new (with_inputs rows.now words.now history) }
{
    let mut rest = rows;
    let mut left = words;
    while let Some((row, other_rows)) = rest.split_first() {
        let Some((word, other_words)) = left.split_first() else {
            return;
        };
        put_word(frames, row.frame, row.offset, row.size, *word);
        rest = other_rows;
        left = other_words;
    }
}

// Puts each value at the start of the frame of its argument.
fn put_arguments(frames: &mut Frames, args: &[u32], values: &[Value])
    requires storable { AllByRecursion IsStorable values.now }
    ensures shapes { shapes frames.new ≡ shapes frames.old }
    ensures functions { length frames.new.running ≡ length frames.old.running }
    ensures puts { (history : List RunEvent) → StandsFor frames.old history
        → ArgumentsHaveRoom (shapes frames.old) history args.now values.now
        → StandsFor frames.new (with_arguments args.now values.now history) }
{
    let mut rest = args;
    let mut left = values;
    while let Some((arg, other_args)) = rest.split_first() {
        let Some((value, other_values)) = left.split_first() else {
            return;
        };
        put(frames, *arg, 0, *value);
        rest = other_args;
        left = other_values;
    }
}

// Puts a word.
fn put_word(frames: &mut Frames, frame: u32, offset: u32, size: u32, bits: u64)
    requires { IsStorable (Value.Int size bits) }
    ensures shapes { shapes frames.new ≡ shapes frames.old }
    ensures functions { length frames.new.running ≡ length frames.old.running }
    ensures puts { (history : List RunEvent) → StandsFor frames.old history
        → HasRoom (shapes frames.old) history frame offset (Value.Int size bits)
        → StandsFor frames.new (RunEvent.Store frame offset size (Value.Int size bits) ∷ history) }
{
    put(frames, frame, offset, Value::Int { size, bits });
}

// Puts a value where the store has no fault.
fn put(frames: &mut Frames, frame: u32, offset: u32, value: Value)
    requires { IsStorable value }
    ensures shapes { shapes frames.new ≡ shapes frames.old }
    ensures functions { length frames.new.running ≡ length frames.old.running }
    ensures puts { (history : List RunEvent) → StandsFor frames.old history
        → HasRoom (shapes frames.old) history frame offset value
        → StandsFor frames.new (RunEvent.Store frame offset (size_of value) value ∷ history) }
{
    // The store has no fault here, so that its answer says nothing.
    let _ = frames.store(Value::Ptr { frame, offset }, value);
}

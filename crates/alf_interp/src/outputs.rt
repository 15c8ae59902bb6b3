//! The outputs of a run.

ghost use Rattle.std.specs.Prelude.{◌≡◌, List, IfOk};
ghost use Rattle.alf_ops.specs.declared.history.RunEvent.{RunEvent};
ghost use Rattle.alf_check.specs.CheckedPrograms.{seen};
ghost use Rattle.alf_check.specs.Kept.{KeepsExport};
ghost use Rattle.alf_values.specs.Memories.{IsMadeFor};
ghost use Rattle.alf_values.specs.Standing.{StandsFor};
ghost use Rattle.alf_runs.specs.Outcomes.{exported, outputs};
ghost use Rattle.alf_interp.specs.Telling.{outputs_of};

use crate::moved::Outputs;
use alf_check::Checked;
use alf_ops::Value;
use alf_values::Frames;
use std::alloc::{AllocError, Global};

/// The value that the root returned, and what each exported frame holds.
pub fn outputs_of(
    alloc: Global,
    checked: &Checked,
    frames: &Frames,
    returned: Option<Value>,
) -> Result<Outputs, AllocError>
    requires { IsMadeFor (seen checked.now) frames.now }
    ensures { IfOk result
        (λ told. (history : List RunEvent) → StandsFor frames.now history
        → outputs (seen checked.now) returned history ≡ outputs_of told) }
{
    let mut globals = Vec::new(alloc);
    let exports = checked.exports();
    for frame in exports {
        globals.push(exported(checked, frames, *frame))?;
    }
    Ok(Outputs { returned, globals })
}

// What an exported frame holds as a whole, or none where its load would fault.
fn exported(checked: &Checked, frames: &Frames, frame: u32) -> Option<Value>
    requires made { IsMadeFor (seen checked.now) frames.now }
    requires keeps { KeepsExport (seen checked.now).frames frame }
    ensures { (history : List RunEvent) → StandsFor frames.now history
        → result ≡ exported (seen checked.now) history frame }
{
    let bits = checked.frames()[frame as usize].bits;
    match frames.load(Value::Ptr { frame, offset: 0 }, bits) {
        Ok(value) => Some(value),
        Err(_) => None,
    }
}

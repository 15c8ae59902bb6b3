//! The frames of globals.

ghost use Rattle.std.specs.Prelude.{◌≡◌, ◌++◌, map, IfOk, OnOk};
ghost use Rattle.alf_program.specs.Tree.{allocation_of};
ghost use Rattle.c_lowered.specs.Frames.{global_frame, global_frames};
ghost use Rattle.object_layout.specs.Views.{object_of, program_in};

use alf_program::Alloc;
use flow_base::Name;
use object_layout::{Object, Table};
use std::alloc::{AllocError, Global};

/// The frames of the globals, in order.
pub fn global_frames(alloc: Global, table: &Table<'_>) -> Result<Vec<Alloc>, AllocError>
    ensures { IfOk result (λ frames. map allocation_of frames.items ≡ global_frames (program_in table.now)) }
{
    let mut frames = Vec::new(alloc);
    let objects = table.objects();
    for object in objects {
        put_global(alloc, table, &mut frames, *object)?;
    }
    Ok(frames)
}

// Puts the frame of an object that no function owns.
fn put_global(
    alloc: Global,
    table: &Table<'_>,
    frames: &mut Vec<Alloc>,
    object: Object,
) -> Result<(), AllocError>
    ensures { OnOk result
        (map allocation_of frames.new.items
        ≡ map allocation_of frames.old.items ++ global_frame (program_in table.now) (object_of object)) }
{
    match object.owner {
        Some(_) => Ok(()),
        None => {
            let name = Name::new(alloc, table.frame_of(object.token))?;
            frames.push(Alloc {
                name,
                bits: object.bits,
            })?;
            Ok(())
        }
    }
}

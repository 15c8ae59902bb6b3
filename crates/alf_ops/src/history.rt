//! What a run stores and loads.

ghost use Rattle.std.specs.Prelude.{List};
ghost use Rattle.alf_ops.specs.declared.history.RunEvent.{RunEvent};

use std::marker::Model;

/// A value of a run.
#[derive(Clone, Copy, Debug, PartialEq, Eq)]
pub enum Value {
    /// A word: its size in bits, and the word, which is below 2 to the size.
    Int { size: u32, bits: u64 },
    /// A pointer: the number of a frame, and an offset in it, in bytes. Its size is 32 bits.
    Ptr { frame: u32, offset: u32 },
}

/// Why a run ends with a fault.
#[derive(Clone, Copy, Debug, PartialEq, Eq)]
pub enum RunFault {
    /// An operator divides by 0.
    Divide,
    /// A cell is loaded, and no store since the frame's function was entered covers one of its bytes.
    Uninit,
    /// A cell is loaded whose bytes are not all of one store of this very cell, and one of them is a
    /// pointer's.
    Mixed,
    /// A cell does not lie in its frame.
    Bounds,
    /// The frame of a cell is not active.
    Dead,
    /// A word stands where a pointer is wanted, or a pointer where no rule takes one.
    Kind,
    /// Pointers to different frames are subtracted or compared by order.
    Pointers,
}

/// What a run knows of a frame: the function that makes it anew each time it is entered, or None for a
/// global frame, and its size in bits.
#[derive(Clone, Copy, Debug, PartialEq, Eq)]
pub struct FrameShape {
    pub owner: Option<u32>,
    pub bits: u32,
}

/// What happens in a run that later loads depend on.
#[derive(Clone, Copy, Debug, PartialEq, Eq)]
pub enum RunEvent {
    /// The function with this number is entered.
    Enter(u32),
    /// The function with this number is left.
    Leave(u32),
    /// A value is stored at an offset in bytes, over a size in bits.
    Store {
        frame: u32,
        offset: u32,
        size: u32,
        value: Value,
    },
}

/// The events of a run so far, the newest first. Only contracts name it, and no call makes one.
#[derive(Drop)]
pub struct History {
    events: Vec<RunEvent>,
}

impl Model for History {
    ghost Value = { List RunEvent };

    ghost view = { λ history. history.events.items };
}

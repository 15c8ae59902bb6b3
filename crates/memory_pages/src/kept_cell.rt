//! A cell as a slot keeps it.

ghost use Rattle.std.specs.Prelude.{◌≡◌, IsTrue, IfOk};
ghost use Rattle.memory_pages.specs.Slots.{marked_kept};

use crate::held::{Held, copied_value, same_value};
use pointer_domain::AVal;
use std::alloc::{AllocError, Global};
use std::marker::Model;

/// A cell and its size in bits. The size and the flags share one word of the machine.
#[derive(Debug, Drop)]
pub struct KeptCell {
    size: u32,
    u: bool,
    x: bool,
    value: Option<AVal>,
}

impl Model for KeptCell {
    ghost use Rattle.memory_pages.specs.Slots.{SizedCell};

    ghost Value = { SizedCell };

    ghost view = { λ kept. record { size = kept.size; cell = record { value = kept.value; u = kept.u; x = kept.x } } };
}

impl KeptCell {
    /// The cell with its size in bits. Takes no memory.
    pub fn of(size: u32, cell: Held) -> KeptCell
        ensures { result ≡ record { size = size; cell = cell } }
    {
        KeptCell {
            size,
            u: cell.u,
            x: cell.x,
            value: cell.value,
        }
    }

    /// Its size in bits.
    pub fn size(&self) -> u32
        ensures { result ≡ self.now.size }
    {
        self.size
    }

    /// Its values, if there are some.
    pub fn value(&self) -> &Option<AVal>
        ensures { result.now ≡ self.now.cell.value }
    {
        &self.value
    }

    /// Perhaps some byte has no store.
    pub fn u(&self) -> bool
        ensures { result ≡ self.now.cell.u }
    {
        self.u
    }

    /// Perhaps every byte has a store and the cell is read from its bytes.
    pub fn x(&self) -> bool
        ensures { result ≡ self.now.cell.x }
    {
        self.x
    }

    /// A copy of the cell.
    pub fn copy(&self, alloc: Global) -> Result<Held, AllocError>
        ensures { IfOk result (λ copy. copy ≡ self.now.cell) }
    {
        Ok(Held {
            value: copied_value(alloc, &self.value)?,
            u: self.u,
            x: self.x,
        })
    }

    /// A copy of the cell with its size.
    pub(crate) fn copied(&self, alloc: Global) -> Result<KeptCell, AllocError>
        ensures { IfOk result (λ copy. copy ≡ self.now) }
    {
        Ok(KeptCell {
            size: self.size,
            u: self.u,
            x: self.x,
            value: copied_value(alloc, &self.value)?,
        })
    }

    /// A copy of the cell with its size, with `x` where it has more bits.
    pub(crate) fn marked(&self, alloc: Global, than: u32) -> Result<KeptCell, AllocError>
        ensures { IfOk result (λ copy. copy ≡ marked_kept than self.now) }
    {
        let mut copy = self.copied(alloc)?;
        if than < copy.size {
            copy.x = true;
        }
        Ok(copy)
    }

    /// True only where both are the same cell, of the same size.
    pub(crate) fn is_same(&self, other: &KeptCell) -> bool
        ensures { IsTrue result → self.now ≡ other.now }
    {
        self.size == other.size
            && self.u == other.u
            && self.x == other.x
            && same_value(&self.value, &other.value)
    }
}

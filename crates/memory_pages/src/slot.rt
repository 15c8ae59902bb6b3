//! What is kept at one offset of a frame.

ghost use Rattle.std.specs.Prelude.{◌≡◌, IsTrue, IfOk, OnOk, OnErr, map, ◌==◌, ◌++◌, ◌∷◌, [], nat_lt};
ghost use Rattle.std.specs.Option.{option_map};
ghost use Rattle.memory_pages.specs.Slots.{kept_in, bare, with_byte, with_cell, without_wider, with_wider_marked};
ghost use Rattle.memory_pages.specs.Slots.{marked_kept, cell_of, IsCellSize};

use crate::byte::Byte;
use crate::held::Held;
use crate::kept_byte::KeptByte;
use crate::kept_cell::KeptCell;
use std::alloc::{AllocError, Global};
use std::marker::Model;
use std::rc::Rc;

/// One byte of a frame, and the cells that begin at it.
#[derive(Debug, Drop)]
pub struct Slot {
    byte: KeptByte,
    cells: Vec<KeptCell>,
}

impl Model for Slot {
    ghost use Rattle.memory_pages.specs.Slots.{HeldSlot, slot_of};

    ghost Value = { HeldSlot };

    ghost view = { λ slot. slot_of slot.byte slot.cells.items };
}

/// The cell of this size.
fn find_cell(cells: &[KeptCell], size: u32) -> Option<&KeptCell>
    ensures { option_map (λ kept. kept.now.cell) result ≡ kept_in cells.now size }
{
    match cells.split_first() {
        None => None,
        Some((first, others)) => {
            if first.size() == size {
                Some(first)
            } else {
                find_cell(others, size)
            }
        }
    }
}

/// Copies of cells with their sizes.
fn copied_cells(alloc: Global, cells: &[KeptCell]) -> Result<Vec<KeptCell>, AllocError>
    ensures { IfOk result (λ copy. copy.items ≡ cells.now) }
{
    let mut copy = Vec::with_capacity(alloc, cells.len())?;
    for kept in cells {
        copy.push(kept.copied(alloc)?)?;
    }
    Ok(copy)
}

/// True only where both are the same cells in the same order.
fn same_cells(a: &[KeptCell], b: &[KeptCell]) -> bool
    ensures { IsTrue result → a.now ≡ b.now }
{
    let Some((first, others)) = a.split_first() else {
        return b.is_empty();
    };
    let Some((cell, cells)) = b.split_first() else {
        return false;
    };
    first.is_same(cell) && same_cells(others, cells)
}

/// Copies of cells with their sizes, with `x` where they have more bits.
fn marked_copies(alloc: Global, cells: &[KeptCell], than: u32) -> Result<Vec<KeptCell>, AllocError>
    ensures { IfOk result (λ copy. copy.items ≡ map (marked_kept than) cells.now) }
{
    let mut copy = Vec::with_capacity(alloc, cells.len())?;
    for kept in cells {
        copy.push(kept.marked(alloc, than)?)?;
    }
    Ok(copy)
}

/// Adds a cell with its size. Takes room for no more cells, since most slots keep one.
fn push_kept(cells: &mut Vec<KeptCell>, kept: KeptCell) -> Result<(), AllocError>
    ensures { OnOk result (cells.new.items ≡ cells.old.items ++ kept ∷ []) }
{
    cells.reserve_exact(1)?;
    match cells.push(kept) {
        Ok(()) => Ok(()),
        Err(_) => Err(AllocError),
    }
}

/// The cell has this size.
fn has_size(kept: &KeptCell, size: u32) -> bool
    ensures { result ≡ (kept.now.size == size) }
{
    kept.size() == size
}

/// The cell has more bits.
fn is_wider(kept: &KeptCell, than: u32) -> bool
    ensures { result ≡ nat_lt than kept.now.size }
{
    than < kept.size()
}

/// A slot that copies can share.
pub(crate) fn shared(alloc: Global, slot: Slot) -> Result<Rc<Slot>, AllocError>
    ensures { IfOk result (λ shared. shared.value ≡ slot) }
{
    match Rc::new(alloc, slot) {
        Ok(slot) => Ok(slot),
        Err(_) => Err(AllocError),
    }
}

impl Slot {
    /// A slot at which no cell begins. Takes memory only where the words of the byte have not 8 bits.
    pub fn bare(alloc: Global, byte: &Byte) -> Result<Slot, AllocError>
        ensures { IfOk result (λ slot. slot ≡ bare byte.now) }
    {
        Ok(Slot {
            byte: KeptByte::of(alloc, byte)?,
            cells: Vec::new(alloc),
        })
    }

    /// Where it takes its memory.
    pub(crate) fn allocator(&self) -> Global {
        *self.cells.allocator()
    }

    /// True only where it has this byte, and no cell begins here.
    pub fn is_bare(&self, byte: &Byte) -> bool
        ensures { IsTrue result → self.now ≡ bare byte.now }
    {
        self.cells.is_empty() && self.byte.is(byte)
    }

    /// True only where it has this byte.
    pub fn has_byte(&self, byte: &Byte) -> bool
        ensures { IsTrue result → self.now.byte ≡ byte.now }
    {
        self.byte.is(byte)
    }

    /// Its byte.
    pub fn byte(&self) -> Byte
        ensures { result ≡ self.now.byte }
    {
        self.byte.byte()
    }

    /// The cell of this size in bits that begins here, if it is kept.
    pub fn cell(&self, size: u32) -> Option<&KeptCell>
        requires { IsCellSize size }
        ensures { option_map (λ kept. kept.now.cell) result ≡ cell_of self.now size }
    {
        find_cell(&self.cells, size)
    }

    /// A copy of the slot.
    pub fn copy(&self, alloc: Global) -> Result<Slot, AllocError>
        ensures { IfOk result (λ copy. copy ≡ self.now) }
    {
        Ok(Slot {
            byte: self.byte.copy(alloc)?,
            cells: copied_cells(alloc, &self.cells)?,
        })
    }

    /// True only where both are the same slot.
    pub fn is_same(&self, other: &Slot) -> bool
        ensures { IsTrue result → self.now ≡ other.now }
    {
        self.byte.is_same(&other.byte) && same_cells(&self.cells, &other.cells)
    }

    /// Sets its byte. After want of memory the slot is as it was.
    pub fn set_byte(&mut self, alloc: Global, byte: &Byte) -> Result<(), AllocError>
        ensures set { OnOk result (self.new ≡ with_byte self.old byte.now) }
        ensures refused { OnErr result (self.new ≡ self.old) }
    {
        self.byte = KeptByte::of(alloc, byte)?;
        Ok(())
    }

    /// Keeps the cell of this size in bits. After want of memory the slot is given up.
    pub fn keep(&mut self, size: u32, cell: Held) -> Result<(), AllocError>
        ensures { OnOk result (self.new ≡ with_cell self.old size cell) }
    {
        self.cells.retain(|kept| !has_size(kept, size));
        push_kept(&mut self.cells, KeptCell::of(size, cell))
    }

    /// Drops the cells that have more bits.
    pub fn drop_wider(&mut self, than: u32)
        ensures { self.new ≡ without_wider self.old than }
    {
        self.cells.retain(|kept| !is_wider(kept, than));
    }

    /// A copy with `x` of the cells that have more bits.
    pub fn marked_wider(&self, alloc: Global, than: u32) -> Result<Slot, AllocError>
        ensures { IfOk result (λ copy. copy ≡ with_wider_marked self.now than) }
    {
        Ok(Slot {
            byte: self.byte.copy(alloc)?,
            cells: marked_copies(alloc, &self.cells, than)?,
        })
    }
}

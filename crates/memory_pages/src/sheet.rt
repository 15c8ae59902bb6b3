//! Slots that copies share.

ghost use Rattle.std.specs.Prelude.{◌≡◌, ◌<◌, IsTrue, IfOk, OnOk, true, length, replicate, slice_get, slice_set};
ghost use Rattle.std.specs.Option.{option_map};
ghost use Rattle.memory_pages.specs.Pages.{held, IsUntouched};

use crate::slot::{Slot, shared};
use std::alloc::{AllocError, Global};
use std::marker::Model;
use std::rc::Rc;

/// Slots that follow one another. Copies share each slot until another one is put in its place.
#[derive(Drop)]
pub(crate) struct Sheet {
    slots: Vec<Rc<Slot>>,
}

impl Model for Sheet {
    ghost use Rattle.std.specs.Prelude.{List};
    ghost use Rattle.memory_pages.specs.Slots.{HeldSlot};

    ghost Value = { List HeldSlot };

    ghost use Rattle.memory_pages.specs.Pages.{held};

    ghost view = { λ sheet. held sheet.slots.items };
}

impl Clone for Sheet {
    ghost is_clone = { λ a b. a ≡ b };

    fn clone(&self) -> Result<Self, AllocError> {
        let slots = shared_slots(*self.slots.allocator(), &self.slots)?;
        Ok(Sheet { slots })
    }
}

/// The same slots, shared.
fn shared_slots(alloc: Global, slots: &[Rc<Slot>]) -> Result<Vec<Rc<Slot>>, AllocError>
    ensures { IfOk result (λ shared. held shared.items ≡ held slots.now) }
{
    let mut shared = Vec::with_capacity(alloc, slots.len())?;
    for slot in slots {
        shared.push(slot.clone()?)?;
    }
    Ok(shared)
}

/// So many times this slot.
fn times(alloc: Global, slot: &Rc<Slot>, count: usize) -> Result<Vec<Rc<Slot>>, AllocError>
    ensures { IfOk result (λ slots. held slots.items ≡ replicate count slot.now.value) }
{
    let mut slots = Vec::with_capacity(alloc, count)?;
    for _number in 0..count {
        slots.push(slot.clone()?)?;
    }
    Ok(slots)
}

/// True only where both are the same slots, if those of each are all the same.
fn same_alike(a: &[Rc<Slot>], b: &[Rc<Slot>]) -> bool
    requires first { IsUntouched true (held a.now) }
    requires second { IsUntouched true (held b.now) }
    ensures { IsTrue result → held a.now ≡ held b.now }
{
    let Some((first, others)) = a.split_first() else {
        return b.is_empty();
    };
    let Some((slot, slots)) = b.split_first() else {
        return false;
    };
    others.len() == slots.len() && first.is_same(slot)
}

/// True only where both are the same slots.
fn same_slots(a: &[Rc<Slot>], b: &[Rc<Slot>]) -> bool
    ensures { IsTrue result → held a.now ≡ held b.now }
{
    let Some((first, others)) = a.split_first() else {
        return b.is_empty();
    };
    let Some((slot, slots)) = b.split_first() else {
        return false;
    };
    first.is_same(slot) && same_slots(others, slots)
}

impl Sheet {
    /// So many times this slot.
    pub fn alike(alloc: Global, slot: &Rc<Slot>, count: usize) -> Result<Sheet, AllocError>
        ensures { IfOk result (λ sheet. sheet ≡ replicate count slot.now.value) }
    {
        let slots = times(alloc, slot, count)?;
        Ok(Sheet { slots })
    }

    /// The slot at this place.
    pub fn slot(&self, at: usize) -> Option<&Slot>
        ensures { option_map (λ slot. slot.now) result ≡ slice_get self.now at }
    {
        match self.slots.get(at) {
            None => None,
            Some(slot) => Some(slot.as_ref()),
        }
    }

    /// True only where both have the same slots, if those of each are all the same.
    pub fn is_same_alike(&self, other: &Sheet) -> bool
        requires first { IsUntouched true self.now }
        requires second { IsUntouched true other.now }
        ensures { IsTrue result → self.now ≡ other.now }
    {
        same_alike(&self.slots, &other.slots)
    }

    /// True only where both have the same slots.
    pub fn is_same(&self, other: &Sheet) -> bool
        ensures { IsTrue result → self.now ≡ other.now }
    {
        same_slots(&self.slots, &other.slots)
    }

    /// Puts a slot.
    pub fn put(&mut self, at: usize, slot: Rc<Slot>)
        requires { at < length self.old }
        ensures { self.new ≡ slice_set self.old at slot.value }
    {
        self.slots[at] = slot;
    }
}

/// So many times the first slot, but at one place the other.
pub(crate) fn sheet_with(
    first: &Rc<Slot>,
    count: usize,
    at: usize,
    slot: Slot,
) -> Result<Rc<Sheet>, AllocError>
    requires { at < count }
    ensures { IfOk result (λ sheet. sheet.value ≡ slice_set (replicate count first.now.value) at slot) }
{
    let alloc = slot.allocator();
    let mut sheet = Sheet::alike(alloc, first, count)?;
    sheet.put(at, shared(alloc, slot)?);
    match Rc::new(alloc, sheet) {
        Ok(sheet) => Ok(sheet),
        Err(_) => Err(AllocError),
    }
}

/// Puts a slot on a sheet, which is made its own first.
pub(crate) fn put_on_sheet(sheet: &mut Rc<Sheet>, at: usize, slot: Slot) -> Result<(), AllocError>
    requires { at < length sheet.old.value }
    ensures { OnOk result (sheet.new.value ≡ slice_set sheet.old.value at slot) }
{
    let slot = shared(slot.allocator(), slot)?;
    let own = Rc::make_mut(sheet)?;
    own.put(at, slot);
    Ok(())
}

//! The slots of a frame.

ghost use Rattle.std.specs.Prelude.{◌≡◌, ◌≤◌, ◌<◌, ◌+◌, ℕ, IfOk, OnOk, IsTrue, length, replicate, slice_get, slice_set};
ghost use Rattle.std.specs.Option.{option_map};
ghost use Rattle.memory_pages.specs.Slots.{bare};
ghost use Rattle.memory_pages.specs.Rooms.{slots_of};

use crate::byte::Byte;
use crate::pages::Pages;
use crate::sheet::{Sheet, put_on_sheet, sheet_with};
use crate::slot::{Slot, shared};
use std::alloc::{AllocError, Global};
use std::marker::Model;
use std::rc::Rc;

/// So many times one slot, slots of a frame of up to 32 bytes, those of one of up to 256 on short pages, or those of a
/// longer one on pages.
#[derive(Drop)]
enum Room {
    Blank(u8, Rc<Slot>),
    Lone(Rc<Sheet>),
    Short(Rc<Pages<16>>),
    Many(Rc<Pages<32>>),
}

/// The slots of a frame, one for each byte.
///
/// A frame takes 16 bytes of memory besides its slots. Those of up to 32 bytes are one slot until another one is
/// put, and a list of their own from then on. Others lie on pages of 32, those of up to 256 bytes on pages of 16, and
/// on a last page as long as what is left. Copies share all of it until a slot is put, and then each slot but that
/// one, and each page but the one that it is put on.
#[derive(Drop)]
pub struct FrameSlots {
    room: Room,
}

impl Model for FrameSlots {
    ghost use Rattle.std.specs.Prelude.{List};
    ghost use Rattle.memory_pages.specs.Slots.{HeldSlot};

    ghost Value = { List HeldSlot };

    ghost use Rattle.memory_pages.specs.Rooms.{slots_of};

    ghost view = { λ frame. slots_of frame.room };
}

/// Pages of so many slots with this byte, at which no cell begins, that copies can share.
fn bare_pages<const WIDTH: usize>(
    alloc: Global,
    count: usize,
    byte: &Byte,
) -> Result<Rc<Pages<WIDTH>>, AllocError>
    requires { 0 < WIDTH }
    ensures { IfOk result (λ pages. pages.value ≡ replicate count (bare byte.now)) }
{
    let pages = Pages::new(alloc, count, byte)?;
    match Rc::new(alloc, pages) {
        Ok(pages) => Ok(pages),
        Err(_) => Err(AllocError),
    }
}

/// So many slots with this byte, at which no cell begins.
fn bare_room(alloc: Global, count: usize, byte: &Byte) -> Result<Room, AllocError>
    ensures { IfOk result (λ room. slots_of room ≡ replicate count (bare byte.now)) }
{
    if count <= 32 {
        let slot = shared(alloc, Slot::bare(alloc, byte)?)?;
        Ok(Room::Blank(count as u8, slot))
    } else if count <= 256 {
        let pages = bare_pages(alloc, count, byte)?;
        Ok(Room::Short(pages))
    } else {
        let pages = bare_pages(alloc, count, byte)?;
        Ok(Room::Many(pages))
    }
}

/// The same slots, shared.
fn shared_slots(room: &Room) -> Result<Room, AllocError>
    ensures { IfOk result (λ copy. slots_of copy ≡ slots_of room.now) }
{
    match room {
        Room::Blank(count, slot) => {
            let slot = slot.clone()?;
            Ok(Room::Blank(*count, slot))
        }
        Room::Lone(sheet) => {
            let sheet = sheet.clone()?;
            Ok(Room::Lone(sheet))
        }
        Room::Short(pages) => {
            let pages = pages.clone()?;
            Ok(Room::Short(pages))
        }
        Room::Many(pages) => {
            let pages = pages.clone()?;
            Ok(Room::Many(pages))
        }
    }
}

/// The slot at this place of so many that are the same.
fn slot_of(slot: &Rc<Slot>, count: usize, at: usize) -> Option<&Slot>
    ensures { option_map (λ slot. slot.now) result ≡ slice_get (replicate count slot.now.value) at }
{
    if at < count {
        Some(slot.as_ref())
    } else {
        None
    }
}

/// The slot at this place.
fn slot_in(room: &Room, at: usize) -> Option<&Slot>
    ensures { option_map (λ slot. slot.now) result ≡ slice_get (slots_of room.now) at }
{
    match room {
        Room::Blank(count, slot) => slot_of(slot, *count as usize, at),
        Room::Lone(sheet) => sheet.slot(at),
        Room::Short(pages) => pages.slot(at),
        Room::Many(pages) => pages.slot(at),
    }
}

/// Puts a slot on pages, of which the list is made its own first.
fn put_among<const WIDTH: usize>(
    pages: &mut Rc<Pages<WIDTH>>,
    at: usize,
    slot: Slot,
) -> Result<(), AllocError>
    requires { at < length pages.old.value }
    ensures { OnOk result (pages.new.value ≡ slice_set pages.old.value at slot) }
{
    let own = Rc::make_mut(pages)?;
    own.put(at, slot)
}

/// Puts a slot.
fn put_in_room(room: &mut Room, at: usize, slot: Slot) -> Result<(), AllocError>
    requires { at < length (slots_of room.old) }
    ensures { OnOk result (slots_of room.new ≡ slice_set (slots_of room.old) at slot) }
{
    match room {
        Room::Blank(count, first) => {
            let sheet = sheet_with(first, *count as usize, at, slot)?;
            *room = Room::Lone(sheet);
            Ok(())
        }
        Room::Lone(sheet) => put_on_sheet(sheet, at, slot),
        Room::Short(pages) => put_among(pages, at, slot),
        Room::Many(pages) => put_among(pages, at, slot),
    }
}

/// True only where both are so many times the same slot.
fn same_blank(a: &Rc<Slot>, m: u8, b: &Rc<Slot>, n: u8) -> bool
    ensures { IsTrue result → replicate m a.now.value ≡ replicate n b.now.value }
{
    m == n && a.is_same(b)
}

/// True only where both are known to be the same slots of a frame of up to 32 bytes.
fn same_short(a: &Room, b: &Room) -> bool
    ensures { IsTrue result → slots_of a.now ≡ slots_of b.now }
{
    match (a, b) {
        (Room::Blank(m, first), Room::Blank(n, second)) => same_blank(first, *m, second, *n),
        (Room::Lone(first), Room::Lone(second)) => first.is_same(second),
        _ => false,
    }
}

/// How many slots from this place on are known to be the same.
fn same_from(a: &Room, b: &Room, at: usize) -> usize
    ensures { (place : ℕ) → at ≤ place → place < at + result
        → slice_get (slots_of a.now) place ≡ slice_get (slots_of b.now) place }
{
    match (a, b) {
        (Room::Short(first), Room::Short(second)) => first.same_ahead(second, at),
        (Room::Many(first), Room::Many(second)) => first.same_ahead(second, at),
        _ => { if at == 0 && same_short(a, b) { 32 } else { 0 } }
    }
}

impl FrameSlots {
    /// So many slots with this byte, at which no cell begins. Those of a whole page share one page.
    pub fn new(alloc: Global, count: usize, byte: &Byte) -> Result<FrameSlots, AllocError>
        ensures { IfOk result (λ frame. frame ≡ replicate count (bare byte.now)) }
    {
        let room = bare_room(alloc, count, byte)?;
        Ok(FrameSlots { room })
    }

    /// The slot of this byte, if the frame has it.
    pub fn slot(&self, at: usize) -> Option<&Slot>
        ensures { option_map (λ slot. slot.now) result ≡ slice_get self.now at }
    {
        slot_in(&self.room, at)
    }

    /// Puts a slot. After want of memory the slots are given up.
    pub fn put(&mut self, at: usize, slot: Slot) -> Result<(), AllocError>
        requires { at < length self.old }
        ensures { OnOk result (self.new ≡ slice_set self.old at slot) }
    {
        put_in_room(&mut self.room, at, slot)
    }

    /// The same slots, on shared pages.
    pub fn copy(&self) -> Result<FrameSlots, AllocError>
        ensures { IfOk result (λ copy. copy ≡ self.now) }
    {
        let room = shared_slots(&self.room)?;
        Ok(FrameSlots { room })
    }

    /// How many slots from this place on are known to be the same: those of a page where one begins here
    /// and is the same on both sides, else none.
    pub fn same_ahead(&self, other: &FrameSlots, at: usize) -> usize
        ensures { (place : ℕ) → at ≤ place → place < at + result
            → slice_get self.now place ≡ slice_get other.now place }
    {
        same_from(&self.room, &other.room, at)
    }
}

//! Slots on several pages.

ghost use Rattle.std.specs.Prelude.{◌≡◌, ◌≤◌, ◌<◌, ◌+◌, ℕ, IsTrue, IfOk, OnOk, length, replicate, slice_get, slice_set};
ghost use Rattle.std.specs.Option.{option_map};
ghost use Rattle.memory_pages.specs.Slots.{bare};
ghost use Rattle.memory_pages.specs.Pages.{list_or, page_at, pages_of, slots_on};

use crate::byte::Byte;
use crate::page::{Page, bare_page, put_in, share_page, shared_pages};
use crate::slot::{Slot, shared};
use std::alloc::{AllocError, Global};
use std::marker::Model;
use std::rc::Rc;

/// Slots that lie on pages of a width, and on a last page as long as what is left.
///
/// Copies share each page until a slot is put on it.
#[derive(Drop)]
pub(crate) struct Pages<const WIDTH: usize> {
    list: Vec<Rc<Page>>,
}

impl<const WIDTH: usize> Model for Pages<WIDTH> {
    ghost use Rattle.std.specs.Prelude.{List, ◌<◌};
    ghost use Rattle.memory_pages.specs.Slots.{HeldSlot};

    ghost Value = { List HeldSlot };

    ghost use Rattle.memory_pages.specs.Pages.{pages_of, joined, ArePages};

    ghost view = { λ pages. joined (pages_of pages.list.items) };

    ghost invariant = { λ pages. (0 < WIDTH) × ArePages WIDTH (pages_of pages.list.items) };
}

impl<const WIDTH: usize> Clone for Pages<WIDTH> {
    ghost is_clone = { λ a b. a ≡ b };

    fn clone(&self) -> Result<Self, AllocError> {
        let list = shared_pages(*self.list.allocator(), &self.list)?;
        Ok(Pages { list })
    }
}

/// The page of this number.
fn page_of(list: &[Rc<Page>], number: usize) -> Option<&Rc<Page>>
    ensures { list_or (option_map (λ page. slots_on page.now) result) ≡ page_at (pages_of list.now) number }
{
    list.get(number)
}

/// The slot at this place of the page of this number.
fn slot_in(list: &[Rc<Page>], number: usize, at: usize) -> Option<&Slot>
    ensures { option_map (λ slot. slot.now) result ≡ slice_get (page_at (pages_of list.now) number) at }
{
    match page_of(list, number) {
        None => None,
        Some(page) => page.slot(at),
    }
}

/// Whether both pages are there, and are the same.
fn are_same(a: Option<&Rc<Page>>, b: Option<&Rc<Page>>) -> bool
    ensures { IsTrue result
        → list_or (option_map (λ page. slots_on page.now) a.entry)
        ≡ list_or (option_map (λ page. slots_on page.now) b.entry) }
{
    match (a, b) {
        (Some(first), Some(second)) => first.is_same(second),
        _ => false,
    }
}

impl<const WIDTH: usize> Pages<WIDTH> {
    /// So many slots with this byte, at which no cell begins. Whole pages are one that they share.
    pub fn new(alloc: Global, count: usize, byte: &Byte) -> Result<Self, AllocError>
        requires { 0 < WIDTH }
        ensures { IfOk result (λ pages. pages ≡ replicate count (bare byte.now)) }
    {
        let page = bare_page(alloc, byte, WIDTH)?;
        let last = bare_page(alloc, byte, count % WIDTH)?;
        let mut list = Vec::new(alloc);
        share_page(&mut list, &page, count / WIDTH)?;
        list.push(last)?;
        Ok(Pages { list })
    }

    /// The slot at this place.
    pub fn slot(&self, at: usize) -> Option<&Slot>
        ensures { option_map (λ slot. slot.now) result ≡ slice_get self.now at }
    {
        slot_in(&self.list, at / WIDTH, at % WIDTH)
    }

    /// Puts a slot. After want of memory the slots are given up.
    pub fn put(&mut self, at: usize, slot: Slot) -> Result<(), AllocError>
        requires { at < length self.old }
        ensures { OnOk result (self.new ≡ slice_set self.old at slot) }
    {
        let slot = shared(*self.list.allocator(), slot)?;
        put_in(&mut self.list, at / WIDTH, at % WIDTH, slot)
    }

    /// How many slots from this place on are known to be the same: those of a page where one begins here and is
    /// the same on both sides, else none.
    pub fn same_ahead(&self, other: &Self, at: usize) -> usize
        ensures { (place : ℕ) → at ≤ place → place < at + result
            → slice_get self.now place ≡ slice_get other.now place }
    {
        let own = page_of(&self.list, at / WIDTH);
        let others = page_of(&other.list, at / WIDTH);
        if at % WIDTH == 0 && are_same(own, others) {
            WIDTH
        } else {
            0
        }
    }
}

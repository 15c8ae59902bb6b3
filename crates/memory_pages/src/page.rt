//! Pages that know whether a slot was put on them.

ghost use Rattle.std.specs.Prelude.{◌≡◌, ◌<◌, ◌++◌, IsTrue, IfOk, OnOk, OnErr, true, length, replicate, slice_get};
ghost use Rattle.std.specs.Prelude.{slice_set};
ghost use Rattle.std.specs.Option.{option_map};
ghost use Rattle.memory_pages.specs.Slots.{bare};
ghost use Rattle.memory_pages.specs.Pages.{held, pages_of, page_at, slots_on, IsUntouched};

use crate::byte::Byte;
use crate::sheet::Sheet;
use crate::slot::{Slot, shared};
use std::alloc::{AllocError, Global};
use std::marker::Model;
use std::rc::Rc;

/// The slots of one of several pages of a frame.
///
/// A page on which no slot was put knows that its slots are all the same, so two of them are compared by one slot.
#[derive(Drop)]
pub(crate) struct Page {
    sheet: Sheet,
    untouched: bool,
}

impl Model for Page {
    ghost use Rattle.std.specs.Prelude.{List};
    ghost use Rattle.memory_pages.specs.Slots.{HeldSlot};

    ghost Value = { List HeldSlot };

    ghost use Rattle.memory_pages.specs.Pages.{IsUntouched};

    ghost view = { λ page. page.sheet };

    ghost invariant = { λ page. IsUntouched page.untouched page.sheet };
}

impl Clone for Page {
    ghost is_clone = { λ a b. a ≡ b };

    fn clone(&self) -> Result<Self, AllocError> {
        Ok(Page {
            sheet: self.sheet.clone()?,
            untouched: self.untouched,
        })
    }
}

impl Page {
    /// The slot at this place.
    pub fn slot(&self, at: usize) -> Option<&Slot>
        ensures { option_map (λ slot. slot.now) result ≡ slice_get self.now at }
    {
        self.sheet.slot(at)
    }

    /// True only where both have the same slots.
    pub fn is_same(&self, other: &Page) -> bool
        ensures { IsTrue result → self.now ≡ other.now }
    {
        if self.untouched && other.untouched {
            self.sheet.is_same_alike(&other.sheet)
        } else {
            self.sheet.is_same(&other.sheet)
        }
    }

    /// Puts a slot.
    fn put(&mut self, at: usize, slot: Rc<Slot>)
        requires { at < length self.old }
        ensures { self.new ≡ slice_set self.old at slot.value }
    {
        self.untouched = false;
        self.sheet.put(at, slot);
    }
}

/// A page of so many slots with this byte, at which no cell begins.
pub(crate) fn bare_page(alloc: Global, byte: &Byte, count: usize) -> Result<Rc<Page>, AllocError>
    ensures { IfOk result (λ page. slots_on page ≡ replicate count (bare byte.now)) }
{
    let slot = shared(alloc, Slot::bare(alloc, byte)?)?;
    let sheet = Sheet::alike(alloc, &slot, count)?;
    let page = Page {
        sheet,
        untouched: true,
    };
    match Rc::new(alloc, page) {
        Ok(page) => Ok(page),
        Err(_) => Err(AllocError),
    }
}

/// Adds the page so many times.
pub(crate) fn share_page(
    pages: &mut Vec<Rc<Page>>,
    page: &Rc<Page>,
    count: usize,
) -> Result<(), AllocError>
    ensures { OnOk result (pages_of pages.new.items ≡ pages_of pages.old.items ++ replicate count (slots_on page.now)) }
{
    for _number in 0..count {
        pages.push(page.clone()?)?;
    }
    Ok(())
}

/// The same pages, shared.
pub(crate) fn shared_pages(alloc: Global, pages: &[Rc<Page>]) -> Result<Vec<Rc<Page>>, AllocError>
    ensures { IfOk result (λ shared. pages_of shared.items ≡ pages_of pages.now) }
{
    let mut shared = Vec::with_capacity(alloc, pages.len())?;
    for page in pages {
        shared.push(page.clone()?)?;
    }
    Ok(shared)
}

/// Puts a slot on a page, which is made its own first.
pub(crate) fn put_on(page: &mut Rc<Page>, at: usize, slot: Rc<Slot>) -> Result<(), AllocError>
    requires { at < length (slots_on page.old) }
    ensures put { OnOk result (slots_on page.new ≡ slice_set (slots_on page.old) at slot.value) }
    ensures refused { OnErr result (slots_on page.new ≡ slots_on page.old) }
{
    let own = Rc::make_mut(page)?;
    own.put(at, slot);
    Ok(())
}

/// Puts a slot on the page of this number.
pub(crate) fn put_in(
    pages: &mut [Rc<Page>],
    number: usize,
    at: usize,
    slot: Rc<Slot>,
) -> Result<(), AllocError>
    requires page { number < length pages.old }
    requires slot { at < length (page_at (pages_of pages.old) number) }
    ensures put { OnOk result
        (pages_of pages.new
        ≡ slice_set (pages_of pages.old) number (slice_set (page_at (pages_of pages.old) number) at slot.value)) }
    ensures refused { OnErr result (pages_of pages.new ≡ pages_of pages.old) }
{
    put_on(&mut pages[number], at, slot)
}

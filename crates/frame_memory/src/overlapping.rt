//! Which cells share a byte with a cell that begins after them.

ghost use Rattle.std.specs.Prelude.{◌≡◌, ◌-◌, ◌<◌, ℕ, true, false, None};
ghost use Rattle.memory_pages.specs.Slots.{cell_of};
ghost use Rattle.memory_model.specs.HeldFrames.{is_cell_size};

use memory_pages::Slot;

/// The first place of which a cell may share a byte with a cell at this offset. A cell has eight bytes at most.
pub(crate) fn first_near(offset: u32) -> usize
    ensures { result ≡ offset - 7 }
{
    offset.saturating_sub(7) as usize
}

/// Some cell at the slot has more bits.
pub(crate) fn has_wider(slot: &Slot, than: u32) -> bool
    ensures { result ≡ false → (width : ℕ) → is_cell_size width ≡ true → than < width → cell_of slot.now width ≡ None }
{
    for bytes in than / 8 + 1..9 {
        if slot.cell(8 * bytes).is_some() {
            return true;
        }
    }
    false
}

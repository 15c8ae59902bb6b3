//! Where an item stands in the text.

ghost use Rattle.std.specs.Prelude.{◌≡◌};
ghost use Rattle.alf_faults.specs.Returns.{is_before};

/// An item by the place of its function among the functions, and its own among the items.
#[derive(Clone, Copy)]
pub struct ItemPlace {
    pub func: usize,
    pub item: usize,
}

/// Whether an item stands before another one.
pub fn is_before(place: ItemPlace, other: ItemPlace) -> bool
    ensures { result ≡ is_before place.func place.item other.func other.item }
{
    place.func < other.func || place.func == other.func && place.item < other.item
}

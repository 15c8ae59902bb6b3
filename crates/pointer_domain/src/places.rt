//! Offsets by frame.

ghost use Rattle.std.specs.Prelude.{◌≡◌, ◌≢◌, ◌≤◌, ℕ, Some, OnOk, length, IfSome, IfNone, slice_get};
ghost use Rattle.strided_rules.specs.Strides.{Stride};
ghost use Rattle.pointer_rules.specs.AbstractValues.{ArePlaces, IsPlace, with_place, with_places};
ghost use Rattle.pointer_domain.specs.Parts.{lower};

use interval_congruence::Strided;
use std::alloc::AllocError;

/// How many places stand before the frame.
fn lower_places(places: &[(u32, Strided)], frame: u32) -> usize
    ensures count { result ≡ lower places.now frame }
    ensures within { result ≤ length places.now }
{
    match places.split_first() {
        None => 0,
        Some((first, others)) => {
            if first.0 < frame {
                1 + lower_places(others, frame)
            } else {
                0
            }
        }
    }
}

/// The offsets at this place, if they are those in the frame.
fn offsets_at(places: &[(u32, Strided)], place: usize, frame: u32) -> Option<Strided>
    ensures there { IfSome result (λ offsets. slice_get places.now place ≡ Some (frame, offsets)) }
    ensures absent { IfNone result ((other : ℕ × Stride) → slice_get places.now place ≡ Some other → other.0 ≢ frame) }
{
    if place < places.len() && places[place].0 == frame {
        Some(places[place].1)
    } else {
        None
    }
}

/// Puts the offsets to those in the frame.
fn put(places: &mut Vec<(u32, Strided)>, new: (u32, Strided)) -> Result<(), AllocError>
    requires places { ArePlaces places.old.items }
    requires new { IsPlace new }
    ensures { OnOk result (places.new.items ≡ with_place places.old.items new) }
{
    let (frame, offsets) = new;
    let place = lower_places(places, frame);
    match offsets_at(places, place, frame) {
        Some(old) => places[place] = (frame, old.join(offsets)),
        None => places.insert(place, new)?,
    }
    Ok(())
}

/// Puts the offsets of all to those in their frames.
pub fn put_all(
    places: &mut Vec<(u32, Strided)>,
    others: &[(u32, Strided)],
) -> Result<(), AllocError>
    requires places { ArePlaces places.old.items }
    requires others { ArePlaces others.now }
    ensures { OnOk result (places.new.items ≡ with_places places.old.items others.now) }
{
    let mut rest = others;
    while let Some((first, further)) = rest.split_first() {
        put(places, *first)?;
        rest = further;
    }
    Ok(())
}

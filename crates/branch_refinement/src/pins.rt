//! Memories of arms.

ghost use Rattle.std.specs.Prelude.{◌≡◌, IfOk, IfSome, OnOk};
ghost use Rattle.std.specs.Option.{option_map};
ghost use Rattle.strided_rules.specs.Members.{assumed};
ghost use Rattle.memory_model.specs.KeptMemories.{memory_in, rows_of, IsMemory};
ghost use Rattle.transfer_rules.specs.Refining.{pinned_side};
ghost use Rattle.branch_refinement.specs.Places.{seen_place, PinFits};
ghost use Rattle.branch_refinement.specs.Refinements.{there, sides_by, refined_by, SidesFit, Refines};

use crate::places::pin_to;
use crate::refinements::{Place, Refinement, Side, Told};
use crate::relations::{rel_at, swapped};
use abstract_memory::AMem;
use domain_core::{Domain, Rel};
use interval_congruence::Strided;
use std::alloc::{AllocError, Global};

/// What the relation leaves of the words.
fn left_of(rel: Rel, own: Strided, other: Strided) -> Option<Strided>
    requires { own.size ≡ other.size }
    ensures value { result ≡ assumed rel own other }
    ensures sized { IfSome result (λ words. words.size ≡ own.size) }
{
    // The laws of what is left speak of words in normal form.
    let _own = own.numbers();
    let _other = other.numbers();
    own.assume(rel, &other)
}

/// A side that is a place is pinned to what the relation leaves of its words: whether something is left. Where nothing
/// is, or after want of memory, the memory is given up.
fn pin_side(
    alloc: Global,
    memory: &mut AMem<'_>,
    place: Option<Place>,
    rel: Rel,
    own: Strided,
    other: Strided,
) -> Result<bool, AllocError>
    requires kept { IsMemory memory.old }
    requires fits { IfSome place (PinFits (rows_of memory.old.checked) own.size) }
    requires other { own.size ≡ other.size }
    ensures checked { OnOk result (memory.new.checked ≡ memory.old.checked) }
    ensures kept { OnOk result (IsMemory memory.new) }
    ensures pinned { IfOk result
        (λ on. there on (memory_in memory.new)
        ≡ pinned_side (option_map seen_place place) (assumed rel own other) (memory_in memory.old)) }
{
    let Some(place) = place else {
        return Ok(true);
    };
    let Some(words) = left_of(rel, own, other) else {
        return Ok(false);
    };
    pin_to(alloc, memory, place, words)?;
    Ok(true)
}

/// Both sides are pinned, where both have words: the second is held against the first as it was before.
fn pin_sides(
    alloc: Global,
    memory: &mut AMem<'_>,
    rel: Rel,
    first: Side,
    second: Side,
) -> Result<bool, AllocError>
    requires kept { IsMemory memory.old }
    requires fits { SidesFit (rows_of memory.old.checked) first second }
    ensures checked { OnOk result (memory.new.checked ≡ memory.old.checked) }
    ensures kept { OnOk result (IsMemory memory.new) }
    ensures pinned { IfOk result
        (λ on. there on (memory_in memory.new) ≡ sides_by rel first second (memory_in memory.old)) }
{
    let Some(x) = first.words else {
        return Ok(true);
    };
    let Some(y) = second.words else {
        return Ok(true);
    };
    if !pin_side(alloc, memory, first.place, rel, x, y)? {
        return Ok(false);
    }
    pin_side(alloc, memory, second.place, swapped(rel), y, x)
}

/// Refines the memory to an arm with these words: whether the arm is there. Where it is not, or after want of memory,
/// the memory is given up.
fn refine(
    alloc: Global,
    memory: &mut AMem<'_>,
    refinement: Refinement,
    arm: Strided,
) -> Result<bool, AllocError>
    requires kept { IsMemory memory.old }
    requires fits { Refines (rows_of memory.old.checked) arm.size refinement }
    ensures checked { OnOk result (memory.new.checked ≡ memory.old.checked) }
    ensures kept { OnOk result (IsMemory memory.new) }
    ensures refined { IfOk result
        (λ on. there on (memory_in memory.new) ≡ refined_by refinement (memory_in memory.old) arm) }
{
    match refinement {
        Refinement::Nothing => Ok(true),
        Refinement::At(place) => {
            pin_to(alloc, memory, place, arm)?;
            Ok(true)
        }
        Refinement::Between(rel, first, second) => {
            if arm.is_one() {
                pin_sides(alloc, memory, rel_at(rel, arm.word()), first, second)
            } else {
                Ok(true)
            }
        }
    }
}

/// The memory, refined to an arm with these words, if the arm is there.
pub(crate) fn refined<'a>(
    alloc: Global,
    memory: AMem<'a>,
    told: &Told,
    arm: Strided,
) -> Result<Option<AMem<'a>>, AllocError>
    requires kept { IsMemory memory }
    requires fits { Refines (rows_of memory.checked) arm.size told.now }
    ensures checked { IfOk result (λ own. IfSome own (λ m. m.checked ≡ memory.entry.checked)) }
    ensures kept { IfOk result (λ own. IfSome own IsMemory) }
    ensures refined { IfOk result (λ own. option_map memory_in own ≡ refined_by told.now (memory_in memory.entry) arm) }
{
    let mut own = memory;
    let on = refine(alloc, &mut own, told.refinement(), arm)?;
    if on { Ok(Some(own)) } else { Ok(None) }
}

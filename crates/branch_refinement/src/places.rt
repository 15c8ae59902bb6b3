//! Cells whose words are told of.

ghost use Rattle.std.specs.Prelude.{◌≡◌, ◌≤◌, OnOk, if◌then◌else◌, None};
ghost use Rattle.std.specs.Result.{result_ok};
ghost use Rattle.std.specs.Option.{option_map};
ghost use Rattle.alf_ops.specs.declared.history.Value.TheVariants.{Ptr};
ghost use Rattle.strided_rules.specs.Members.{is_one as is_one_of, word_of};
ghost use Rattle.memory_rules.specs.Addresses.{tested as tested_of};
ghost use Rattle.memory_model.specs.KeptMemories.{memory_in, rows_of, IsMemory};
ghost use Rattle.transfer_rules.specs.Refining.{cell_of, cut as cut_of, for_cell as for_cell_of, pinned_to};
ghost use Rattle.transfer_rules.specs.PlaceLaws.{PlaceFits};
ghost use Rattle.branch_refinement.specs.Places.{seen_place, placed, PinFits};

use crate::refinements::Place;
use abstract_memory::AMem;
use alf_ops::Op;
use domain_core::Domain;
use interval_congruence::Strided;
use pointer_domain::AVal;
use std::alloc::{AllocError, Global};

/// The place of a load of the cell, if there is one.
pub(crate) fn place_at(cell: Option<(u32, u32)>, size: u32, extended: bool) -> Option<Place>
    ensures { option_map seen_place result ≡ placed size extended cell }
{
    match cell {
        None => None,
        Some(cell) => Some(Place {
            cell,
            size,
            extended,
        }),
    }
}

/// The cell, where it lies in its frame and this is active.
fn tested(memory: &AMem<'_>, frame: u32, offset: u32, size: u32) -> Option<(u32, u32)>
    requires { size ≤ 64 }
    ensures { result
        ≡ result_ok (tested_of (rows_of memory.now.checked) (memory_in memory.now).runs (Ptr frame offset) size) }
{
    if memory.has_cell(frame, offset, size) {
        Some((frame, offset))
    } else {
        None
    }
}

/// The cell at the one offset, where there is one alone.
pub(crate) fn cell_at(
    memory: &AMem<'_>,
    frame: u32,
    offsets: Strided,
    size: u32,
) -> Option<(u32, u32)>
    requires offsets { offsets.size ≡ 32 }
    requires size { size ≤ 64 }
    ensures { result
        ≡ (if is_one_of offsets then result_ok
        (tested_of (rows_of memory.now.checked) (memory_in memory.now).runs (Ptr frame (word_of offsets)) size)
        else None) }
{
    if offsets.is_one() {
        tested(memory, frame, offsets.word() as u32, size)
    } else {
        None
    }
}

/// The one cell of the address.
pub(crate) fn one_cell(memory: &AMem<'_>, at: &AVal, size: u32) -> Option<(u32, u32)>
    requires { size ≤ 64 }
    ensures { result
        ≡ cell_of (rows_of memory.now.checked) (memory_in memory.now).runs size at.now.words at.now.places }
{
    match at.int() {
        Some(_) => None,
        None => match at.at() {
            [place] => cell_at(memory, place.0, place.1, size),
            _ => None,
        },
    }
}

/// The words cut to the size.
fn cut(words: Strided, size: u32) -> Strided
    requires least { 1 ≤ size }
    requires most { size ≤ words.size }
    ensures value { result ≡ cut_of size words }
    ensures sized { result.size ≡ size }
{
    // Brings in that their progression has its stride and small numbers.
    let _ = words.numbers();
    let sizes = [words.size(), size];
    let args = [words];
    match Strided::apply(Op::Trunc, &sizes, &args).value {
        None => Strided::one_word(1, 0),
        Some(word) => word,
    }
}

/// The words as the cell holds them.
fn for_cell(place: Place, words: Strided) -> Strided
    requires { PlaceFits (seen_place place) words.size }
    ensures value { result ≡ for_cell_of (seen_place place) words }
    ensures sized { result.size ≡ place.size }
{
    if place.extended {
        cut(words, place.size)
    } else {
        words
    }
}

/// Keeps the place with these words of its expression. After want of memory the memory is given up.
pub(crate) fn pin_to(
    alloc: Global,
    memory: &mut AMem<'_>,
    place: Place,
    words: Strided,
) -> Result<(), AllocError>
    requires kept { IsMemory memory.old }
    requires fits { PinFits (rows_of memory.old.checked) words.size place }
    ensures checked { OnOk result (memory.new.checked ≡ memory.old.checked) }
    ensures kept { OnOk result (IsMemory memory.new) }
    ensures pinned { OnOk result (memory_in memory.new ≡ pinned_to (memory_in memory.old) (seen_place place) words) }
{
    let (frame, offset) = place.cell;
    let own = for_cell(place, words);
    memory.pin(alloc, frame, offset, place.size, own)
}

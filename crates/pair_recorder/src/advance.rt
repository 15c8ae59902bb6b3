//! A whole step, in the bits of a recorder of pairs and of its book.

ghost use Rattle.std.specs.Prelude.{◌≡◌, ℕ, ◌*◌, ◌^◌, ◌<◌, length, OnOk};
ghost use Rattle.domain_core.specs.Outlines.{shape_of};
ghost use Rattle.recorder_rules.specs.PairRules.{PairBook, pair_recording};
ghost use Rattle.recorder_rules.specs.BitWords.{words_for, AreOwned};
ghost use Rattle.recorder_rules.specs.Seen.{sightings, pair_book};

use crate::stepping::{enter, leave};
use domain_core::Outline;
use std::alloc::{AllocError, Global};

/// Leaves the iterations that end with the step, and enters the node.
pub fn advance(
    alloc: Global,
    outline: &Outline,
    owned: &[u64],
    seen: &mut [u64],
    rows: &mut [u64],
    book: &mut [u64],
    from: u32,
    to: u32,
) -> Result<(), AllocError>
    requires from { from < length outline.now.nodes }
    requires to { to < length outline.now.nodes }
    requires seen { length seen.old ≡ words_for (length outline.now.nodes) }
    requires few { length outline.now.nodes < 2 ^ 32 }
    requires rows { length rows.old ≡ length outline.now.nodes * words_for (length outline.now.nodes) }
    requires book { length book.old ≡ length outline.now.nodes * words_for (length outline.now.nodes) }
    requires owned_length { length owned.now ≡ length outline.now.scopes * words_for (length outline.now.nodes) }
    requires owned { AreOwned (shape_of outline.now) (length outline.now.scopes) (length outline.now.nodes)
        (words_for (length outline.now.nodes)) owned.now }
    ensures recorder { OnOk result
        ((b : PairBook)
        → sightings (length outline.now.nodes) seen.new rows.new
        ≡ pair_recording.gone outline.now (sightings (length outline.now.nodes) seen.old rows.old) b from to) }
    ensures book { OnOk result
        ((s : ℕ)
        → pair_book (length outline.now.nodes) s owned.now book.new
        ≡ pair_recording.gone_book outline.now (sightings (length outline.now.nodes) seen.old rows.old)
        (pair_book (length outline.now.nodes) s owned.now book.old) from to) }
{
    leave(alloc, outline, owned, seen, rows, book, from, to)?;
    enter(alloc, outline, owned, seen, rows, to)?;
    Ok(())
}

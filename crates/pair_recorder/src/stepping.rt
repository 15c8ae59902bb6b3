//! A step of a run, in the bits of a recorder of pairs and of its book.

ghost use Rattle.std.specs.Prelude.{◌≡◌, ◌*◌, ◌<◌, ◌≤◌, ◌^◌, length, OnOk};
ghost use Rattle.domain_core.specs.Outlines.{shape_of};
ghost use Rattle.recorder_rules.specs.BitWords.{AreOwned};
ghost use Rattle.recorder_rules.specs.Seen.{AreLeft, AreLeftRows, AreCollectedRows, AreEntered, AreEnteredRows};

use crate::ending::{ended_nodes, ended_scopes};
use crate::marked::{add_marked, clear_marked};
use crate::tables::own_scope;
use crate::words::{add_words, clear_marks, keep_words, mark};
use domain_core::Outline;
use std::alloc::{AllocError, Global};

/// Collects the pairs of the iterations that end with the step, and lets them begin anew.
pub fn leave(
    alloc: Global,
    outline: &Outline,
    owned: &[u64],
    seen: &mut [u64],
    rows: &mut [u64],
    book: &mut [u64],
    from: u32,
    to: u32,
) -> Result<(), AllocError>
    requires from { from < length outline.now.nodes }
    requires to { to < length outline.now.nodes }
    requires seen { length outline.now.nodes ≤ 64 * length seen.old }
    requires few { length seen.old < 2 ^ 32 }
    requires rows { length rows.old ≡ length outline.now.nodes * length seen.old }
    requires book { length book.old ≡ length outline.now.nodes * length seen.old }
    requires owned_length { length owned.now ≡ length outline.now.scopes * length seen.old }
    requires owned { AreOwned (shape_of outline.now) (length outline.now.scopes) (length outline.now.nodes)
        (length seen.old) owned.now }
    ensures seen { OnOk result (AreLeft (shape_of outline.now) (length outline.now.nodes) from to seen.old seen.new) }
    ensures rows { OnOk result
        (AreLeftRows (shape_of outline.now) (length outline.now.nodes) (length seen.old) from to seen.old rows.old
        rows.new) }
    ensures book { OnOk result
        (AreCollectedRows (shape_of outline.now) (length outline.now.nodes) (length seen.old) from to seen.old rows.old
        book.old book.new) }
{
    let ended = ended_scopes(alloc, outline, from, to)?;
    if ended.is_empty() {
        return Ok(());
    }
    let count = outline.node_count() as usize;
    let mut over = ended_nodes(alloc, outline, owned, seen.len(), &ended, from, to)?;
    keep_words(&mut over, seen, 0);
    add_marked(book, rows, &over, count);
    clear_marked(rows, &over, count);
    clear_marks(seen, &over);
    Ok(())
}

/// Sees the node, and notes its pairs with the nodes of its scope that are seen.
pub fn enter(
    alloc: Global,
    outline: &Outline,
    owned: &[u64],
    seen: &mut [u64],
    rows: &mut [u64],
    node: u32,
) -> Result<(), AllocError>
    requires node { node < length outline.now.nodes }
    requires seen { length outline.now.nodes ≤ 64 * length seen.old }
    requires rows { length rows.old ≡ length outline.now.nodes * length seen.old }
    requires owned_length { length owned.now ≡ length outline.now.scopes * length seen.old }
    requires owned { AreOwned (shape_of outline.now) (length outline.now.scopes) (length outline.now.nodes)
        (length seen.old) owned.now }
    ensures seen { OnOk result (AreEntered (length outline.now.nodes) node seen.old seen.new) }
    ensures rows { OnOk result
        (AreEnteredRows (shape_of outline.now) (length outline.now.nodes) (length seen.old) node seen.new rows.old
        rows.new) }
{
    let width = seen.len();
    let own = own_scope(outline, node);
    mark(seen, 0, node);
    let mut met = Vec::from_slice(alloc, seen)?;
    keep_words(&mut met, owned, own as usize * width);
    add_words(rows, node as usize * width, &met, 0, width);
    Ok(())
}

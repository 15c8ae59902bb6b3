//! A path: the nodes that a run has seen in the current iterations of their scopes, in order.

ghost use Rattle.std.specs.Prelude.{◌≡◌, ◌*◌, ◌<◌, ◌==◌, ◌||◌, ◌∷◌, [], ◌↔◌, ℕ, List, not, length, filter, IsTrue, IfOk, OnOk};
ghost use Rattle.std.specs.List.{list_any};
ghost use Rattle.domain_core.specs.Outlines.{Outlined, shape_of};
ghost use Rattle.recorder_rules.specs.LoopRules.{own_of};
ghost use Rattle.recorder_rules.specs.PairRules.{PairBook, pair_recording};
ghost use Rattle.recorder_rules.specs.BitWords.{words_for, is_marked};
ghost use Rattle.recorder_rules.specs.Seen.{pair_book};
ghost use Rattle.pair_recorder.specs.Paths.{IsSmall, AreBelow, AreOwn, paired_in, path_sightings};
ghost use Rattle.pair_recorder.specs.SeenBits.{bit_sightings, AreBits};

use crate::collecting::{collect_scopes, mark_nodes};
use crate::ending::ended_scopes;
use crate::entries::{are_own, enter_node, leave_scopes, scopes_of};
use crate::seen::{Seen, is_small, seen_at};
use crate::words::words;
use domain_core::Outline;
use std::alloc::{AllocError, Global};

/// The path of node 0 alone.
pub fn path_begun(alloc: Global, outline: &Outline) -> Result<Vec<Seen>, AllocError>
    requires { IsSmall outline.now }
    ensures path { IfOk result
        (λ path. path_sightings (length outline.now.nodes) path.items ≡ pair_recording.first outline.now) }
    ensures lone { IfOk result
        (λ path. path.items ≡ record { node = 0; scope = own_of (shape_of outline.now) 0 } ∷ []) }
    ensures below { IfOk result (λ path. AreBelow (length outline.now.nodes) path.items) }
{
    outline.kept();
    let mut path = Vec::new(alloc);
    enter_node(&mut path, seen_at(outline, 0))?;
    Ok(path)
}

/// Whether each node was entered in what is its own scope here, and numbers have 16 bits.
pub fn is_path_of(outline: &Outline, path: &[Seen]) -> bool
    requires { AreBelow (length outline.now.nodes) path.now }
    ensures { IsTrue result ↔ (IsSmall outline.now × AreOwn (shape_of outline.now) path.now) }
{
    is_small(outline) && are_own(outline, path)
}

/// The same as bits.
pub fn path_bits(alloc: Global, count: u32, path: &[Seen]) -> Result<Vec<u64>, AllocError>
    requires { AreBelow count path.now }
    ensures bits { IfOk result (λ bits. bit_sightings count bits.items ≡ path_sightings count path.now) }
    ensures sized { IfOk result (λ bits. AreBits count bits.items) }
{
    let width = words(count);
    let scopes = scopes_of(alloc, path)?;
    let mut bits = vec![in alloc; 0u64; width + count as usize * width]?;
    let (seen, rows) = bits.split_at_mut(width);
    mark_nodes(path, count, seen);
    collect_scopes(alloc, path, &scopes, width, count as usize, rows)?;
    Ok(bits)
}

/// Collects the pairs of the nodes that were entered in one of the scopes, and takes those nodes out.
fn leave(
    alloc: Global,
    path: &mut Vec<Seen>,
    scopes: &[u32],
    count: u32,
    rows: &mut [u64],
) -> Result<(), AllocError>
    requires path { AreBelow count path.old.items }
    requires rows { length rows.old ≡ count * words_for count }
    ensures kept { OnOk result
        (path.new.items ≡ filter (λ e. not (list_any (λ s. e.scope == s) scopes.now)) path.old.items) }
    ensures rows { OnOk result
        ((a b : ℕ) → a < count → b < count
        → is_marked rows.new (a * words_for count) b
        ≡ (is_marked rows.old (a * words_for count) b || list_any (λ s. paired_in (λ t. t == s) a b path.old.items)
        scopes.now)) }
    ensures below { AreBelow count path.new.items }
{
    if scopes.is_empty() {
        return Ok(());
    }
    let width = words(count);
    collect_scopes(alloc, path, scopes, width, count as usize, rows)?;
    leave_scopes(path, scopes);
    Ok(())
}

/// Leaves the iterations that end with the step, of which the pairs are collected, and enters the node.
pub fn path_goes(
    alloc: Global,
    outline: &Outline,
    path: &mut Vec<Seen>,
    collected: &mut [u64],
    from: u32,
    to: u32,
) -> Result<(), AllocError>
    requires from { from < length outline.now.nodes }
    requires to { to < length outline.now.nodes }
    requires small { IsSmall outline.now }
    requires path { AreBelow (length outline.now.nodes) path.old.items }
    requires own { AreOwn (shape_of outline.now) path.old.items }
    requires collected { length collected.old ≡ length outline.now.nodes * words_for (length outline.now.nodes) }
    ensures gone { OnOk result
        ((b : PairBook)
        → path_sightings (length outline.now.nodes) path.new.items
        ≡ pair_recording.gone outline.now (path_sightings (length outline.now.nodes) path.old.items) b from to) }
    ensures collected { OnOk result
        ((s : ℕ) (owned : List ℕ)
        → pair_book (length outline.now.nodes) s owned collected.new
        ≡ pair_recording.gone_book outline.now (path_sightings (length outline.now.nodes) path.old.items)
        (pair_book (length outline.now.nodes) s owned collected.old) from to) }
    ensures below { AreBelow (length outline.now.nodes) path.new.items }
{
    let count = outline.node_count();
    let ended = ended_scopes(alloc, outline, from, to)?;
    leave(alloc, path, &ended, count, collected)?;
    enter_node(path, seen_at(outline, to))?;
    Ok(())
}

/// Adds all pairs of the path to those that were collected.
pub fn path_finish(
    alloc: Global,
    count: u32,
    path: &[Seen],
    collected: &mut [u64],
) -> Result<(), AllocError>
    requires path { AreBelow count path.now }
    requires collected { length collected.old ≡ count * words_for count }
    ensures { OnOk result
        ((o : Outlined) (s k : ℕ) (owned : List ℕ) → count ≡ length o.nodes
        → pair_book count s owned collected.new
        ≡ pair_recording.finished o (path_sightings count path.now) (pair_book count s owned collected.old) k) }
{
    let width = words(count);
    let scopes = scopes_of(alloc, path)?;
    collect_scopes(alloc, path, &scopes, width, count as usize, collected)?;
    Ok(())
}

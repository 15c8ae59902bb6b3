//! The pairs of a path, as bits.

ghost use Rattle.std.specs.Prelude.{◌≡◌, ◌*◌, ◌<◌, ◌≤◌, ◌||◌, ◌&&◌, ◌==◌, ◌^◌, ℕ, length, OnOk};
ghost use Rattle.std.specs.List.{list_any};
ghost use Rattle.recorder_rules.specs.BitWords.{is_marked};
ghost use Rattle.pair_recorder.specs.Paths.{AreBelow, entered, met, paired_in};

use crate::seen::Seen;
use crate::words::{add_words, mark};
use std::alloc::{AllocError, Global};

/// Marks the node, and adds all that are marked to its row.
fn meet(node: u32, marks: &mut [u64], count: usize, rows: &mut [u64])
    requires node { node < count }
    requires marks { count ≤ 64 * length marks.old }
    requires rows { length rows.old ≡ count * length marks.old }
    ensures marks { (a : ℕ) → a < count → is_marked marks.new 0 a ≡ (is_marked marks.old 0 a || (a == node)) }
    ensures rows { (a b : ℕ) → a < count → b < count
        → is_marked rows.new (a * length marks.old) b
        ≡ (is_marked rows.old (a * length marks.old) b || ((a == node) && is_marked marks.new 0 b)) }
{
    let width = marks.len();
    mark(marks, 0, node);
    add_words(rows, node as usize * width, marks, 0, width);
}

/// The same where the node was entered in the scope.
fn meet_within(seen: &Seen, scope: u32, marks: &mut [u64], count: usize, rows: &mut [u64])
    requires node { seen.now.node < count }
    requires marks { count ≤ 64 * length marks.old }
    requires rows { length rows.old ≡ count * length marks.old }
    ensures marks { (a : ℕ) → a < count
        → is_marked marks.new 0 a ≡ (is_marked marks.old 0 a || ((a == seen.now.node) && (scope == seen.now.scope))) }
    ensures rows { (a b : ℕ) → a < count → b < count
        → is_marked rows.new (a * length marks.old) b
        ≡ (is_marked rows.old (a * length marks.old) b ||
        ((seen.now.scope == scope) && ((a == seen.now.node) && is_marked marks.new 0 b))) }
{
    if seen.scope as u32 == scope {
        meet(seen.node as u32, marks, count, rows);
    }
}

/// Adds the pairs of the nodes that were entered in the scope.
fn collect_scope(
    alloc: Global,
    entries: &[Seen],
    scope: u32,
    width: usize,
    count: usize,
    rows: &mut [u64],
) -> Result<(), AllocError>
    requires entries { AreBelow count entries.now }
    requires width { count ≤ 64 * width }
    requires rows { length rows.old ≡ count * width }
    ensures { OnOk result
        ((a b : ℕ) → a < count → b < count
        → is_marked rows.new (a * width) b
        ≡ (is_marked rows.old (a * width) b || paired_in (λ t. t == scope) a b entries.now)) }
{
    let mut marks = vec![in alloc; 0u64; width]?;
    for seen in entries {
        meet_within(seen, scope, &mut marks, count, rows);
    }
    Ok(())
}

/// Adds the pairs of the nodes that were entered in one of the scopes.
pub fn collect_scopes(
    alloc: Global,
    entries: &[Seen],
    scopes: &[u32],
    width: usize,
    count: usize,
    rows: &mut [u64],
) -> Result<(), AllocError>
    requires entries { AreBelow count entries.now }
    requires width { count ≤ 64 * width }
    requires rows { length rows.old ≡ count * width }
    ensures { OnOk result
        ((a b : ℕ) → a < count → b < count
        → is_marked rows.new (a * width) b
        ≡ (is_marked rows.old (a * width) b || list_any (λ s. paired_in (λ t. t == s) a b entries.now) scopes.now)) }
{
    for scope in scopes {
        collect_scope(alloc, entries, *scope, width, count, rows)?;
    }
    Ok(())
}

/// Marks each node that was entered.
pub fn mark_nodes(entries: &[Seen], count: u32, marks: &mut [u64])
    requires entries { AreBelow count entries.now }
    requires marks { count ≤ 64 * length marks.old }
    ensures { (a : ℕ) → a < count → is_marked marks.new 0 a ≡ (is_marked marks.old 0 a || entered a entries.now) }
{
    for seen in entries {
        mark(marks, 0, seen.node as u32);
    }
}

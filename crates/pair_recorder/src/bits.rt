//! What a run has seen, as bits: a bit for each node, and after these for each two.

ghost use Rattle.std.specs.Prelude.{◌≡◌, ◌*◌, ◌<◌, ℕ, List, length, IfOk, OnOk};
ghost use Rattle.domain_core.specs.Outlines.{Outlined, shape_of};
ghost use Rattle.recorder_rules.specs.PairRules.{PairBook, both_seen, pair_recording};
ghost use Rattle.recorder_rules.specs.BitWords.{words_for, AreOwned};
ghost use Rattle.recorder_rules.specs.Seen.{pair_book};
ghost use Rattle.pair_recorder.specs.SeenBits.{bit_sightings, AreBits};

use crate::advance::advance;
use crate::marked::add_marked;
use crate::tables::both;
use crate::words::{mark, words};
use domain_core::Outline;
use std::alloc::{AllocError, Global};

/// Node 0 alone is seen.
pub fn bits_begun(alloc: Global, outline: &Outline) -> Result<Vec<u64>, AllocError>
    ensures bits { IfOk result
        (λ bits. bit_sightings (length outline.now.nodes) bits.items ≡ pair_recording.first outline.now) }
    ensures sized { IfOk result (λ bits. AreBits (length outline.now.nodes) bits.items) }
{
    outline.kept();
    let count = outline.node_count();
    let width = words(count);
    let mut bits = vec![in alloc; 0u64; width + count as usize * width]?;
    let (seen, rows) = bits.split_at_mut(width);
    mark(seen, 0, 0);
    mark(rows, 0, 0);
    Ok(bits)
}

/// What either has seen.
pub fn bits_joined(
    alloc: Global,
    count: u32,
    first: &[u64],
    second: &[u64],
) -> Result<Vec<u64>, AllocError>
    requires first { AreBits count first.now }
    requires second { AreBits count second.now }
    ensures bits { IfOk result
        (λ bits. bit_sightings count bits.items
        ≡ both_seen (bit_sightings count first.now) (bit_sightings count second.now)) }
    ensures sized { IfOk result (λ bits. AreBits count bits.items) }
{
    let bits = both(alloc, first, second)?;
    Ok(bits)
}

/// Leaves the iterations that end with the step, of which the pairs are collected, and enters the node.
pub fn bits_go(
    alloc: Global,
    outline: &Outline,
    owned: &[u64],
    bits: &mut [u64],
    collected: &mut [u64],
    from: u32,
    to: u32,
) -> Result<(), AllocError>
    requires from { from < length outline.now.nodes }
    requires to { to < length outline.now.nodes }
    requires bits { AreBits (length outline.now.nodes) bits.old }
    requires collected { length collected.old ≡ length outline.now.nodes * words_for (length outline.now.nodes) }
    requires owned_length { length owned.now ≡ length outline.now.scopes * words_for (length outline.now.nodes) }
    requires owned { AreOwned (shape_of outline.now) (length outline.now.scopes) (length outline.now.nodes)
        (words_for (length outline.now.nodes)) owned.now }
    ensures gone { OnOk result
        ((b : PairBook)
        → bit_sightings (length outline.now.nodes) bits.new
        ≡ pair_recording.gone outline.now (bit_sightings (length outline.now.nodes) bits.old) b from to) }
    ensures collected { OnOk result
        ((s : ℕ)
        → pair_book (length outline.now.nodes) s owned.now collected.new
        ≡ pair_recording.gone_book outline.now (bit_sightings (length outline.now.nodes) bits.old)
        (pair_book (length outline.now.nodes) s owned.now collected.old) from to) }
{
    outline.kept();
    let width = words(outline.node_count());
    let (seen, rows) = bits.split_at_mut(width);
    advance(alloc, outline, owned, seen, rows, collected, from, to)?;
    Ok(())
}

/// Adds the pairs to those that were collected.
pub fn bits_finish(count: u32, bits: &[u64], collected: &mut [u64])
    requires bits { AreBits count bits.now }
    requires collected { length collected.old ≡ count * words_for count }
    ensures { (o : Outlined) (s k : ℕ) (owned : List ℕ) → count ≡ length o.nodes
        → pair_book count s owned collected.new
        ≡ pair_recording.finished o (bit_sightings count bits.now) (pair_book count s owned collected.old) k }
{
    let (seen, rows) = bits.split_at(words(count));
    add_marked(collected, rows, seen, count as usize);
}

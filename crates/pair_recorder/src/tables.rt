//! Tables of bits.

ghost use Rattle.std.specs.Prelude.{◌≡◌, ◌*◌, ◌<◌, ◌||◌, ℕ, length, IfOk};
ghost use Rattle.domain_core.specs.Outlines.{shape_of};
ghost use Rattle.recorder_rules.specs.LoopRules.{own_of};
ghost use Rattle.recorder_rules.specs.BitWords.{words_for, is_marked, AreOwned};

use crate::words::{add_words, mark, words};
use domain_core::Outline;
use std::alloc::{AllocError, Global};

/// The scope of a node.
pub fn own_scope(outline: &Outline, node: u32) -> u32
    requires { node < length outline.now.nodes }
    ensures own { result ≡ own_of (shape_of outline.now) node }
    ensures low { result < length outline.now.scopes }
{
    outline.kept();
    outline.node(node).scope
}

/// The bits that are set in either.
pub fn both(alloc: Global, a: &[u64], b: &[u64]) -> Result<Vec<u64>, AllocError>
    requires { length a.now ≡ length b.now }
    ensures length { IfOk result (λ words. length words.items ≡ length a.now) }
    ensures bits { IfOk result
        (λ words. (base n : ℕ) → is_marked words.items base n ≡ (is_marked a.now base n || is_marked b.now base n)) }
{
    let mut words = Vec::from_slice(alloc, a)?;
    add_words(&mut words, 0, b, 0, a.len());
    Ok(words)
}

/// For each scope a row of the nodes that it is the own scope of.
pub fn owned_bits(alloc: Global, outline: &Outline) -> Result<Vec<u64>, AllocError>
    ensures length { IfOk result
        (λ words. length words.items ≡ length outline.now.scopes * words_for (length outline.now.nodes)) }
    ensures owned { IfOk result
        (λ words. AreOwned (shape_of outline.now) (length outline.now.scopes) (length outline.now.nodes)
        (words_for (length outline.now.nodes)) words.items) }
{
    outline.kept();
    let count = outline.node_count();
    let width = words(count);
    let mut owned = vec![in alloc; 0u64; outline.scope_count() as usize * width]?;
    for node in 0..count {
        let own = own_scope(outline, node);
        mark(&mut owned, own as usize * width, node);
    }
    Ok(owned)
}

//! The lines of `cache`: nodes at which each access hits, and a bound.

ghost use Rattle.std.specs.Prelude.{◌≡◌, ◌++◌, IfOk, OnOk};
ghost use Rattle.std.specs.List.{flat_map};
ghost use Rattle.cached_runs.specs.Answers.{lines_of};
ghost use Rattle.answer_texts.specs.CacheText.{hit_line, cache_bound_line, cache_text};

use cached_runs::CachedLines;
use std::alloc::{AllocError, Global};

/// What is told of the cache.
pub fn cache_text(alloc: Global, lines: &CachedLines) -> Result<Vec<u8>, AllocError>
    ensures { IfOk result (λ text. text.items ≡ cache_text (lines_of lines.now)) }
{
    let mut text = Vec::new(alloc);
    push_hits(&mut text, alloc, &lines.hits)?;
    push_bound(&mut text, alloc, lines.bound)?;
    Ok(text)
}

// Adds the line of each node.
fn push_hits(text: &mut Vec<u8>, alloc: Global, nodes: &[u32]) -> Result<(), AllocError>
    ensures { OnOk result (text.new.items ≡ text.old.items ++ flat_map hit_line nodes.now) }
{
    let Some((node, nodes)) = nodes.split_first() else {
        return Ok(());
    };
    push_hit(text, alloc, *node)?;
    push_hits(text, alloc, nodes)
}

// Adds the line of a node.
fn push_hit(text: &mut Vec<u8>, alloc: Global, node: u32) -> Result<(), AllocError>
    ensures { OnOk result (text.new.items ≡ text.old.items ++ hit_line node) }
{
    let line = format!(in alloc; "hit {node}\n")?;
    text.extend_from_slice(line.as_bytes())?;
    Ok(())
}

// Adds the line of the bound.
fn push_bound(text: &mut Vec<u8>, alloc: Global, bound: u128) -> Result<(), AllocError>
    ensures { OnOk result (text.new.items ≡ text.old.items ++ cache_bound_line bound) }
{
    let line = format!(in alloc; "cache-bound {bound}\n")?;
    text.extend_from_slice(line.as_bytes())?;
    Ok(())
}

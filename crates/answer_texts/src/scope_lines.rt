//! Lines that name nodes and scopes.

ghost use Rattle.std.specs.Prelude.{◌≡◌, ◌++◌, IfOk, OnOk};
ghost use Rattle.domain_core.specs.Outlines.{header_of};
ghost use Rattle.answer_texts.specs.ScopeLines.{name_of, walk_text, irreducible_line, left_line};

use domain_core::Outline;
use flow_graph::Graph;
use std::alloc::{AllocError, Global};

/// The line of three walks that show that a loop can be entered past its header.
pub fn irreducible_line(
    alloc: Global,
    graph: &Graph,
    to_header: &[u32],
    to_tail: &[u32],
    around: &[u32],
) -> Result<Vec<u8>, AllocError>
    ensures { IfOk result (λ line. line.items ≡ irreducible_line graph.now to_header.now to_tail.now around.now) }
{
    let mut line = Vec::from_slice(alloc, b"fault 40 irreducible to-header")?;
    push_walk(&mut line, alloc, graph, to_header)?;
    line.extend_from_slice(b" to-tail")?;
    push_walk(&mut line, alloc, graph, to_tail)?;
    line.extend_from_slice(b" around")?;
    push_walk(&mut line, alloc, graph, around)?;
    line.push(b'\n')?;
    Ok(line)
}

// Adds the names of the nodes, with a space before each.
fn push_walk(
    line: &mut Vec<u8>,
    alloc: Global,
    graph: &Graph,
    nodes: &[u32],
) -> Result<(), AllocError>
    ensures { OnOk result (line.new.items ≡ line.old.items ++ walk_text graph.now nodes.now) }
{
    let Some((node, nodes)) = nodes.split_first() else {
        return Ok(());
    };
    line.push(b' ')?;
    push_name(line, alloc, graph, *node)?;
    push_walk(line, alloc, graph, nodes)
}

// Adds the name of a node.
fn push_name(line: &mut Vec<u8>, alloc: Global, graph: &Graph, n: u32) -> Result<(), AllocError>
    ensures { OnOk result (line.new.items ≡ line.old.items ++ name_of graph.now n) }
{
    graph.keeps();
    if n >= graph.node_count() {
        return Ok(());
    }
    let name = graph.name(alloc, n)?;
    line.extend_from_slice(&name)?;
    Ok(())
}

/// The line of work that was left in this scope, with the name of its header.
pub fn left_line(
    alloc: Global,
    graph: &Graph,
    outline: &Outline,
    scope: u32,
) -> Result<Vec<u8>, AllocError>
    ensures { IfOk result (λ line. line.items ≡ left_line graph.now outline.now.scopes scope) }
{
    let header = header_of(outline, scope);
    let start = format!(in alloc; "unbounded {scope} ")?;
    let mut line = start.into_bytes();
    push_name(&mut line, alloc, graph, header)?;
    line.push(b'\n')?;
    Ok(line)
}

// The header of a scope.
fn header_of(outline: &Outline, s: u32) -> u32
    ensures { result ≡ header_of outline.now.scopes s }
{
    if s < outline.scope_count() {
        return outline.scope(s).header;
    }
    0
}

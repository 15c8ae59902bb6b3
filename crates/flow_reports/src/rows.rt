//! The lines of nodes and scopes.

ghost use Rattle.std.specs.Prelude.{◌≡◌, ◌<◌, map, IfOk};
ghost use Rattle.flow_facts.specs.Reports.{node_of};
ghost use Rattle.report_soundness.specs.ReportTold.{named_nodes};
ghost use Rattle.flow_reports.specs.Naming.{named_node};

use domain_core::{NodeRow, Outline, ScopeRow};
use flow_facts::NodeLine;
use std::alloc::{AllocError, Global};

// The line of a node.
fn node_line(alloc: Global, row: &NodeRow) -> Result<NodeLine, AllocError>
    ensures { IfOk result (λ line. node_of line ≡ named_node row.now) }
{
    let name = Vec::from_slice(alloc, &row.name)?;
    Ok(NodeLine {
        scope: row.scope,
        cost: row.cost,
        name,
    })
}

/// The lines of all nodes.
pub fn node_lines(alloc: Global, outline: &Outline) -> Result<Vec<NodeLine>, AllocError>
    ensures { IfOk result (λ lines. map node_of lines.items ≡ named_nodes outline.now) }
{
    let mut lines = Vec::new(alloc);
    for n in 0..outline.node_count() {
        lines.push(node_line(alloc, outline.node(n))?)?;
    }
    Ok(lines)
}

/// The scopes.
pub fn scope_rows(alloc: Global, outline: &Outline) -> Result<Vec<ScopeRow>, AllocError>
    ensures { IfOk result (λ rows. rows.items ≡ outline.now.scopes) }
{
    let mut rows = Vec::new(alloc);
    for s in 0..outline.scope_count() {
        rows.push(*outline.scope(s))?;
    }
    Ok(rows)
}

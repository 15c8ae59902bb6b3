//! The columns of an outline and facts.

ghost use Rattle.std.specs.Prelude.{◌≡◌, ◌<◌, ◌++◌, false, map, OnOk, IfOk, length, get_or};
ghost use Rattle.std.specs.List.{flat_map, range_with_len};
ghost use Rattle.domain_core.specs.Outlines.{shape_of};
ghost use Rattle.ipet_rows.specs.Columns.{edge_column, columns_of};
ghost use Rattle.dual_check.specs.Terms.{fault_if};

use crate::alarms::alarms;
use crate::column::Column;
use domain_core::Outline;
use flow_facts::Fact;
use std::alloc::{AllocError, Global};

/// The columns of the edges.
#[tactic(auto, using(crate::proofs::Made::edges_more))]
fn edge_columns(alloc: Global, outline: &Outline) -> Result<Vec<Column>, AllocError>
    ensures { IfOk result (λ out. out.items ≡ map edge_column outline.now.edges) }
{
    let mut out = Vec::new(alloc);
    for number in 0..outline.edge_count() {
        let edge = outline.edge(number);
        out.push(Column::new(edge.0, edge.1, false))?;
    }
    Ok(out)
}

/// Appends the fault column of a node, if there is one.
fn push_fault(out: &mut Vec<Column>, end: u32, node: u32, is: bool) -> Result<(), AllocError>
    ensures { OnOk result (out.new.items ≡ out.old.items ++ fault_if end node is) }
{
    if is {
        out.push(Column::new(node, end, true))?;
    }
    Ok(())
}

/// Whether a node is marked.
fn is_marked(marks: &[bool], node: u32) -> bool
    requires { node < length marks.now }
    ensures { result ≡ get_or marks.now node false }
{
    marks[node as usize]
}

/// Appends the fault columns of the nodes that are marked.
fn push_faults(out: &mut Vec<Column>, end: u32, marks: &[bool]) -> Result<(), AllocError>
    requires { length marks.now ≡ end }
    ensures { OnOk result
        (out.new.items
        ≡ out.old.items ++ flat_map (λ n. fault_if end n (get_or marks.now n false)) (range_with_len 0 end)) }
{
    for node in 0..end {
        push_fault(out, end, node, is_marked(marks, node))?;
    }
    Ok(())
}

/// The edges, then one fault for each node with an alarm.
pub fn columns(alloc: Global, outline: &Outline, facts: &[Fact]) -> Result<Vec<Column>, AllocError>
    ensures { IfOk result (λ out. out.items ≡ columns_of (shape_of outline.now) facts.now) }
{
    let marks = alarms(alloc, outline.node_count(), facts)?;
    let mut out = edge_columns(alloc, outline)?;
    push_faults(&mut out, outline.node_count(), &marks)?;
    Ok(out)
}

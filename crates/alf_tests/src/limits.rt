//! Programs at the limits.

use exec_toys::program_of;
use flow_base::Which;
use flow_graph::{Graph, GraphFault};
use std::alloc::{AllocError, Global};
use std::test::Fail;

// A `main` of so many blocks, each of which leads to the next; the first ones lead to the first block
// and to the last one as well.
fn blocks(alloc: Global, count: u32, wide: u32) -> Result<String, AllocError> {
    let mut items = String::new(alloc);
    for block in 0..count {
        let next = block.wrapping_add(1);
        let item = if block < wide {
            format!(in alloc; "@A{block} ?A0 ,A{} |A{next} ", count.wrapping_sub(1))?
        } else {
            format!(in alloc; "@A{block} ; ")?
        };
        items.push_str(item.as_str())?;
    }
    items.push_str(".")?;
    Ok(items)
}

// Functions that each call the next one twice.
fn chain(alloc: Global, depth: u32) -> Result<String, AllocError> {
    let mut items = String::from_str(alloc, "!f0 !f0 .")?;
    for func in 0..depth {
        let next = func.wrapping_add(1);
        let item = format!(in alloc; " /f{func} !f{next} !f{next} .")?;
        items.push_str(item.as_str())?;
    }
    let last = format!(in alloc; " /f{depth} .")?;
    items.push_str(last.as_str())?;
    Ok(items)
}

// How many nodes and edges a graph has, or which limit is passed and its count.
fn sizes(alloc: Global, items: &str) -> Result<(&'static str, u64, u64), Fail> {
    let checked = program_of(alloc, items)?;
    let sizes = match Graph::expand(alloc, &checked) {
        Ok(graph) => (
            "graph",
            graph.node_count() as u64,
            graph.edge_count() as u64,
        ),
        Err(GraphFault::Limit(Which::Nodes, count)) => ("nodes", count, 0),
        Err(GraphFault::Limit(Which::Edges, count)) => ("edges", count, 0),
        Err(GraphFault::Limit(_, count)) => ("other", count, 0),
        Err(GraphFault::Memory) => ("memory", 0, 0),
    };
    Ok(sizes)
}

#[test]
fn limits_are_told_where_they_are_passed(rt: HostRuntime) -> Result<(), Fail> {
    let alloc = rt.alloc();
    let rows = [
        (511, 0, ("graph", 512, 512)),
        (512, 0, ("nodes", 513, 0)),
        (401, 311, ("graph", 402, 1024)),
        (402, 311, ("edges", 1025, 0)),
        (511, 400, ("edges", 1025, 0)),
        (600, 400, ("nodes", 513, 0)),
    ];
    for (count, wide, wanted) in rows {
        let items = blocks(alloc, count, wide)?;
        let found = sizes(alloc, items.as_str())?;
        assert_eq!(rt; found, wanted, "{count} {wide}");
    }
    Ok(())
}

#[test]
fn a_chain_of_calls_is_refused_at_its_first_node_too_many(rt: HostRuntime) -> Result<(), Fail> {
    let alloc = rt.alloc();
    let items = chain(alloc, 40)?;
    let found = sizes(alloc, items.as_str())?;
    assert_eq!(rt; found, ("nodes", 513, 0));
    Ok(())
}

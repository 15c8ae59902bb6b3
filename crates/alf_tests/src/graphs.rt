//! Graphs of small programs.

use alf_check::Checked;
use exec_toys::{checked_text, program_of};
use flow_base::Which;
use flow_graph::{Graph, GraphFault};
use std::alloc::{AllocError, Global};
use std::test::Fail;

// What is told of the graph: the names of its nodes and its edges, or the fault.
fn told(alloc: Global, checked: &Checked) -> Result<String, AllocError> {
    match Graph::expand(alloc, checked) {
        Ok(graph) => graph_text(alloc, &graph),
        Err(fault) => fault_text(alloc, &fault),
    }
}

fn graph_text(alloc: Global, graph: &Graph) -> Result<String, AllocError> {
    graph.keeps();
    let mut text = String::new(alloc);
    for n in 0..graph.node_count() {
        let name = graph.name(alloc, n)?;
        let Ok(name) = std::str::from_utf8(&name) else {
            return String::from_str(alloc, "a name is no text");
        };
        text.push_str(name)?;
        text.push_str(" ")?;
    }
    text.push_str("|")?;
    for e in 0..graph.edge_count() {
        let (from, to) = graph.edge(e);
        let edge = format!(in alloc; " {from}-{to}")?;
        text.push_str(edge.as_str())?;
    }
    Ok(text)
}

fn fault_text(alloc: Global, fault: &GraphFault) -> Result<String, AllocError> {
    match fault {
        GraphFault::Limit(Which::Nodes, count) => format!(in alloc; "nodes {count}"),
        GraphFault::Limit(Which::Edges, count) => format!(in alloc; "edges {count}"),
        GraphFault::Limit(_, count) => format!(in alloc; "other {count}"),
        GraphFault::Memory => String::from_str(alloc, "memory"),
    }
}

// The items of a program, ` => `, and what is told of its graph.
const GRAPHS: &str = "\
. => \"main\":entry \"main\":0 | 0-1 1-2
; ; . => \"main\":entry \"main\":0 | 0-1 1-2
@A ^A => \"main\":entry \"main\":0 | 0-1 1-1
; @A . => \"main\":entry \"main\":0 \"main\":1 | 0-1 1-2 2-3
@A @B ; ^B => \"main\":entry \"main\":0 | 0-1 1-1
^A ; ; @A . => \"main\":entry \"main\":0 \"main\":2 | 0-1 1-2 2-3
. @A ^A => \"main\":entry \"main\":0 | 0-1 1-2
?A |B @A . @B . => \"main\":entry \"main\":0 \"main\":1 \"main\":2 | 0-1 1-2 1-3 2-4 3-4
?B ,A |B @A . @B . => \"main\":entry \"main\":0 \"main\":1 \"main\":2 | 0-1 1-2 1-3 2-4 3-4
?A ,A |A @A . => \"main\":entry \"main\":0 \"main\":1 | 0-1 1-2 2-3
?B ,A |C @A . @B . @C . => \"main\":entry \"main\":0 \"main\":1 \"main\":2 \"main\":3 | 0-1 1-2 1-3 1-4 2-5 3-5 4-5
?A |B @A . @B ^A => \"main\":entry \"main\":0 \"main\":1 \"main\":2 | 0-1 1-2 1-3 2-4 3-2
!f . /f . => \"main\":entry \"main\":0 \"main\":1 \"main\".0\"f\":entry \"main\".0\"f\":0 | 0-1 1-3 2-5 3-4 4-2
!f . /f . /g . => \"main\":entry \"main\":0 \"main\":1 \"main\".0\"f\":entry \"main\".0\"f\":0 | 0-1 1-3 2-5 3-4 4-2
!f . /f @A ^A => \"main\":entry \"main\":0 \"main\".0\"f\":entry \"main\".0\"f\":0 | 0-1 1-2 2-3 3-3
. !f . /f . => \"main\":entry \"main\":0 | 0-1 1-2
!f !f . /f . => \"main\":entry \"main\":0 \"main\":1 \"main\":2 \"main\".0\"f\":entry \"main\".0\"f\":0 \"main\".1\"f\":entry \"main\".1\"f\":0 | 0-1 1-4 2-6 3-8 4-5 5-2 6-7 7-3
!f !g . /f . /g !f . => \"main\":entry \"main\":0 \"main\":1 \"main\":2 \"main\".0\"f\":entry \"main\".0\"f\":0 \"main\".1\"g\":entry \"main\".1\"g\":0 \"main\".1\"g\":1 \"main\".1\"g\".0\"f\":entry \"main\".1\"g\".0\"f\":0 | 0-1 1-4 2-6 3-11 4-5 5-2 6-7 7-9 8-3 9-10 10-8
!f . /f ?A |B @A . @B . => \"main\":entry \"main\":0 \"main\":1 \"main\".0\"f\":entry \"main\".0\"f\":0 \"main\".0\"f\":1 \"main\".0\"f\":2 | 0-1 1-3 2-7 3-4 4-5 4-6 5-2 6-2
@A !f ?A |B @B . /f . => \"main\":entry \"main\":0 \"main\":1 \"main\":2 \"main\".0\"f\":entry \"main\".0\"f\":0 | 0-1 1-4 2-1 2-3 3-6 4-5 5-2";

#[test]
fn each_program_has_its_graph(rt: HostRuntime) -> Result<(), Fail> {
    let alloc = rt.alloc();
    for line in GRAPHS.lines() {
        let items = line.split(" => ").nth(0).unwrap_or("");
        let wanted = line.split(" => ").nth(1).unwrap_or("");
        let checked = program_of(alloc, items)?;
        let found = told(alloc, &checked)?;
        assert_eq!(rt; found.as_str(), wanted, "{line}");
    }
    Ok(())
}

// Two calls of one function with an argument and a result.
const CALLS: &str = "\
{ alf { macro_defs } { least_addr_unit 8 } little_endian { exports { frefs { fref 32 \"r\" } } { lrefs } } { \
imports { frefs } { lrefs } } { decls { alloc 32 \"r\" 32 } } { inits } { funcs { func { label 32 { lref 32 \
\"main\" } { dec_unsigned 32 0 } } { arg_decls } { scope { decls } { inits } { stmts { call { label 32 { lref 32 \
\"f\" } { dec_unsigned 32 0 } } { dec_unsigned 32 4 } result { addr 32 { fref 32 \"r\" } { dec_unsigned 32 0 } } } \
{ call { label 32 { lref 32 \"f\" } { dec_unsigned 32 0 } } { load 32 { addr 32 { fref 32 \"r\" } { dec_unsigned 32 \
0 } } } result { addr 32 { fref 32 \"r\" } { dec_unsigned 32 0 } } } { return { load 32 { addr 32 { fref 32 \"r\" } \
{ dec_unsigned 32 0 } } } } } } } { func { label 32 { lref 32 \"f\" } { dec_unsigned 32 0 } } { arg_decls { alloc \
32 \"x\" 32 } } { scope { decls } { inits } { stmts { return { add 32 { load 32 { addr 32 { fref 32 \"x\" } { \
dec_unsigned 32 0 } } } { dec_unsigned 32 1 } { dec_unsigned 1 0 } } } } } } } }";

#[test]
fn a_function_called_twice_has_two_instances(rt: HostRuntime) -> Result<(), Fail> {
    let alloc = rt.alloc();
    let checked = checked_text(alloc, CALLS)?;
    let found = told(alloc, &checked)?;
    assert_eq!(rt;
        found.as_str(),
        "\"main\":entry \"main\":0 \"main\":1 \"main\":2 \"main\".0\"f\":entry \"main\".0\"f\":0 \"main\".1\"f\":entry \"main\".1\"f\":0 | 0-1 1-4 2-6 3-8 4-5 5-2 6-7 7-3"
    );
    Ok(())
}

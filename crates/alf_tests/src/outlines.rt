//! Outlines of small programs.

use domain_core::{Outline, ScopeKind};
use exec_toys::program_of;
use flow_graph::Graph;
use scope_graph::{OutlineFault, outline};
use std::alloc::{AllocError, Global};
use std::test::Fail;

// The items of a program, ` => `, for each scope its parent, its header and its kind, and then for each
// node its scope and its rank.
const OUTLINES: &str = "\
. => -.0.call | 0.0 0.1
!f . /f . => -.0.call 0.3.call | 0.0 0.1 0.4 1.2 1.3
; @A ?C |B @B ^A @C . => -.0.call 0.2.loop | 0.0 0.1 1.2 1.3 0.4
@A ^A => -.0.call 0.1.loop | 0.0 1.1
@A ?A |B @B . => -.0.call 0.1.loop | 0.0 1.1 0.2
@A ?C |B @B ?A |B @C . => -.0.call 0.1.loop 1.2.loop | 0.0 1.1 2.2 0.3
; @A ?D |B @B ?C |E @E ^B @C ^A @D . => -.0.call 0.2.loop 1.3.loop | 0.0 0.1 1.2 2.3 2.4 1.5 0.6
; @A ?D |B @B ?C |B @C ^A @D . => -.0.call 0.2.loop 1.3.loop | 0.0 0.1 1.2 2.3 1.4 0.5
@A ?A |B @B ?A |C @C . => -.0.call 0.1.loop | 0.0 1.1 1.2 0.3
; @A ?C |B @B ?A |E @E ^A @C . => -.0.call 0.2.loop | 0.0 0.1 1.2 1.3 1.4 0.5
@A !f ?A |B @B . /f . => -.0.call 0.1.loop 1.4.call | 0.0 1.1 1.4 0.5 2.2 2.3
!f @A !f ?A |B @B . /f . => -.0.call 0.2.loop 0.5.call 1.7.call | 0.0 0.1 1.4 1.7 0.8 2.2 2.3 3.5 3.6
!f !f . /f @A ?A |B @B . => -.0.call 0.4.call 1.5.loop 0.7.call 3.8.loop | 0.0 0.1 0.5 0.9 1.2 2.3 1.4 3.6 4.7 3.8
@A !g ?A |B @B . /g @C !f ?C |D @D . /f . => -.0.call 0.1.loop 1.4.call 2.5.loop 3.8.call | 0.0 1.1 1.8 0.9 2.2 3.3 3.6 2.7 4.4 4.5
; @A ?C |B @B ?A |D @D ^A @C ?E |F @E ^C @F . => -.0.call 0.2.loop 0.5.loop | 0.0 0.1 1.2 1.3 1.4 2.5 2.6 0.7
?A |B @A . @B . => -.0.call | 0.0 0.1 0.2 0.3
; @A ?F |B @B ?A |C @C ?B |D @D ^A @F . => -.0.call 0.2.loop 1.3.loop | 0.0 0.1 1.2 2.3 2.4 1.5 0.6
?A |B @A ^B @B ^A => irreducible
; @A ?C |B @B ?D |E @D ^E @E ?A |D @C . => irreducible
?A |B @A ?C |B @B ?C |A @C . => irreducible";

// What is told of the outline of a program's graph.
fn told(alloc: Global, items: &str) -> Result<String, Fail> {
    let checked = program_of(alloc, items)?;
    let Ok(graph) = Graph::expand(alloc, &checked) else {
        return Err("the program has no graph".into());
    };
    let told = match outline(alloc, &graph) {
        Ok(found) => outline_text(alloc, &found)?,
        Err(fault) => String::from_str(alloc, word_of(&fault))?,
    };
    Ok(told)
}

// The word of a fault.
fn word_of(fault: &OutlineFault) -> &'static str {
    match fault {
        OutlineFault::Irreducible { .. } => "irreducible",
        OutlineFault::Memory => "memory",
    }
}

fn outline_text(alloc: Global, found: &Outline) -> Result<String, AllocError> {
    found.kept();
    let mut text = String::new(alloc);
    for s in 0..found.scope_count() {
        let row = *found.scope(s);
        let kind = match row.kind {
            ScopeKind::Call => "call",
            ScopeKind::Loop => "loop",
        };
        let scope = match row.parent {
            None => format!(in alloc; "-.{}.{kind} ", row.header)?,
            Some(parent) => format!(in alloc; "{parent}.{}.{kind} ", row.header)?,
        };
        text.push_str(scope.as_str())?;
    }
    text.push_str("|")?;
    for n in 0..found.node_count() {
        let row = found.node(n);
        let node = format!(in alloc; " {}.{}", row.scope, row.rank)?;
        text.push_str(node.as_str())?;
    }
    Ok(text)
}

#[test]
fn each_graph_has_its_outline(rt: HostRuntime) -> Result<(), Fail> {
    let alloc = rt.alloc();
    for line in OUTLINES.lines() {
        let items = line.split(" => ").nth(0).unwrap_or("");
        let wanted = line.split(" => ").nth(1).unwrap_or("");
        let found = told(alloc, items)?;
        assert_eq!(rt; found.as_str(), wanted, "{line}");
    }
    Ok(())
}

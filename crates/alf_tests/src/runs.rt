//! Runs of small programs, each told by the numbers of its nodes and by how it ends.
//!
//! A program is told by the items of `main` and of further functions. Each function has the frames
//! `own` and `kept`, which holds 5 at first. The global frames are `x`, which holds 258 at first,
//! `y`, and `r`, which is exported; all have 32 bits.

ghost use Rattle.alf_check.specs.CheckedPrograms.{seen};
ghost use Rattle.flow_graph.specs.Numbering.{IsGraph};

use crate::notation::{Row, fault_word, put};
use alf_check::{Checked, check};
use alf_interp::{Machine, Moved, Outputs};
use alf_ops::Value;
use alf_text::read;
use flow_graph::Graph;
use std::alloc::{AllocError, Global};
use std::test::Fail;

const HEAD: &str = "\
{ alf { macro_defs } { least_addr_unit 8 } little_endian { exports { frefs { fref 32 \"r\" } } { lrefs } } { \
imports { frefs } { lrefs } } { decls { alloc 32 \"x\" 32 } { alloc 32 \"y\" 32 } { alloc 32 \"r\" 32 } } { inits { \
init { ref \"x\" { dec_unsigned 32 0 } } { dec_unsigned 32 258 } } } { funcs { func { label 32 { lref 32 \"main\" } \
{ dec_unsigned 32 0 } } { arg_decls } ";

const OWN: &str = "\
{ scope { decls { alloc 32 \"own\" 32 } { alloc 32 \"kept\" 32 } } { inits { init { ref \"kept\" { dec_unsigned 32 \
0 } } { dec_unsigned 32 5 } } } { stmts ";

// `@A` is a label or a function, `&x` an address, `*x` a load of 32 bits, `#5` a number of 32 bits and
// `'0` a bit. After `/f` stand the items of a further function, and after `%f` those of one with the
// argument `a`.
static WORDS: [Row; 7] = [
    (
        "@",
        "{ label 32 { lref 32 \"",
        "\" } { dec_unsigned 32 0 } } ",
    ),
    (
        "&",
        "{ addr 32 { fref 32 \"",
        "\" } { dec_unsigned 32 0 } } ",
    ),
    (
        "*",
        "{ load 32 { addr 32 { fref 32 \"",
        "\" } { dec_unsigned 32 0 } } } ",
    ),
    ("#", "{ dec_unsigned 32 ", " } "),
    ("'", "{ dec_unsigned 1 ", " } "),
    (
        "/",
        "} } } { func { label 32 { lref 32 \"",
        "\" } { dec_unsigned 32 0 } } { arg_decls } ",
    ),
    (
        "%",
        "} } } { func { label 32 { lref 32 \"",
        "\" } { dec_unsigned 32 0 } } { arg_decls { alloc 32 \"a\" 32 } } ",
    ),
];

// The text of a program.
fn text_of(alloc: Global, items: &str) -> Result<String, AllocError> {
    let mut text = String::from_str(alloc, HEAD)?;
    text.push_str(OWN)?;
    for word in items.split(' ') {
        put(&mut text, &WORDS, word)?;
        if word.starts_with('/') || word.starts_with('%') {
            text.push_str(OWN)?;
        }
    }
    text.push_str("} } } } }")?;
    Ok(text)
}

// A word with its size before it, a pointer's frame and offset, or `-`.
fn value_text(alloc: Global, value: Option<Value>) -> Result<String, AllocError> {
    match value {
        Some(Value::Int { size, bits }) => format!(in alloc; " {size}:{bits}"),
        Some(Value::Ptr { frame, offset }) => format!(in alloc; " {frame}+{offset}"),
        None => String::from_str(alloc, " -"),
    }
}

fn put_outputs(alloc: Global, told: &mut String, outputs: &Outputs) -> Result<(), AllocError> {
    told.push_str(" ends")?;
    told.push_str(value_text(alloc, outputs.returned)?.as_str())?;
    for global in outputs.globals.iter() {
        told.push_str(value_text(alloc, *global)?.as_str())?;
    }
    Ok(())
}

// The nodes of the run and how it ends, or its first nodes.
fn run(alloc: Global, checked: &Checked, graph: &Graph) -> Result<String, AllocError>
    requires { IsGraph (seen checked.now) graph.now }
{
    let mut told = String::from_str(alloc, "0")?;
    let mut machine = Machine::start(alloc, checked, graph, &[], &[])?;
    for _ in 0..100 {
        match machine.step()? {
            Moved::To(node) => {
                let node = format!(in alloc; " {node}")?;
                told.push_str(node.as_str())?;
            }
            Moved::Ended(outputs) => {
                put_outputs(alloc, &mut told, &outputs)?;
                return Ok(told);
            }
            Moved::Faulted(fault) => {
                told.push_str(" ")?;
                told.push_str(fault_word(fault))?;
                return Ok(told);
            }
        }
    }
    Ok(told)
}

// The run of a program, or why there is none.
fn told(alloc: Global, items: &str) -> Result<String, AllocError> {
    let text = text_of(alloc, items)?;
    let Ok(program) = read(alloc, text.as_bytes()) else {
        return String::from_str(alloc, "no text");
    };
    let Ok(checked) = check(alloc, program, "main") else {
        return String::from_str(alloc, "not checked");
    };
    let Ok(graph) = Graph::expand(alloc, &checked) else {
        return String::from_str(alloc, "no graph");
    };
    run(alloc, &checked, &graph)
}

// What is so, the items, and the run; between two of these a line is free.
static CASES: &str = "\
a function is called twice, and its result is stored
{ call @f #4 result &r } { call @f *r result &r } { return *r } %f { return { add 32 *a #1 '0 } }
0 1 4 5 2 6 7 3 ends 32:6 32:6

nothing was stored in what a switch loads
{ switch *y { default @E } } @E { return }
0 1 uninit

the bytes of a word are loaded through a pointer
{ store &own with &x } { return { add 32 { select 64 0 31 { u_mul 32 32 { z_ext 8 32 { load 8 *own } } #256 } } { \
  z_ext 8 32 { load 8 { add 32 *own #1 '0 } } } '0 } }
0 1 ends 32:513 -

a word is not wholly stored
{ store &y with { dec_unsigned 8 5 } } { return *y }
0 1 uninit

a byte of a pointer is loaded
{ store &y with &y } { return { load 8 &y } }
0 1 mixed

a division by 0 comes first
{ store &r with { u_div 32 32 #1 #0 } } { return }
0 1 divide

a division by 0 comes later
{ store &r with #7 } { null } { store &r with { u_div 32 32 #1 #0 } } { return }
0 1 divide

a load of nothing comes first
{ store &r with *y } { return }
0 1 uninit

a load of nothing comes later
{ null } { store &r with *own } { return }
0 1 uninit

a load of a part of a pointer comes first
{ store &y with &y } { jump @B leaving 0 } @B { store &r with { z_ext 8 32 { load 8 &y } } } { return }
0 1 2 mixed

a load of a part of a pointer comes later
{ store &y with &y } { store &r with { z_ext 16 32 { load 16 &y } } } { return }
0 1 mixed

a store past the end of a frame comes first
{ store { add 32 &r #4 '0 } with #1 } { return }
0 1 bounds

a load past the end of a frame comes later
{ store &r with #1 } { store &r with { load 32 { add 32 &r #1 '0 } } } { return }
0 1 bounds

a store in a frame that is left comes first
{ call @f result &y } { store *y with #1 } { return } /f { return &own }
0 1 3 4 2 dead

a load of a frame that is left comes later
{ call @f result &y } { null } { store &r with { load 32 *y } } { return } /f { store &own with #1 } { return &own }
0 1 3 4 2 dead

a store at a word comes first
{ store #5 with #1 } { return }
0 1 kind

a pointer where none may stand comes later
{ null } { store &r with { neg 32 &r } } { return }
0 1 kind

an order of pointers to two frames comes first
{ store &r with { z_ext 1 32 { u_lt 32 &r &y } } } { return }
0 1 pointers

a difference of pointers to two frames comes later
{ null } { store &r with { sub 32 &r &y '1 } } { return }
0 1 pointers

the address of a store faults before its value
{ store { neg 32 &r } with { u_div 32 32 #1 #0 } } { return }
0 1 kind

the value of a store faults before its cell
{ store { add 32 &r #4 '0 } with { u_div 32 32 #1 #0 } } { return }
0 1 divide

the left operand faults first
{ return { add 32 { u_div 32 32 #1 #0 } *y '0 } }
0 1 divide

the right operand faults alone
{ return { add 32 *x *y '0 } }
0 1 uninit

an argument faults where it is called
{ call @f { u_div 32 32 #1 #0 } result &r } { return } %f { return *a }
0 1 divide

a result's store faults where it is returned
{ call @f #1 result { addr 32 { fref 32 \"r\" } { dec_unsigned 32 4 } } } { return } %f { return *a }
0 1 3 4 bounds

the root's return faults
{ store &r with #1 } { return { u_div 32 32 *r #0 } }
0 1 divide

a switch on a pointer
{ switch &r { default @E } } @E { return }
0 1 kind

a switch on the number of a target
{ switch #2 { target #1 @A } { target #2 @B } { default @C } } @A { return #1 } @B { return #2 } @C { return #3 }
0 1 3 ends 32:2 -

a switch on no target's number
{ switch #7 { target #1 @A } { target #2 @B } { default @C } } @A { return #1 } @B { return #2 } @C { return #3 }
0 1 4 ends 32:3 -

a function stores through a pointer
{ call @f &r result } { return *r } %f { store *a with #9 } { return }
0 1 3 4 2 ends 32:9 32:9

a function is called at two paths
{ call @g result &r } { call @f *r result &r } { return *r } /g { call @f #1 result &own } { return *own } %f { \
  return { add 32 *a #1 '0 } }
0 1 4 5 7 8 6 2 9 10 3 ends 32:3 32:3

a function's frames hold nothing when it is entered again
{ call @f #1 result &r } { call @f #0 result &r } { return *r } %f { switch *a { target #0 @B } { default @A } } @A \
  { store &own with #3 } { return *own } @B { return *own }
0 1 4 5 6 2 8 9 11 uninit

a function's frames hold at first what they held before
{ call @f result &r } { call @f result &r } { return *r } /f { store &kept with { add 32 *kept #1 '0 } } { return \
  *kept }
0 1 4 5 2 6 7 3 ends 32:6 32:6

a loop
{ store &r with #0 } @H { switch *r { target #3 @E } { default @B } } @B { store &r with { add 32 *r #1 '0 } } { \
  jump @H leaving 0 } @E { return }
0 1 2 3 2 3 2 3 2 4 ends - 32:3

pointers are returned and exported
{ store &r with { add 32 &x #2 '0 } } { return &own }
0 1 ends 3+0 0+2";

#[test]
fn runs_go_through_their_nodes_to_their_end(rt: HostRuntime) -> Result<(), Fail> {
    let alloc = rt.alloc();
    assert_eq!(rt; CASES.split("\n\n").count(), 35);
    for case in CASES.split("\n\n") {
        let told = told(alloc, case.split('\n').nth(1).unwrap_or(""))?;
        assert_eq!(rt;
            told.as_str(),
            case.split('\n').nth(2).unwrap_or(""),
            "{case}"
        );
    }
    Ok(())
}

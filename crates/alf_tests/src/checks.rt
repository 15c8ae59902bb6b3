//! Small programs, checked.

use crate::notation::{Row, put};
use alf_check::{Act, BlockEnd, CheckFault, Checked, Term, check};
use alf_text::read;
use flow_base::Name;
use std::alloc::{AllocError, Global};
use std::test::Fail;

// `main` around its items, the function `leaf`, and a global frame that is exported and holds 7 at first.
const HEAD: &str = "\
{ alf { macro_defs } { least_addr_unit 8 } little_endian { exports { frefs { fref 32 \"shared\" } } { lrefs } } { \
imports { frefs } { lrefs } } { decls { alloc 32 \"shared\" 64 } } { inits { init { ref \"shared\" { dec_unsigned \
32 4 } } { dec_unsigned 32 7 } } } { funcs { func { label 32 { lref 32 \"main\" } { dec_unsigned 32 0 } } { \
arg_decls } { scope { decls { alloc 32 \"own\" 32 } } { inits } { stmts ";

const TAIL: &str = "\
} } } { func { label 32 { lref 32 \"leaf\" } { dec_unsigned 32 0 } } { arg_decls } { scope { decls { alloc 32 \
\"other\" 32 } } { inits } { stmts { store { addr 32 { fref 32 \"shared\" } { dec_unsigned 32 0 } } with { \
dec_unsigned 32 2 } } { return } } } } } }";

// `@A` is the label A, `^A` a jump to it, `=x` a store in the frame x, `!f` a call of f; after `/f`
// stand the items of a further function f.
static WORDS: [Row; 5] = [
    (
        "@",
        "{ label 32 { lref 32 \"",
        "\" } { dec_unsigned 32 0 } } ",
    ),
    (
        "^",
        "{ jump { label 32 { lref 32 \"",
        "\" } { dec_unsigned 32 0 } } leaving 0 } ",
    ),
    (
        "=",
        "{ store { addr 32 { fref 32 \"",
        "\" } { dec_unsigned 32 0 } } with { dec_unsigned 32 1 } } ",
    ),
    (
        "!",
        "{ call { label 32 { lref 32 \"",
        "\" } { dec_unsigned 32 0 } } result } ",
    ),
    (
        "/",
        "} } } { func { label 32 { lref 32 \"",
        "\" } { dec_unsigned 32 0 } } { arg_decls } { scope { decls } { inits } { stmts ",
    ),
];

// The program whose `main` has these items.
fn text_of(alloc: Global, items: &str) -> Result<String, AllocError> {
    let mut text = String::from_str(alloc, HEAD)?;
    for word in items.split(' ') {
        put(&mut text, &WORDS, word)?;
    }
    text.push_str(TAIL)?;
    Ok(text)
}

// The program of the text, checked.
fn checked_text(alloc: Global, text: &str, root: &str) -> Result<Checked, CheckFault> {
    match read(alloc, text.as_bytes()) {
        Ok(program) => check(alloc, program, root),
        Err(_) => Err(CheckFault::Memory),
    }
}

// The number of the first store's frame in a block of function f, or 99.
fn first_stored(checked: &Checked, func: u32, block: u32) -> u32 {
    if func >= checked.func_count() || block >= checked.block_count(func) {
        return 99;
    }
    match checked.block(func, block).stmts.first() {
        Some(Act::Store(Term::Addr(frame, _), _)) => *frame,
        _ => 99,
    }
}

// Where a block of function f leads: on, to a block, or by a call of a function to a block.
fn leads(checked: &Checked, func: u32, block: u32) -> (&'static str, u32, u32) {
    if func >= checked.func_count() || block >= checked.block_count(func) {
        return ("none", 0, 0);
    }
    match &checked.block(func, block).end {
        BlockEnd::Fall(next) => ("fall", *next, 0),
        BlockEnd::Jump(to) => ("jump", *to, 0),
        BlockEnd::Switch(_, _, others) => ("switch", *others, 0),
        BlockEnd::Call { func, next, .. } => ("call", *func, *next),
        BlockEnd::Return(_) => ("return", 0, 0),
    }
}

// How many frames function f has, or 99.
fn frame_count(checked: &Checked, func: u32) -> usize {
    if func >= checked.func_count() {
        return 99;
    }
    checked.func(func).frames.len()
}

#[test]
fn a_program_has_its_frames_functions_and_blocks_in_order(rt: HostRuntime) -> Result<(), Fail> {
    let alloc = rt.alloc();
    let text = text_of(alloc, "@again =own !leaf ^again")?;
    let checked = checked_text(alloc, text.as_str(), "main")?;
    checked.keeps();
    assert_eq!(rt; checked.frames().len(), 3);
    assert_eq!(rt; checked.func_count(), 2);
    assert_eq!(rt; checked.root(), 0);
    assert_eq!(rt; checked.exports(), [0].as_slice());
    assert_eq!(rt; checked.inits().len(), 1);
    assert_eq!(rt; checked.frames()[0].owner, None);
    assert_eq!(rt; checked.frames()[2].owner, Some(1));
    assert_eq!(rt; frame_count(&checked, 1), 1);
    assert_eq!(rt; first_stored(&checked, 0, 0), 1);
    assert_eq!(rt; first_stored(&checked, 1, 0), 0);
    assert_eq!(rt; leads(&checked, 0, 0), ("call", 1, 1));
    assert_eq!(rt; leads(&checked, 0, 1), ("jump", 0, 0));
    assert_eq!(rt; leads(&checked, 1, 0), ("return", 0, 0));
    Ok(())
}

// The name as text.
fn text_in(name: &Name) -> &str {
    str::from_utf8(name.bytes()).unwrap_or("")
}

// The fault's kind, its names, and its number where it has one.
fn shown(alloc: Global, fault: &CheckFault) -> Result<String, AllocError> {
    match fault {
        CheckFault::UnknownName(name) => format!(in alloc; "unknown {}", text_in(name)),
        CheckFault::DuplicateName(name) => format!(in alloc; "duplicate {}", text_in(name)),
        CheckFault::Size(name, Some(item)) => format!(in alloc; "size {} {item}", text_in(name)),
        CheckFault::Size(name, None) => format!(in alloc; "size {}", text_in(name)),
        CheckFault::Recursion(names) => along(alloc, names),
        CheckFault::Root(name) => format!(in alloc; "root {}", text_in(name)),
        CheckFault::Memory => String::from_str(alloc, "memory"),
    }
}

// The names of a cycle of calls.
fn along(alloc: Global, names: &[Name]) -> Result<String, AllocError> {
    let mut text = String::from_str(alloc, "recursion")?;
    for name in names {
        text.push_str(" ")?;
        text.push_str(text_in(name))?;
    }
    Ok(text)
}

// A part of a line, where ` | ` stands between two parts.
fn field(line: &str, number: usize) -> &str {
    line.split(" | ").nth(number).unwrap_or("")
}

// What is told, `passes` or the fault, the root, and the items of `main` and functions after it. In the last five an
// earlier item counts before a later one, and each of them before recursion and the root.
const CASES: &str = r#"passes | main | { return }
passes | leaf | @A { null } =own =shared !leaf ^A
passes | main | @A { switch { dec_unsigned 8 1 } { target { dec_unsigned 8 1 } { label 32 { lref 32 "A" } { dec_unsigned 32 0 } } } { default { label 32 { lref 32 "B" } { dec_unsigned 32 0 } } } } @B { return { dec_unsigned 8 1 } }
passes | main | !a { return } /a !b !leaf { return } /b !leaf { return }
unknown gone | main | !gone { return }
unknown gone | main | ^gone
unknown other | main | =other { return }
unknown other | main | { null } =other { return }
unknown A | main | @A ^A /a ^A
duplicate A | main | @A { null } @A { return }
duplicate leaf | main | @leaf { return }
duplicate main | main | { return } /main { return }
size main 0 | main | { return { add 32 { dec_unsigned 32 1 } { dec_unsigned 16 1 } { dec_unsigned 1 0 } } }
size main 2 | main | @A { null } { return { trunc 8 16 { dec_unsigned 8 1 } } }
recursion main main | main | !main { return }
recursion a a | main | { return } /a !a { return }
recursion main main | main | { return } !main { return }
recursion a b a | main | { return } /a !b { return } /b !a { return }
recursion a b c a | main | !b { return } /a !b { return } /b !c { return } /c !a { return }
recursion a a | main | !b { return } /a !a { return } /b !b { return }
root top | top | !leaf { return }
root  |  | !leaf { return }
unknown gone | top | ^gone @A { null } @A { return }
size main 1 | top | !main { return { trunc 8 16 { dec_unsigned 8 1 } } }
duplicate A | top | !main @A { null } @A { return }
unknown gone | top | !main { return } /a ^gone
recursion main main | top | !main { return }"#;

#[test]
fn a_program_passes_or_its_first_fault_is_told(rt: HostRuntime) -> Result<(), Fail> {
    let alloc = rt.alloc();
    for case in CASES.lines() {
        let text = text_of(alloc, field(case, 2))?;
        let told = match checked_text(alloc, text.as_str(), field(case, 1)) {
            Ok(_) => String::from_str(alloc, "passes")?,
            Err(fault) => shown(alloc, &fault)?,
        };
        assert_eq!(rt; told.as_str(), field(case, 0), "{case}");
    }
    Ok(())
}

use crate::sketch;
use alf_faults::{ItemFault, first_fault};
use std::alloc::{AllocError, Global};
use std::process::Abort;
use std::test::Fail;

// The fault's kind and name, and its number where it has one.
fn shown(alloc: Global, fault: &Option<ItemFault>) -> Result<String, AllocError> {
    match fault {
        Some(ItemFault::Unknown(name)) => told(alloc, "unknown", name.bytes(), None),
        Some(ItemFault::Duplicate(name)) => told(alloc, "duplicate", name.bytes(), None),
        Some(ItemFault::Size(name, number)) => told(alloc, "size", name.bytes(), *number),
        None => String::from_str(alloc, "none"),
    }
}

fn told(alloc: Global, kind: &str, name: &[u8], number: Option<u32>) -> Result<String, AllocError> {
    let Ok(name) = str::from_utf8(name) else {
        return Err(AllocError);
    };
    match number {
        Some(number) => format!(in alloc; "{kind} {name} {number}"),
        None => format!(in alloc; "{kind} {name}"),
    }
}

// What stands before ` => `, and what stands after it.
fn side(line: &str, number: usize) -> &str {
    line.split(" => ").nth(number).unwrap_or("")
}

// Each sketch, after these statements, has the fault that stands beside it.
fn judge(rt: &impl Abort, alloc: Global, before: &str, cases: &str) -> Result<(), Fail> {
    for case in cases.lines() {
        let sketch = side(case, 0);
        let text = format!(in alloc; "{before}{sketch}")?;
        let program = sketch::program(alloc, text.as_str())?;
        let fault = first_fault(alloc, &program)?;
        let told = shown(alloc, &fault)?;
        assert_eq!(rt; told.as_str(), side(case, 1), "{case}");
    }
    Ok(())
}

// Statements of `main`, and the fault.
const ITEMS: &str = r#" => none
null; store &x sum; return => none
return short => size main 0
null; return carry => size main 1
store 16 sum => size main 0
null; store &x 12 => size main 1
store &x 12 => size main 0
store &x wild => size main 0
store &y *z => unknown y
null; store &x *z => unknown z
store 16 *z => unknown z
jump A => unknown A
label A; jump A => none
jump A; label A; label A => duplicate A
null; jump A => unknown A
label A; null; label main => duplicate main
label f => duplicate f
label A; switch *x A 32:1:A 32:2:A => none
label A; switch *x A 32:1:A 32:1:A => duplicate 1
switch *z B 32:7:A 8:9:C 8:7:B; label A => duplicate 7
label A; switch *x C 32:1:A 16:2:B => unknown B
switch *x A 32:1:B; label A => unknown B
switch *x B => unknown B
switch *z A 32:1:B; label A => unknown z
label A; switch *x C 16:1:A => unknown C
label A; switch *x A 32:1:A 16:2:A => size main 1
switch *x A 16:2:A; label A => size main 0
switch short A; label A => size main 0
call f *x; return => none
call f => size main 0
null; call f *x *x => size main 1
call f 16 => size main 0
null; call f 16 => size main 1
null; call g => unknown g
into y g *z => unknown g
into y f *z => unknown z
into y f 16 => unknown y
into x f *x => size main 0
return sum; null; return => size main 2
return 8; return 8; return sum => size main 2
into x main; return => size main 1
return sum; call main => size main 1
return sum; into x main => none"#;

#[test]
fn each_item_is_judged(rt: HostRuntime) -> Result<(), Fail> {
    judge(
        &rt,
        rt.alloc(),
        "global x 32; global flag 8; func f; arg a 32; null; return; func main; ",
        ITEMS,
    )
}

// Frames, and the fault.
const FRAMES: &str = r#" => none
export x; global x 32 => none
export x; export y; lref f; global x 32 => unknown y
export x; lref f; global x 32 => unknown f
export y; export x; global x 24 => unknown y
lref main; lref f; func main => unknown f
export x; export y; global x 64; global y 24 => size y
export x; global x 24; global x 32 => size x
export x; global x 16; global x 24 => duplicate x
global x 8; global y 8; global z 8; global y 8; start q 0 8 => duplicate y
global x 32; start x 3 8; start x 0 32; start x 0 32 => none
global x 32; start x 4 8 => size x
global x 32; start x 0 8; start x 0 4 => size x
global x 32; start x 0 8; start y 0 4; func f; func f => unknown y"#;

#[test]
fn each_frame_is_judged(rt: HostRuntime) -> Result<(), Fail> {
    judge(&rt, rt.alloc(), "", FRAMES)
}

// Functions, and the fault.
const FUNCTIONS: &str = r#"func main; func f; func main; arg x 8 => duplicate main
func f; arg a 8; decl b 8; hold b 0 8 => none
func f; arg a 8; arg a 8; decl x 8 => duplicate a
func f; arg a 8; decl b 8; decl a 8 => duplicate a
func f; decl b 8; decl a 8; decl b 8; hold q 0 8 => duplicate b
func f; arg a 8; arg x 8 => duplicate x
func f; decl x 8 => duplicate x
func f; arg a 8; hold a 0 8 => unknown a
func f; decl b 8; hold b 1 8; jump A => size b
func f; arg a 8; decl b 8; store &a 8; store &b 8; store &c 8 => unknown c
func f; decl b 8; func g; store &b 8 => unknown b
func f; label A; func g; jump A => unknown A
func f; jump A; label g; func g => unknown A
func f; null; label g; func g => duplicate g
func f; null; return *x; func main; into x f => none
func f; null; return *x; func main; call f => size main 0
func main; into x f; func f; null; return *x => none
func f; return 4; func main; null; into x f => size main 1
func main; call f; func f; null; return *x => size f 1
func main; into x f; func f; null; null; return 4 => size f 2
func main; call f; func f; jump A; return *x => unknown A"#;

#[test]
fn each_function_is_judged(rt: HostRuntime) -> Result<(), Fail> {
    judge(&rt, rt.alloc(), "global x 32; ", FUNCTIONS)
}

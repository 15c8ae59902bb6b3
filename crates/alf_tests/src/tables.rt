//! Programs, files of costs and of inputs in a short notation, and what is told of them as text.

use alf_check::{Checked, InputRow};
use cost_table::{Costs, TableFault, costs, inputs};
use exec_toys::checked_text;
use flow_base::Which;
use std::alloc::{AllocError, Global};
use std::test::Fail;

// The global frames `i` and `n` of 32 bits and `a` of 40 bytes; `main` with the argument `p` of 8 bytes
// and the frame `own`; `leaf` with the argument `q`.
const PROGRAM: &str = "\
{ alf { macro_defs } { least_addr_unit 8 } little_endian { exports { frefs } { lrefs } } { imports { frefs } { \
lrefs } } { decls { alloc 32 \"i\" 32 } { alloc 32 \"n\" 32 } { alloc 32 \"a\" 320 } } { inits } { funcs { func { \
label 32 { lref 32 \"main\" } { dec_unsigned 32 0 } } { arg_decls { alloc 32 \"p\" 64 } } { scope { decls { alloc \
32 \"own\" 32 } } { inits } { stmts { return } } } } { func { label 32 { lref 32 \"leaf\" } { dec_unsigned 32 0 } } \
{ arg_decls { alloc 32 \"q\" 32 } } { scope { decls } { inits } { stmts { return } } } } } }";

// The global frames `i` and `n` of 32 bits; `main`, which counts `i` up to `n` in a loop, in four blocks;
// `leaf` with one block.
const LOOP: &str = "\
{ alf { macro_defs } { least_addr_unit 8 } little_endian { exports { frefs } { lrefs } } { imports { frefs } { \
lrefs } } { decls { alloc 32 \"i\" 32 } { alloc 32 \"n\" 32 } } { inits } { funcs { func { label 32 { lref 32 \
\"main\" } { dec_unsigned 32 0 } } { arg_decls } { scope { decls } { inits } { stmts { store { addr 32 { fref 32 \
\"i\" } { dec_unsigned 32 0 } } with { dec_unsigned 32 0 } } { label 32 { lref 32 \"H\" } { dec_unsigned 32 0 } } { \
switch { s_lt 32 { load 32 { addr 32 { fref 32 \"i\" } { dec_unsigned 32 0 } } } { load 32 { addr 32 { fref 32 \
\"n\" } { dec_unsigned 32 0 } } } } { target { dec_unsigned 1 1 } { label 32 { lref 32 \"B\" } { dec_unsigned 32 0 \
} } } { default { label 32 { lref 32 \"E\" } { dec_unsigned 32 0 } } } } { label 32 { lref 32 \"B\" } { \
dec_unsigned 32 0 } } { store { addr 32 { fref 32 \"i\" } { dec_unsigned 32 0 } } with { add 32 { load 32 { addr 32 \
{ fref 32 \"i\" } { dec_unsigned 32 0 } } } { dec_unsigned 32 1 } { dec_unsigned 1 0 } } } { jump { label 32 { lref \
32 \"H\" } { dec_unsigned 32 0 } } leaving 0 } { label 32 { lref 32 \"E\" } { dec_unsigned 32 0 } } { return } } } \
} { func { label 32 { lref 32 \"leaf\" } { dec_unsigned 32 0 } } { arg_decls } { scope { decls } { inits } { stmts \
{ return } } } } } }";

// The program whose frames are inputs, checked.
pub fn program(alloc: Global) -> Result<Checked, Fail> {
    Ok(checked_text(alloc, PROGRAM)?)
}

// The program of the loop, checked.
pub fn loop_program(alloc: Global) -> Result<Checked, Fail> {
    Ok(checked_text(alloc, LOOP)?)
}

// The file of a line: `;` stands for the end of a line.
pub fn file(alloc: Global, line: &str) -> Result<Vec<u8>, AllocError> {
    let mut bytes = Vec::new(alloc);
    for byte in line.as_bytes() {
        bytes.push(if *byte == b';' { b'\n' } else { *byte })?;
    }
    Ok(bytes)
}

// What is told of an inputs file: its rows, or the fault.
pub fn told_inputs(alloc: Global, checked: &Checked, line: &str) -> Result<String, Fail> {
    let bytes = file(alloc, line)?;
    let told = match inputs(alloc, &bytes, checked) {
        Ok(rows) => rows_text(alloc, &rows)?,
        Err(fault) => fault_text(alloc, fault)?,
    };
    Ok(told)
}

// What is told of a costs file: its costs, or the fault.
pub fn told_costs(alloc: Global, checked: &Checked, line: &str) -> Result<String, Fail> {
    let bytes = file(alloc, line)?;
    let told = match costs(alloc, &bytes, checked) {
        Ok(costs) => costs_text(alloc, checked, &costs)?,
        Err(fault) => fault_text(alloc, fault)?,
    };
    Ok(told)
}

// The costs of the blocks of each function, one function after the other.
pub fn costs_text(alloc: Global, checked: &Checked, costs: &Costs) -> Result<String, AllocError> {
    let mut text = String::from_str(alloc, "costs")?;
    for func in 0..checked.func_count() {
        text.push_str(if func == 0 { "" } else { " |" })?;
        for block in 0..checked.block_count(func) {
            let one = format!(in alloc; " {}", costs.of(func, block))?;
            text.push_str(one.as_str())?;
        }
    }
    Ok(text)
}

// The rows one after the other: frame, offset, size, and the range.
fn rows_text(alloc: Global, rows: &[InputRow]) -> Result<String, AllocError> {
    let mut text = String::from_str(alloc, "rows")?;
    for row in rows {
        let one = format!(in alloc;
            " {}+{}:{}[{},{}]",
            row.frame, row.offset, row.size, row.low, row.high
        )?;
        text.push_str(one.as_str())?;
    }
    Ok(text)
}

// The word of a fault, and its entry.
pub fn fault_text(alloc: Global, fault: TableFault) -> Result<String, AllocError> {
    match fault {
        TableFault::Toml => String::from_str(alloc, "toml"),
        TableFault::Key(None) => String::from_str(alloc, "key -"),
        TableFault::Key(Some(entry)) => format!(in alloc; "key {}", entry),
        TableFault::Range(entry) => format!(in alloc; "range {}", entry),
        TableFault::NoSuchCell(entry) => format!(in alloc; "cell {}", entry),
        TableFault::Limit(Which::Tasks, count) => format!(in alloc; "limit tasks {}", count),
        TableFault::Limit(_, count) => format!(in alloc; "limit {}", count),
        TableFault::Memory => String::from_str(alloc, "memory"),
    }
}

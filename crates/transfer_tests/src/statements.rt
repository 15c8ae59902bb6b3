//! Functions entered, statements, expressions and cells that are filled, of the program.

ghost use Rattle.std.specs.Prelude.{IsTrue, IfOk, OnOk};
ghost use Rattle.std.specs.List.{AllZip};
ghost use Rattle.transfer_rules.specs.EvaluatingLaws.{ArgumentIs};
ghost use Rattle.transfer_tests.specs.Statements.{IsMemoryOf};

use crate::program::checked_text;
use crate::values::{is_cell, is_value, tell_faults, told, value};
use abstract_memory::AMem;
use alf_check::{BlockEnd, Checked, FrameRow};
use pointer_domain::AVal;
use std::alloc::{AllocError, Global};
use std::test::Fail;
use step_statements::{do_statements, enter, evaluate, fill, put_inits};

// The memory of the program, after what global frames hold at first.
fn started<'a>(alloc: Global, checked: &'a Checked) -> Result<AMem<'a>, AllocError>
    ensures { IfOk result (IsMemoryOf checked.now) }
{
    let mut memory = AMem::new(alloc, checked)?;
    put_inits(alloc, &mut memory, checked.inits())?;
    Ok(memory)
}

// The value is one of the frame.
fn suits(rows: &[FrameRow], frame: u32, value: &AVal) -> bool
    ensures { IsTrue result → ArgumentIs rows.now 0 frame value.now }
{
    match rows.get(frame as usize) {
        None => false,
        Some(row) => is_cell(row.bits) && is_value(value, row.bits),
    }
}

// Each value is one of its frame.
fn suit(rows: &[FrameRow], args: &[u32], values: &[AVal]) -> bool
    ensures { IsTrue result → AllZip (ArgumentIs rows.now 0) args.now values.now }
{
    let Some((frame, others)) = args.split_first() else {
        return values.is_empty();
    };
    let Some((value, further)) = values.split_first() else {
        return false;
    };
    suits(rows, *frame, value) && suit(rows, others, further)
}

// A function is entered, where the values are those of its arguments.
fn entered(
    alloc: Global,
    memory: &mut AMem<'_>,
    checked: &Checked,
    func: u32,
    values: &[AVal],
) -> Result<bool, AllocError>
    requires { IsMemoryOf checked.now memory.old }
    ensures { OnOk result (IsMemoryOf checked.now memory.new) }
{
    if func >= checked.func_count() {
        return Ok(false);
    }
    let row = checked.func(func);
    if !suit(checked.frames(), &row.args, values) {
        return Ok(false);
    }
    enter(alloc, memory, checked, func, values)?;
    Ok(true)
}

// What the statements of a first block tell, and what its return gives.
fn run_block(
    alloc: Global,
    memory: &mut AMem<'_>,
    checked: &Checked,
    func: u32,
) -> Result<String, AllocError>
    requires { IsMemoryOf checked.now memory.old }
    ensures { OnOk result (IsMemoryOf checked.now memory.new) }
{
    if func >= checked.func_count() || checked.block_count(func) == 0 {
        return String::from_str(alloc, "no block");
    }
    let block = checked.block(func, 0);
    let (goes_on, faults) = do_statements(alloc, memory, &block.stmts)?;
    let mut text = String::from_str(alloc, if goes_on { "on" } else { "off" })?;
    tell_faults(&mut text, faults)?;
    if let BlockEnd::Return(Some(term)) = &block.end {
        let (given, faults) = evaluate(alloc, memory, term)?;
        let last = told(alloc, &given, faults)?;
        text.push_str("; ")?;
        text.push_str(last.as_str())?;
    }
    Ok(text)
}

// A cell is filled, where it is there.
fn filled(
    alloc: Global,
    memory: &mut AMem<'_>,
    checked: &Checked,
    cell: (u32, u32),
    value: &AVal,
) -> Result<(), AllocError>
    requires { IsMemoryOf checked.now memory.old }
    ensures { OnOk result (IsMemoryOf checked.now memory.new) }
{
    let _ = checked.func_count();
    if is_value(value, 32) && memory.has_cell(cell.0, cell.1, 32) {
        fill(alloc, memory, cell.0, cell.1, value)?;
    }
    Ok(())
}

// What a load of 32 bits gives.
fn loaded(
    alloc: Global,
    memory: &AMem<'_>,
    checked: &Checked,
    text: &str,
) -> Result<String, AllocError>
    requires { IsMemoryOf checked.now memory.now }
{
    let _ = checked.func_count();
    let at = value(alloc, text)?;
    if !is_value(&at, 32) {
        return String::from_str(alloc, "no address");
    }
    let (given, faults) = memory.load(alloc, &at, 32)?;
    told(alloc, &given, faults)
}

#[test]
fn statements_give_what_the_rules_say(rt: HostRuntime) -> Result<(), Fail> {
    let alloc = rt.alloc();
    let checked = checked_text(alloc)?;
    let mut memory = started(alloc, &checked)?;
    assert_eq!(rt;
        loaded(alloc, &memory, &checked, "p1:8")?.as_str(),
        "w32:258"
    );
    assert_eq!(rt;
        loaded(alloc, &memory, &checked, "p2:0")?.as_str(),
        "none dead"
    );
    assert!(rt; entered(alloc, &mut memory, &checked, 0, &[])?);
    assert_eq!(rt;
        loaded(alloc, &memory, &checked, "p2:0")?.as_str(),
        "none uninit"
    );
    assert_eq!(rt;
        run_block(alloc, &mut memory, &checked, 0)?.as_str(),
        "on; w32:263"
    );
    assert_eq!(rt; loaded(alloc, &memory, &checked, "p2:4")?.as_str(), "p0:4");
    let argument = value(alloc, "p0:4")?;
    assert!(rt; entered(alloc, &mut memory, &checked, 1, &[argument])?);
    assert_eq!(rt; loaded(alloc, &memory, &checked, "p3:0")?.as_str(), "p0:4");
    assert_eq!(rt;
        run_block(alloc, &mut memory, &checked, 1)?.as_str(),
        "on; none uninit"
    );
    let five = value(alloc, "w32:5")?;
    filled(alloc, &mut memory, &checked, (0, 8), &five)?;
    assert_eq!(rt; loaded(alloc, &memory, &checked, "p0:8")?.as_str(), "w32:5");
    assert_eq!(rt;
        loaded(alloc, &memory, &checked, "p0:4")?.as_str(),
        "none uninit"
    );
    Ok(())
}

//! The cells of addresses and their faults, by frames of the program.

use crate::program::checked_text;
use crate::values::{field, is_cell, small, tell_faults, value};
use abstract_memory::{address_faults, cells, has_cell};
use alf_check::Checked;
use std::alloc::{AllocError, Global};
use std::test::Fail;

// Cells, one after the other.
fn told_cells(alloc: Global, cells: &[(u32, u32)]) -> Result<String, AllocError> {
    let mut text = String::new(alloc);
    for (frame, offset) in cells {
        let one = format!(in alloc; "{frame}:{offset} ")?;
        text.push_str(one.as_str())?;
    }
    Ok(text)
}

// The cells of an address and its faults, where `main` runs and `leaf` does not.
fn told_address(
    alloc: Global,
    checked: &Checked,
    text: &str,
    size: u32,
) -> Result<String, AllocError> {
    if !is_cell(size) || size < 8 || 64 < size {
        return String::from_str(alloc, "no cell");
    }
    let running = [true, false];
    let at = value(alloc, text)?;
    let found = cells(alloc, checked.frames(), &running, &at, size)?;
    let mut told = told_cells(alloc, &found)?;
    let faults = address_faults(checked.frames(), &running, &at, size);
    tell_faults(&mut told, faults)?;
    Ok(told)
}

// An address, the size of its cells, and what is told.
static CASES: &str = "\
p0:0,4,8,12 32 => 0:0 0:4 0:8 0:12\x20
p0:0,4,8,12 64 => 0:0 0:4 0:8  bounds
p0:12 40 =>  bounds
p1:8|p0:4 8 => 0:4 1:8\x20
p2:0,1 64 => 2:0  bounds
p3:0 8 =>  dead
p3:9|p0:0 8 => 0:0  dead
p7:0 8 =>  dead
w32:0 8 =>  kind
w32:0|p0:3 8 => 0:3  kind
p0:4294967292,0,4 32 => 0:0 0:4  bounds
p1:60,64,68 64 => 1:60 1:64 1:68\x20";

#[test]
fn addresses_have_the_cells_that_the_rules_say(rt: HostRuntime) -> Result<(), Fail> {
    let alloc = rt.alloc();
    let checked = checked_text(alloc)?;
    for row in CASES.lines() {
        let (asked, answer) = (field(row, " => ", 0), field(row, " => ", 1));
        let told = told_address(
            alloc,
            &checked,
            field(asked, " ", 0),
            small(field(asked, " ", 1)),
        )?;
        assert_eq!(rt; told.as_str(), answer, "{row}");
    }
    let running = [true, false];
    assert!(rt; has_cell(checked.frames(), &running, 2, 0, 64));
    assert!(rt; !has_cell(checked.frames(), &running, 2, 1, 64));
    assert!(rt; !has_cell(checked.frames(), &running, 3, 0, 8));
    Ok(())
}

//! Scripts of calls on two memories, and what each call tells.
//!
//! Steps have `;` between them. `store AT VALUE` tells `ok`, or `stop` where no run goes on, and the faults of the
//! address; `load AT SIZE` the value and the faults; `has FRAME OFFSET SIZE` tells `yes` or `no`. Of the other steps,
//! `enter FUNC`, `leave FUNC`, `pin FRAME OFFSET VALUE`, `copy`, `swap` and `join`, nothing is told.

ghost use Rattle.std.specs.Prelude.{OnOk};
ghost use Rattle.transfer_tests.specs.Sides.{AreReady};

use crate::sides::{Sides, copy, enter, fresh, has_cell, join, leave, load, pin, store, swap};
use crate::values::{field, small, tell_faults, told, value, width};
use alf_check::Checked;
use domain_core::FaultSet;
use std::alloc::{AllocError, Global};

// What a store tells.
fn told_store(alloc: Global, answer: (bool, FaultSet)) -> Result<String, AllocError> {
    let (goes_on, faults) = answer;
    let mut text = String::from_str(alloc, if goes_on { "ok" } else { "stop" })?;
    tell_faults(&mut text, faults)?;
    Ok(text)
}

// A store.
fn do_store(alloc: Global, sides: &mut Sides<'_>, line: &str) -> Result<String, AllocError>
    requires { AreReady sides.old.functions sides.old.a sides.old.b }
    ensures { OnOk result (AreReady sides.new.functions sides.new.a sides.new.b) }
{
    let at = value(alloc, field(line, " ", 1))?;
    let stored = value(alloc, field(line, " ", 2))?;
    let answer = store(alloc, sides, &at, &stored, width(&stored))?;
    told_store(alloc, answer)
}

// A load.
fn do_load(alloc: Global, sides: &Sides<'_>, line: &str) -> Result<String, AllocError>
    requires { AreReady sides.now.functions sides.now.a sides.now.b }
{
    let at = value(alloc, field(line, " ", 1))?;
    let (loaded, faults) = load(alloc, sides, &at, small(field(line, " ", 2)))?;
    told(alloc, &loaded, faults)
}

// A pin.
fn do_pin(alloc: Global, sides: &mut Sides<'_>, line: &str) -> Result<(), AllocError>
    requires { AreReady sides.old.functions sides.old.a sides.old.b }
    ensures { OnOk result (AreReady sides.new.functions sides.new.a sides.new.b) }
{
    let cell = (small(field(line, " ", 1)), small(field(line, " ", 2)));
    let pinned = value(alloc, field(line, " ", 3))?;
    match pinned.int() {
        None => Ok(()),
        Some(words) => pin(alloc, sides, cell, words),
    }
}

// Whether a cell is there.
fn do_has(sides: &Sides<'_>, line: &str) -> &'static str {
    let (frame, offset) = (small(field(line, " ", 1)), small(field(line, " ", 2)));
    if has_cell(sides, frame, offset, small(field(line, " ", 3))) {
        "yes"
    } else {
        "no"
    }
}

// A step of which nothing is told.
fn do_quietly(alloc: Global, sides: &mut Sides<'_>, line: &str) -> Result<(), AllocError>
    requires { AreReady sides.old.functions sides.old.a sides.old.b }
    ensures { OnOk result (AreReady sides.new.functions sides.new.a sides.new.b) }
{
    let func = small(field(line, " ", 1));
    match field(line, " ", 0) {
        "enter" => enter(alloc, sides, func),
        "leave" => Ok(leave(sides, func)),
        "pin" => do_pin(alloc, sides, line),
        "copy" => copy(alloc, sides),
        "swap" => swap(alloc, sides),
        _ => join(alloc, sides),
    }
}

// What a step tells.
fn step(alloc: Global, sides: &mut Sides<'_>, line: &str) -> Result<String, AllocError>
    requires { AreReady sides.old.functions sides.old.a sides.old.b }
    ensures { OnOk result (AreReady sides.new.functions sides.new.a sides.new.b) }
{
    match field(line, " ", 0) {
        "store" => do_store(alloc, sides, line),
        "load" => do_load(alloc, sides, line),
        "has" => String::from_str(alloc, do_has(sides, line)),
        "enter" | "leave" | "pin" | "copy" | "swap" | "join" => {
            do_quietly(alloc, sides, line)?;
            Ok(String::new(alloc))
        }
        _ => String::from_str(alloc, "no such step"),
    }
}

/// What the steps of a script tell, on memories before each event.
pub(crate) fn told_script(
    alloc: Global,
    checked: &Checked,
    script: &str,
) -> Result<String, AllocError> {
    let mut sides = fresh(alloc, checked)?;
    let mut all = String::new(alloc);
    for line in script.split("; ") {
        let told = step(alloc, &mut sides, line)?;
        if !told.is_empty() {
            if !all.is_empty() {
                all.push_str("; ")?;
            }
            all.push_str(told.as_str())?;
        }
    }
    Ok(all)
}

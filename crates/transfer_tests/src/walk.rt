//! Steps along chosen successors.

ghost use Rattle.std.specs.Prelude.{◌≡◌, IfOk, IfSome};
ghost use Rattle.alf_check.specs.CheckedPrograms.{seen};
ghost use Rattle.alf_check.specs.Inputs.{KeepInputs};
ghost use Rattle.flow_graph.specs.Numbering.{IsGraph};
ghost use Rattle.abstract_step.specs.Steppers.{stepped_by};

use crate::sketch::{inputs_text, program_text};
use crate::told::add_points;
use crate::values::tell_faults;
use abstract_memory::AMem;
use abstract_step::AlfStepper;
use alf_check::{Checked, InputRow, check};
use alf_text::read;
use cost_table::inputs;
use domain_core::Stepper;
use flow_graph::Graph;
use std::alloc::{AllocError, Global};

// Steps from a point, and tells the faults and the next points. Answers the chosen one, if it is no end.
fn step<'a>(
    alloc: Global,
    text: &mut String,
    stepper: &AlfStepper<'a>,
    exit: u32,
    point: (u32, AMem<'a>),
    cells: &str,
    choice: usize,
) -> Result<Option<(u32, AMem<'a>)>, AllocError>
    requires exit { exit ≡ (stepped_by stepper.now).exit }
    requires fits { (stepped_by stepper.now).fits point.0 point.1 }
    ensures { IfOk result (λ chosen. IfSome chosen (λ next. (stepped_by stepper.now).fits next.0 next.1)) }
{
    stepper.kept();
    let stepped = stepper.step(alloc, point.0, &point.1)?;
    tell_faults(text, stepped.faults)?;
    let mut next = stepped.next;
    add_points(alloc, text, exit, &next, cells)?;
    if choice >= next.len() {
        return Ok(None);
    }
    let chosen = next.swap_remove(choice);
    if chosen.0 == exit {
        return Ok(None);
    }
    Ok(Some(chosen))
}

// Where runs start.
fn first<'a>(alloc: Global, stepper: &AlfStepper<'a>) -> Result<(u32, AMem<'a>), AllocError>
    ensures { IfOk result (λ point. (stepped_by stepper.now).fits point.0 point.1) }
{
    stepper.kept();
    let memory = stepper.start(alloc)?;
    Ok((0, memory))
}

// The steps along these successors, from the start of runs.
fn walk<'a>(
    alloc: Global,
    stepper: &AlfStepper<'a>,
    exit: u32,
    cells: &str,
    choices: &str,
) -> Result<String, AllocError>
    requires { exit ≡ (stepped_by stepper.now).exit }
{
    let mut text = String::new(alloc);
    let mut point = first(alloc, stepper)?;
    for word in choices.split(' ') {
        text.push_str("/")?;
        let choice = word.parse::<usize>().unwrap_or(0);
        match step(alloc, &mut text, stepper, exit, point, cells, choice)? {
            None => return Ok(text),
            Some(next) => point = next,
        }
    }
    Ok(text)
}

// The steps of a checked program along these successors.
fn steps_of(
    alloc: Global,
    checked: &Checked,
    graph: &Graph,
    rows: &[InputRow],
    cells: &str,
    choices: &str,
) -> Result<String, AllocError>
    requires graph { IsGraph (seen checked.now) graph.now }
    requires rows { KeepInputs (seen checked.now) rows.now }
{
    let stepper = AlfStepper::new(alloc, checked, graph, rows)?;
    walk(alloc, &stepper, graph.node_count(), cells, choices)
}

// The steps of the program in a text, or why there are none.
pub fn told(
    alloc: Global,
    text: &str,
    entries: &str,
    cells: &str,
    choices: &str,
) -> Result<String, AllocError> {
    let Ok(program) = read(alloc, text.as_bytes()) else {
        return String::from_str(alloc, "no text");
    };
    let Ok(checked) = check(alloc, program, "main") else {
        return String::from_str(alloc, "not checked");
    };
    let Ok(graph) = Graph::expand(alloc, &checked) else {
        return String::from_str(alloc, "no graph");
    };
    let Ok(rows) = inputs(alloc, inputs_text(alloc, entries)?.as_bytes(), &checked) else {
        return String::from_str(alloc, "no inputs");
    };
    steps_of(alloc, &checked, &graph, &rows, cells, choices)
}

// The steps of the program of these items.
pub fn steps(
    alloc: Global,
    items: &str,
    entries: &str,
    cells: &str,
    choices: &str,
) -> Result<String, AllocError> {
    let text = program_text(alloc, items)?;
    told(alloc, text.as_str(), entries, cells, choices)
}

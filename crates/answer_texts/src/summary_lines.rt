//! The lines of `generate`: the numbers of a report.

ghost use Rattle.std.specs.Prelude.{◌≡◌, ◌++◌, IfOk, OnOk};
ghost use Rattle.flow_facts.specs.Reports.{reported};
ghost use Rattle.answer_texts.specs.SummaryText.{bounds_text, number_line, sizes_text, summary_text};
ghost use Rattle.answer_texts.specs.SummaryText.{is_step, path_of, steps_among, turns_of};

use domain_core::Event;
use flow_facts::Report;
use std::alloc::{AllocError, Global};

/// The numbers of a report.
pub fn summary_text(alloc: Global, report: &Report) -> Result<Vec<u8>, AllocError>
    ensures { IfOk result (λ text. text.items ≡ summary_text (reported report.now)) }
{
    let mut text = Vec::new(alloc);
    push_sizes(&mut text, alloc, report)?;
    push_bounds(&mut text, alloc, report)?;
    Ok(text)
}

// Adds how many nodes, scopes and turns there are.
fn push_sizes(text: &mut Vec<u8>, alloc: Global, report: &Report) -> Result<(), AllocError>
    ensures { OnOk result (text.new.items ≡ text.old.items ++ sizes_text (reported report.now)) }
{
    push_number(text, alloc, "nodes", report.nodes.len() as u64)?;
    push_number(text, alloc, "scopes", report.scopes.len() as u64)?;
    push_number(text, alloc, "turns", turns(report))
}

// Adds both bounds.
fn push_bounds(text: &mut Vec<u8>, alloc: Global, report: &Report) -> Result<(), AllocError>
    ensures { OnOk result (text.new.items ≡ text.old.items ++ bounds_text (reported report.now)) }
{
    push_number(text, alloc, "count-bound", report.count_bound)?;
    push_number(text, alloc, "path-bound", path(report))
}

// Adds a word and its number.
fn push_number(text: &mut Vec<u8>, alloc: Global, word: &str, number: u64) -> Result<(), AllocError>
    ensures { OnOk result (text.new.items ≡ text.old.items ++ number_line word.now number) }
{
    text.extend_from_slice(word.as_bytes())?;
    let rest = format!(in alloc; " {number}\n")?;
    text.extend_from_slice(rest.as_bytes())?;
    Ok(())
}

// How many steps the exploration has.
fn turns(report: &Report) -> u64
    ensures { result ≡ turns_of (reported report.now) }
{
    match &report.cert {
        Some(cert) => steps(&cert.events),
        None => 0,
    }
}

// How many of the events are steps.
fn steps(events: &[Event]) -> u64
    ensures { result ≡ steps_among events.now }
{
    events.iter().filter(|event| is_step(event)).count() as u64
}

// The event is a step.
fn is_step(event: &Event) -> bool
    ensures { result ≡ is_step event.now }
{
    match event {
        Event::Step(_) => true,
        Event::Merge(_, _) => false,
    }
}

// The number of the path bound, 0 where there is none.
fn path(report: &Report) -> u64
    ensures { result ≡ path_of (reported report.now) }
{
    match report.path_bound {
        Some((bound, _)) => bound,
        None => 0,
    }
}

//! Lines about reports that are read.

ghost use Rattle.std.specs.Prelude.{◌≡◌, ◌++◌, ◌∷◌, [], decimal, codes, IfOk, IsSomeAnd};
ghost use Rattle.fact_text.specs.Language.{departure_of};
ghost use Rattle.answer_texts.specs.FaultWords.{fault_word};
ghost use Rattle.answer_texts.specs.NoLines.{holds_line, numbered_line, objection_line};
ghost use Rattle.answer_texts.specs.ReportFaultLines.{place_line, report_fault_line};

use crate::fault_words::word_of;
use alf_ops::RunFault;
use fact_text::ReportFault;
use flow_base::Place;
use report_objections::Objection;
use std::alloc::{AllocError, Global};

/// The line that tells where a text departs from the grammar of reports. Want of memory has none.
pub fn report_fault_line(alloc: Global, fault: &ReportFault) -> Result<Vec<u8>, AllocError>
    ensures { IfOk result
        (λ line. IsSomeAnd (departure_of fault.now) (λ departure. line.items ≡ report_fault_line departure)) }
{
    match fault {
        ReportFault::Syntax(place) => place_line(alloc, "fault 60 syntax", *place),
        ReportFault::Number(place) => place_line(alloc, "fault 61 number", *place),
        ReportFault::Memory => Err(AllocError),
    }
}

// The line of a place, after these words.
fn place_line(alloc: Global, words: &str, place: Place) -> Result<Vec<u8>, AllocError>
    ensures { IfOk result (λ line. line.items ≡ place_line words.now place) }
{
    let line = place.line;
    let column = place.column;
    let text = format!(in alloc; "{words} {line} {column}\n")?;
    Ok(text.into_bytes())
}

/// The line that tells what speaks against a report.
pub fn objection_line(alloc: Global, objection: Objection) -> Result<Vec<u8>, AllocError>
    ensures { IfOk result (λ line. line.items ≡ objection_line objection) }
{
    match objection {
        Objection::NoCertificate => Vec::from_slice(alloc, b"no cert\n"),
        Objection::NoShape => Vec::from_slice(alloc, b"no shape\n"),
        Objection::NoEvent(k) => numbered_line(alloc, "no event", u128::from(k)),
        Objection::NoEnd(scope) => numbered_line(alloc, "no left", u128::from(scope)),
        Objection::NoAlarm(node, fault) => alarm_line(alloc, node, fault),
        Objection::NoFact(line) => numbered_line(alloc, "no fact", u128::from(line)),
        Objection::NoCountBound => Vec::from_slice(alloc, b"no count-bound\n"),
        Objection::Negative(row) => numbered_line(alloc, "no negative", u128::from(row)),
        Objection::Wide(row) => numbered_line(alloc, "no wide", u128::from(row)),
        Objection::Column(column) => numbered_line(alloc, "no column", u128::from(column)),
        Objection::Bound(value) => numbered_line(alloc, "no bound", value),
        Objection::Outside(k) => numbered_line(alloc, "no outside", u128::from(k)),
        Objection::NoPathBound => Vec::from_slice(alloc, b"no path-bound\n"),
    }
}

/// The line of a run that a report holds of, which tells what the run costs.
pub fn holds_line(alloc: Global, cost: u64) -> Result<Vec<u8>, AllocError>
    ensures { IfOk result (λ line. line.items ≡ holds_line cost) }
{
    numbered_line(alloc, "holds cost", u128::from(cost))
}

// The line of a number, after these words.
fn numbered_line(alloc: Global, words: &str, number: u128) -> Result<Vec<u8>, AllocError>
    ensures { IfOk result (λ line. line.items ≡ numbered_line words.now number) }
{
    let text = format!(in alloc; "{words} {number}\n")?;
    Ok(text.into_bytes())
}

// The line of a fault that was told at the node and has no alarm.
fn alarm_line(alloc: Global, node: u32, fault: RunFault) -> Result<Vec<u8>, AllocError>
    ensures { IfOk result
        (λ line. line.items ≡ codes "no alarm " ++ (decimal node ++ (32 ∷ (fault_word fault ++ 10 ∷ [])))) }
{
    let word = word_of(fault);
    let text = format!(in alloc; "no alarm {node} {word}\n")?;
    Ok(text.into_bytes())
}

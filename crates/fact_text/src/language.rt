//! Texts and what they mean.

ghost use Rattle.std.specs.Prelude.{◌≡◌, ◌-◌, ◌<◌, ◌^◌, ◌↔◌, ℕ, IsTrue, List, length, Ok, Err, IfOk, IfErr, IfSome};
ghost use Rattle.std.specs.Prelude.{IsSomeAnd};
ghost use Rattle.flow_facts.specs.Reports.{reported};
ghost use Rattle.flow_facts.specs.Writable.{IsWritable};
ghost use Rattle.fact_text.specs.Reading.{fault_of};
ghost use Rattle.fact_text.specs.Language.{Means, HasOneMeaning, departure_of, placed};

use crate::laws::writable_reports_are_spelled;
use crate::reader::Reader;
use fact_words::{Departure, ReportFault};
use flow_base::place_of;
use flow_facts::Report;
use std::alloc::Global;

/// The report that a text spells, or the text's first departure from the grammar.
///
/// The text is read from its first byte in one pass, in time in proportion to it, and what it takes
/// of memory is the report alone. The words of a line are tested in their order; then that the line
/// stands after the one before it, then that its least count is not above its greatest. Where 4,294,967,295
/// nodes or scopes or more stand in the text, memory is said to be wanting.
pub fn read(alloc: Global, bytes: &[u8]) -> Result<Report, ReportFault>
    // A text means one thing (`one_meaning`), and this is it.
    ensures spelled { IfOk result (λ report. Means bytes.now (Ok (reported report))) }
    ensures departs { IfErr result
        (λ fault. IfSome (departure_of fault) (λ departure. Means bytes.now (Err departure))) }
    // The condition of `print`.
    ensures writable { IfOk result (λ report. IsWritable (reported report)) }
    // Numbers of 32 bits count the nodes and the scopes, with one number left over.
    ensures few_nodes { IfOk result (λ report. length report.nodes.items < 2 ^ 32 - 1) }
    ensures few_scopes { IfOk result (λ report. length report.scopes.items < 2 ^ 32 - 1) }
{
    let report = spelled(alloc, bytes)?;
    if !is_few(report.nodes.len()) || !is_few(report.scopes.len()) {
        return Err(ReportFault::Memory);
    }
    Ok(report)
}

// Whether 32 bits number so many, and one more.
fn is_few(count: usize) -> bool
    ensures { IsTrue result ↔ count < 2 ^ 32 - 1 }
{
    count < u32::MAX as usize
}

// The report that the text spells, however many lines it has.
fn spelled(alloc: Global, bytes: &[u8]) -> Result<Report, ReportFault>
    ensures spelled { IfOk result (λ report. Means bytes.now (Ok (reported report))) }
    ensures departs { IfErr result
        (λ fault. IfSome (departure_of fault) (λ departure. Means bytes.now (Err departure))) }
    ensures writable { IfOk result (λ report. IsWritable (reported report)) }
{
    writable_reports_are_spelled();
    let mut reader = Reader::new(alloc, bytes);
    match reader.report() {
        Ok(report) => Ok(report),
        Err(departure) => Err(told(bytes, departure)),
    }
}

/// Each text spells exactly one report, or has exactly one first departure.
pub fn one_meaning()
    ensures { (bytes : List ℕ) → HasOneMeaning bytes }
{}

// The departure with its place in the text.
fn told(bytes: &[u8], departure: Departure) -> ReportFault
    ensures { IfSome (departure_of result)
        (λ told. IsSomeAnd (fault_of departure) (λ fault. told ≡ placed bytes.now fault)) }
{
    match departure {
        Departure::Syntax(left) => ReportFault::Syntax(place_of(bytes, left)),
        Departure::Number(left) => ReportFault::Number(place_of(bytes, left)),
        Departure::Memory => ReportFault::Memory,
    }
}

//! The text of a report, which spells it.

ghost use Rattle.std.specs.Prelude.{◌≡◌, IfOk};
ghost use Rattle.flow_facts.specs.Reports.{reported};
ghost use Rattle.flow_facts.specs.Writable.{IsWritable};
ghost use Rattle.fact_words.specs.Canonical.{report_text};
ghost use Rattle.fact_text.specs.Language.{SpellsReport};

use crate::laws::writable_reports_are_spelled;
use flow_facts::Report;
use std::alloc::{AllocError, Global};

/// The text of a report, which is read as the same report.
///
/// Each line ends with a line feed, its words have one space between them, and a number has no zeros
/// before its digits. Takes memory for the text, and time in proportion to it.
pub fn print(alloc: Global, report: &Report) -> Result<Vec<u8>, AllocError>
    ensures text { IfOk result (λ text. text.items ≡ report_text (reported report.now)) }

    // The text is a spelling of the report, so `read` gives the same report again.
    ensures spelled { IsWritable (reported report.now)
        → IfOk result (λ text. SpellsReport text.items (reported report.now)) }
{
    writable_reports_are_spelled();
    let text = fact_words::print(alloc, report)?;
    Ok(text)
}

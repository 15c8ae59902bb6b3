//! What the definitions promise, as a function that does nothing when it is called.

ghost use Rattle.fact_text.specs.ReportLaws.{ReportsHaveOneText, TextsSpellTheirReports};

use crate::laws::writable_reports_are_spelled;
use fact_words::texts_are_their_tokens;

/// A text that spells a report is the text of the report, and the texts of writable reports are the
/// texts that spell reports.
pub fn each_report_has_one_text()
    ensures one { ReportsHaveOneText }
    ensures exactly { TextsSpellTheirReports }
{
    texts_are_their_tokens();
    writable_reports_are_spelled();
}

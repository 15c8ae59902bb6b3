//! What the definitions promise, as functions that do nothing when they are called.

ghost use Rattle.fact_text.specs.Laws.{SpelledWhereWritable, ReportTextsSpell, ReportsHaveOwnTexts};

use fact_words::printed_texts_are_cut;

/// Some text spells a report exactly where the report is writable, a condition on reports alone.
/// Then its own text does.
pub fn writable_reports_are_spelled()
    ensures exactly { SpelledWhereWritable }
    ensures own { ReportTextsSpell }
{
    printed_texts_are_cut();
}

/// Two reports have two texts.
pub fn two_reports_have_two_texts()
    ensures { ReportsHaveOwnTexts }
{
    printed_texts_are_cut();
}

//! What the definitions promise, as a function that does nothing when it is called.

ghost use Rattle.command_files.specs.Laws.{FilesMeanTheirReport};

use fact_text::one_meaning;

/// The report that bytes spell is the only meaning of a file that has them. Does nothing when it is called.
pub fn a_file_means_its_report()
    ensures { FilesMeanTheirReport }
{
    one_meaning();
}

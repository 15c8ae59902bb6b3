//! The texts of answers: what a command prints of a run, a report, boxes of inputs, a cache or response
//! times, and its lines of refusal.
//!
//! A function makes one text, and its clause says which: the definitions of `specs/` have each text byte
//! for byte, over the meaning of what it tells. No command is known here, and no file is read: which text
//! answers which words stands in `sweet_cli`. The lines of a program's text and of its checks are those of
//! `program_files`. Nothing is trusted but the standard library.
#![tactic(auto)]

// What is told of a run, and the words of faults.
mod fault_words;
mod run_lines;

// Lines that name nodes and scopes.
mod scope_lines;

// Lines about reports that are read, and the numbers of one that is made.
mod report_lines;
mod summary_lines;

// What is told of boxes of inputs, of a cache, and of response times.
mod box_lines;
mod cache_lines;
mod response_lines;

// Lines of table files that are refused.
mod table_lines;

// The text of a program of C that is made.
mod made_lines;

// Rows, worked out by hand.
mod worked;

pub use box_lines::worst_text;
pub use cache_lines::cache_text;
pub use made_lines::made_text;
pub use report_lines::{holds_line, objection_line, report_fault_line};
pub use response_lines::{late_line, response_text};
pub use run_lines::run_text;
pub use scope_lines::{irreducible_line, left_line};
pub use summary_lines::summary_text;
pub use table_lines::table_line;
pub use worked::{
    a_fault_has_one_word, answers_are_told_line_by_line, nodes_are_told_by_their_names,
    runs_are_told_line_by_line, tables_are_refused_in_one_line, times_boxes_and_numbers_are_told,
    what_speaks_against_a_report_has_its_line,
};

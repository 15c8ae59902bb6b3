//! The files that a command reads: its program with the scopes of the graph, inputs, costs, values, tasks
//! and a report.
//!
//! A file is read, and then judged: it means one thing, or one line tells why it is refused. The clauses
//! say which order of work this is, in the words of the crate `command_plans`, and what told files say of
//! what comes of it. `program_files` reads the program's own file. Nothing is trusted but the standard
//! library.
#![tactic(auto)]

// The program of a command, with the scopes of its graph.
mod laid_out;
mod scopes;

// Tables: inputs and costs, the values of a run, and tasks.
mod tables;
mod task_files;
mod values;

// Reports, and the law of their files.
mod laws;
mod report_files;

pub use laid_out::laid_out_in;
pub use laws::a_file_means_its_report;
pub use report_files::report_in;
pub use scopes::{ScopedProgram, scoped_in};
pub use tables::{Tables, tables_in};
pub use task_files::tasks_told;
pub use values::values_in;

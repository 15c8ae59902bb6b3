//! The words of the command line, read by one command of `clap`.
//!
//! `read` takes the words after the program's name and gives the command that they are. Words are a
//! command exactly where `clap` takes them and the values have their forms: its clauses say so in
//! the words of `specs/`, which know no parser.
#![tactic(auto)]

// The commands and what each takes, as `clap` reads them.
mod forms;
mod program;

// What the words give.
mod command;
mod files;
mod merging;
mod reading;
mod root;
mod values;

// Laws of words.
mod laws;

// Rows, worked out by hand.
mod worked;

pub use command::{
    AnalyseWords, CacheWords, CheckWords, Command, LowerWords, ReplayWords, RunWords, WorstWords,
};
pub use files::ProgramFile;
pub use laws::{merges_have_their_words, options_stand_freely};
pub use merging::Merging;
pub use reading::{WordsFault, read};
pub use worked::{analyse_takes_what_its_words_say, commands_take_their_words, roots_are_names};

//! What the words of a command line mean: the commands of `sweet_words`, under its names.

pub use sweet_words::{
    AnalyseWords, CacheWords, CheckWords, Command, LowerWords, Merging, ProgramFile, ReplayWords,
    RunWords, WordsFault, WorstWords, read,
};

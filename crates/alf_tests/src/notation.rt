//! Words of a short notation, and the words of faults.

use alf_ops::RunFault;
use std::alloc::AllocError;

/// What a word begins with, and what then stands before and after the name behind it.
pub(crate) type Row = (&'static str, &'static str, &'static str);

/// Adds what the first row that fits the word makes of it; a word that no row fits stands as it is.
pub(crate) fn put(text: &mut String, rows: &[Row], word: &str) -> Result<(), AllocError> {
    for (mark, before, after) in rows {
        if let Some(name) = word.strip_prefix(*mark) {
            return around(text, before, name, after);
        }
    }
    around(text, "", word, " ")
}

fn around(text: &mut String, before: &str, word: &str, after: &str) -> Result<(), AllocError> {
    text.push_str(before)?;
    text.push_str(word)?;
    text.push_str(after)
}

/// The word of a fault.
pub(crate) fn fault_word(fault: RunFault) -> &'static str {
    match fault {
        RunFault::Divide => "divide",
        RunFault::Uninit => "uninit",
        RunFault::Mixed => "mixed",
        RunFault::Bounds => "bounds",
        RunFault::Dead => "dead",
        RunFault::Kind => "kind",
        RunFault::Pointers => "pointers",
    }
}

//! The commands, and what each takes after its name.

/// A command: the name that is its first word, its positionals, which are all required, its
/// options with a value, and its flags.
pub struct Form {
    pub name: &'static str,
    pub positionals: &'static [&'static str],
    pub values: &'static [&'static str],
    pub flags: &'static [&'static str],
}

/// The commands that are built: a further command is a further row.
pub static FORMS: [Form; 11] = [
    Form {
        name: "analyse",
        positionals: &["file"],
        values: &["root", "inputs", "costs", "turns", "merge", "pivots"],
        flags: &["cert"],
    },
    Form {
        name: "check",
        positionals: &["file", "report"],
        values: &["root", "inputs", "costs"],
        flags: &[],
    },
    Form {
        name: "replay",
        positionals: &["file", "report"],
        values: &["at", "root", "inputs", "costs"],
        flags: &[],
    },
    Form {
        name: "lower",
        positionals: &["file"],
        values: &["root"],
        flags: &[],
    },
    Form {
        name: "print",
        positionals: &["file"],
        values: &[],
        flags: &[],
    },
    Form {
        name: "run",
        positionals: &["file"],
        values: &["root", "inputs", "costs", "turns"],
        flags: &[],
    },
    Form {
        name: "generate",
        positionals: &["number"],
        values: &[],
        flags: &[],
    },
    Form {
        name: "migrate",
        positionals: &["report"],
        values: &[],
        flags: &[],
    },
    Form {
        name: "cache",
        positionals: &["file"],
        values: &[
            "sets", "ways", "line", "penalty", "root", "inputs", "costs", "turns", "merge",
        ],
        flags: &[],
    },
    Form {
        name: "worst",
        positionals: &["file"],
        values: &[
            "splits", "root", "inputs", "costs", "turns", "merge", "pivots",
        ],
        flags: &[],
    },
    Form {
        name: "tasks",
        positionals: &["file"],
        values: &[],
        flags: &[],
    },
];

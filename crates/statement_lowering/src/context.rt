//! What is known where a statement is put.

/// The labels to which `break` and `continue` lead, where they may stand.
#[derive(Clone, Copy, Debug)]
pub struct Targets {
    pub leave: Option<u64>,
    pub again: Option<u64>,
}

/// The numbers of the next label and of the next call.
#[derive(Clone, Copy, Debug)]
pub struct Next {
    pub labels: u64,
    pub calls: u64,
}

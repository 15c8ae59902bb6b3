//! What an operator answers.

/// What an operator gives at sets of words.
#[derive(Drop)]
pub struct Applied<D> {
    /// Its words at all choices that do not divide by 0, or None where there is none.
    pub value: Option<D>,
    /// Whether a choice may divide by 0.
    pub divide: bool,
}

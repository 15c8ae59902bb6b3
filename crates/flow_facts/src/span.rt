//! Ranges of counts.

ghost use Rattle.std.specs.Prelude.{◌≡◌};
ghost use Rattle.flow_facts.specs.Walking.{is_between};

/// The least and the greatest of what a count may be.
#[derive(Clone, Copy)]
pub struct Span {
    pub low: u32,
    pub high: u32,
}

impl Span {
    /// Whether the count is in the range.
    pub fn has(self, count: u64) -> bool
        ensures { result ≡ is_between self.low self.high count }
    {
        u64::from(self.low) <= count && count <= u64::from(self.high)
    }
}

//! The answer of the test.

/// What the test of multipliers answers. Rows and columns are numbered from 0.
#[derive(Clone, Copy, Debug, PartialEq, Eq, Drop)]
pub enum Verdict {
    /// The multipliers bound each point's value by this number, and it is at most the bound.
    Holds(u64),
    /// The multiplier of this at-most row is below 0.
    Negative(u32),
    /// A product or a sum at this row has more than 128 bits.
    Wide(u32),
    /// The multipliers do not bound the cost of this column.
    Column(u32),
    /// The multipliers bound each point's value by this number alone, which is above the bound.
    Bound(u128),
}

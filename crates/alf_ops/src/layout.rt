//! The layouts of the table's rows: which sizes are written, which operands stand after them,
//! and which size the result has.

ghost use Rattle.std.specs.Prelude.{◌≡◌, ◌<◌, IsTrue, slice_get, slice_index};
ghost use Rattle.alf_ops.specs.Layouts.{size_count, is_size as size_in_range, is_typed, result_by_layout};
ghost use Rattle.alf_ops.specs.Layouts.{operands_by_layout};

/// How the sizes, the operands and the result of a row belong together.
#[derive(Clone, Copy)]
pub enum Layout {
    /// One size, one operand of it.
    Unary,
    /// One size, two operands of it and a bit; the result has the size.
    Sum,
    /// The same operands; the result is a bit.
    Carry,
    /// Two sizes and an operand of each; the result has the sum of the sizes.
    Joined,
    /// Two sizes and an operand of each; the result has the first.
    First,
    /// Two sizes and an operand of each; the result has the second.
    Second,
    /// One size, two operands of it.
    Binary,
    /// The same; the result is a bit.
    Comparison,
    /// Two sizes, the second no smaller; an operand of the first, a result of the second.
    Extension,
    /// Two sizes, the second no greater; an operand of the first, a result of the second.
    Truncation,
    /// A size and two places in it, one operand; the result has the bits between the places.
    Field,
    /// One size, a bit and two operands of the size.
    Choice,
}

/// The size at this place, or 0 after the last.
pub fn size_at(sizes: &[u32], place: usize) -> u32
    ensures { result ≡ slice_index sizes.now place }
{
    if place < sizes.len() { sizes[place] } else { 0 }
}

/// How many sizes are written.
pub fn sizes_written(layout: Layout) -> usize
    ensures { result ≡ size_count layout }
{
    match layout {
        Layout::Unary | Layout::Sum | Layout::Carry => 1,
        Layout::Binary | Layout::Comparison | Layout::Choice => 1,
        Layout::Joined | Layout::First | Layout::Second => 2,
        Layout::Extension | Layout::Truncation => 2,
        Layout::Field => 3,
    }
}

/// Whether a word may have this size.
fn is_size(size: u32) -> bool
    ensures { result ≡ size_in_range size }
{
    1 <= size && size <= 64
}

/// Whether these sizes may stand in a row of the layout.
pub fn may_stand(layout: Layout, m: u32, n: u32, h: u32) -> bool
    ensures { result ≡ is_typed layout m n h }
{
    match layout {
        Layout::Joined => is_size(m) && is_size(n) && is_size(m + n),
        Layout::First | Layout::Second => is_size(m) && is_size(n),
        Layout::Extension => is_size(m) && is_size(n) && m <= n,
        Layout::Truncation => is_size(m) && is_size(n) && n <= m,
        Layout::Field => is_size(m) && n <= h && h < m,
        _ => is_size(m),
    }
}

/// The size of the result.
pub fn result_of(layout: Layout, m: u32, n: u32, h: u32) -> u32
    requires { IsTrue (is_typed layout m n h) }
    ensures { result ≡ result_by_layout layout m n h }
{
    match layout {
        Layout::Carry | Layout::Comparison => 1,
        Layout::Joined => m + n,
        Layout::Second | Layout::Extension | Layout::Truncation => n,
        Layout::Field => h - n + 1,
        _ => m,
    }
}

/// The size of operand i, or None where there is none.
pub fn operand_of(layout: Layout, m: u32, n: u32, h: u32, i: u32) -> Option<u32>
    ensures { result ≡ slice_get (operands_by_layout layout m n h) i }
{
    match (layout, i) {
        (Layout::Choice, 0) => Some(1),
        (_, 0) => Some(m),
        (Layout::Unary | Layout::Extension | Layout::Truncation | Layout::Field, _) => None,
        (Layout::Joined | Layout::First | Layout::Second, 1) => Some(n),
        (_, 1) => Some(m),
        (Layout::Sum | Layout::Carry, 2) => Some(1),
        (Layout::Choice, 2) => Some(m),
        _ => None,
    }
}

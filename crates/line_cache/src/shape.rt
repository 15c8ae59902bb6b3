//! The shape of an instruction cache.

/// The shape of an instruction cache.
///
/// A line is the least part of memory that is cached. The number of a line, modulo the sets, is its set, and a set
/// holds as many lines as there are ways. A miss costs the penalty, in the unit of the costs of nodes.
#[derive(Clone, Copy, Debug, PartialEq, Eq, Drop)]
pub struct Shape {
    /// 1 to 1,024.
    pub sets: u32,
    /// 1 to 16.
    pub ways: u32,
    /// The bytes of a line, 4 to 4,096.
    pub line: u32,
    pub penalty: u32,
}

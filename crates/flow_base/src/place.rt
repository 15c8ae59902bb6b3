//! Places in a text, and what may be counted in it.

/// A position in a text: the offset from 0, the line and the column from 1.
///
/// A column counts bytes, and a line ends after each line feed.
#[derive(Clone, Copy, Debug, PartialEq, Eq)]
pub struct Place {
    pub offset: u64,
    pub line: u64,
    pub column: u64,
}

/// A quantity that has a limit.
#[derive(Clone, Copy, Debug, PartialEq, Eq)]
pub enum Which {
    /// The bytes of a file.
    Bytes,
    /// The nesting of an expression.
    Depth,
    /// The functions of a program.
    Functions,
    /// The frames of a program, arguments among them.
    Frames,
    /// The bytes of one frame.
    FrameBytes,
    /// The bytes of all frames.
    AllBytes,
    /// The nodes of a control flow graph.
    Nodes,
    /// The edges of a control flow graph.
    Edges,
    /// The parentheses that are open at one place of a C text.
    Parens,
    /// The nesting of statements of a C text.
    Nesting,
    /// The elements of all arrays of a C text.
    Elements,
    /// The statements of all functions together.
    Statements,
    /// The tasks of a task set.
    Tasks,
}

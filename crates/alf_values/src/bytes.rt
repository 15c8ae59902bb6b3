//! One byte of a frame.

/// What a byte of a frame holds once something was stored in it.
#[derive(Clone, Copy, Debug, PartialEq, Eq)]
pub enum Content {
    /// A byte of a word.
    Word(u8),
    /// One of the four bytes of a pointer: the frame and the offset that it points to, and the
    /// byte's number in it, the lowest first.
    Pointer { frame: u32, offset: u32, place: u8 },
}

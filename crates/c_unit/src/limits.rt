//! The limits of texts.

/// The most functions that a text defines.
pub const MOST_FUNCTIONS: u64 = 256;

/// The most variables, parameters, and calls of functions that give something.
pub const MOST_FRAMES: u64 = 256;

/// The most elements of arrays in all.
pub const MOST_ELEMENTS: u64 = 8_192;

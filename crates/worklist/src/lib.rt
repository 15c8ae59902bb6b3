//! A list that is changed about one place, and that knows its first least element.
//!
//! Each element has a key, a list of numbers, and keys are compared as lists. The list stands in two parts that
//! meet where it was changed last; each entry tells where the first least on its far side stands. So a change takes
//! time by how far it stands from the last one, and the first element of least key is had without reading the
//! others. Contracts see one list, and nothing of the parts.
#![tactic(auto)]

// An element and its key.
mod entry;
mod keyed;
mod order;

// The two parts of a list.
mod earlier;
mod halves;
mod later;

// The list.
mod line;

pub use keyed::Keyed;
pub use line::Line;

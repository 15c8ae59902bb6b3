//! Entries of a part of a list.

/// An element, and where the first least stands among it and others. Moving an entry does not move its element.
#[derive(Drop)]
pub struct Entry<X> {
    pub item: Box<X>,
    pub least: usize,
}

//! One frame of an abstract memory, kept as slots: its cells as they stand, loads, stores and joins.
//!
//! A load and a weak store begin with the cell as it stands: as it is kept, or else what the flags of its bytes say
//! of it. What a load gives is joined onto what was loaded before, so that a load through an address with several
//! possible cells goes from cell to cell. A store goes from place to place and puts a slot only where something of
//! it changes, since frames that were copied share the slots that none of them changed. A join leaves shared what
//! both sides have.
//!
//! Each call gives exactly what the definitions of `memory_rules` say of the frame that the slots stand for
//! (`frame_of` of `memory_model`). The slots are those of `memory_pages`.
#![tactic(auto)]

// A byte and a cell as they stand.
mod byte;
mod cell;

// Loads: what a cell gives, and what was loaded.
mod load;
mod loaded;
mod word;

// Stores: the places where something may change, and how a slot is put.
mod overlapping;
mod slots;
mod stored;

// What a store leaves in a byte and in its cell.
mod joined;
mod stored_byte;
mod stored_cell;

// What it makes of the other cells.
mod dropped;
mod marked;
mod mixed;

// The stores.
mod pins;
mod strong;
mod weak;

// Joins: of two slots, and of two frames.
mod frame;
mod joined_byte;
mod joined_cell;
mod slot;

pub use byte::byte_of;
pub use cell::{cell_of_bytes, kept_cell, standing_cell};
pub use frame::joined_frame;
pub use load::{known_value, load_onto};
pub use loaded::Loaded;
pub use pins::pin;
pub use strong::store_strongly;
pub use weak::store_weakly;

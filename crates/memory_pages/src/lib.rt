//! The bytes and the cells of one frame, in shared pages.
//!
//! A slot holds one byte of a frame and the cells that begin at it. `FrameSlots` keep the slots of a short frame in one
//! list and those of a longer one in pages of 16 or of 32, all of which copies share; a slot that is put makes its
//! list, and its page, its own first. Contracts see one list of slots and know nothing of pages. What loads and stores
//! make of the slots is said in the crates above. The crate rests on abstract values, which cells hold.
#![tactic(auto)]

// What is kept at one offset.
mod byte;
mod held;
mod kept_byte;
mod kept_cell;
mod slot;

// What is kept of a frame: a list of slots, or pages.
mod frame;
mod page;
mod pages;
mod sheet;

pub use byte::Byte;
pub use frame::FrameSlots;
pub use held::Held;
pub use kept_cell::KeptCell;
pub use slot::Slot;

//! The abstract memory of a program: which functions run, and what the bytes and cells of its frames may hold.
//!
//! `AMem` keeps a flag for each function and the slots of each frame, in the shared pages of `memory_pages`. It
//! stands for a memory of the rules (`memory_in` of `memory_model`), and what each call makes of it is said by the
//! definitions of `memory_rules`, of which it is proved there that they cover each run, and are exact where one run
//! is followed.
//!
//! Loads and stores go through an abstract address, which may mean several cells. `cells` gives these one by one in
//! ascending order, in time of the cells and not of the frames that they lie in; most addresses of a program mean
//! one cell alone, which `lone_cell` finds without memory.
#![tactic(auto)]

// Which functions run.
mod running;

// Frames that are active, and the offsets of a pointer one after the other.
mod active;
mod offsets;

// The cells of an address, and its faults.
mod cell;
mod fault;

// Addresses that mean one cell alone.
mod lone;

// What a memory begins with.
mod start;

// What its frames become, and what loads give.
mod frames;
mod loads;
mod stores;

// The memory.
mod memory;

pub use cell::{cells, has_cell};
pub use fault::address_faults;
pub use lone::lone_cell;
pub use memory::AMem;

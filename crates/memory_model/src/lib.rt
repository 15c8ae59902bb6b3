//! What the code of an abstract memory keeps, and the memory of the rules that it stands for.
//!
//! Code keeps a program, a flag for each function and the slots of each frame (`MemoryParts`). `frame_of` is the
//! frame that slots stand for, and `memory_in` the memory of all of them; `made` goes the other way, and each
//! undoes the other where nothing is held outside the frames. So memories of code may be told apart by what they
//! stand for. A store changes slots one by one: `slot_stored` says what becomes of the slot at an offset, and the
//! frame of the changed slots is the frame after the store.
//!
//! The functions do nothing, and their clauses are the laws. They rest on the definitions of `memory_rules`, the
//! slots of `memory_pages` and the programs of `alf_check`.
#![tactic(auto)]

// Slots as a frame, and what stores make of them.
mod held_laws;

// What code keeps, as a memory.
mod seen_laws;

pub use held_laws::{
    held_memories_are_those_of_the_rules, memories_are_a_lattice, slots_change_as_their_frame_does,
};
pub use seen_laws::{memories_of_code_are_a_lattice, parts_are_told_by_what_they_stand_for};

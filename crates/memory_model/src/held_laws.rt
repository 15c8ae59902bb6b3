//! What slots and their changes stand for, and the order of memories.

ghost use Rattle.memory_model.specs.SlotStores.{SlotsStored, StrongIsStored, WeakIsStored, PinIsStored};
ghost use Rattle.memory_model.specs.HeldMemories.{FreshHeld, LeftHeld, EnteredHeld, FrameHeld, JoinedHeld};
ghost use Rattle.memory_model.specs.MemoryOrders.{MemoriesAreALattice};

/// The frame of slots that were each changed as a store changes its slot is the frame after the store; strong
/// and weak stores and pins are such stores.
pub fn slots_change_as_their_frame_does()
    ensures slots { SlotsStored }
    ensures strong { StrongIsStored }
    ensures weak { WeakIsStored }
    ensures pin { PinIsStored }
{}

/// A join of two memories in which the same functions run is above both, in the order of what they cover.
pub fn memories_are_a_lattice()
    ensures { MemoriesAreALattice }
{}

/// Lists of flags and slots, changed as the calls of a memory change them, are the memory that the definitions
/// give: before each event, after a function is left or entered, after one frame is changed, and joined.
pub fn held_memories_are_those_of_the_rules()
    ensures fresh { FreshHeld }
    ensures left { LeftHeld }
    ensures entered { EnteredHeld }
    ensures frame { FrameHeld }
    ensures joined { JoinedHeld }
{}

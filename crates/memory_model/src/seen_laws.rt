//! Parts, the memories that they stand for, and their order.

ghost use Rattle.domain_core.specs.Orders.{IsOrder};
ghost use Rattle.memory_model.specs.KeptMemories.{MemoryParts};
ghost use Rattle.memory_model.specs.SeenOrders.{parts_order};
ghost use Rattle.memory_model.specs.KeptMemoryWords.{PartsAreMade, MadeIsSeen, MadeIsMemory, SeenIsWithin};

/// The parts of a memory are those made of the memory that they stand for, which holds nothing outside the frames
/// of the program; and what is made of such a memory stands for it.
pub fn parts_are_told_by_what_they_stand_for()
    ensures parts { PartsAreMade }
    ensures within { SeenIsWithin }
    ensures memory { MadeIsSeen }
    ensures sized { MadeIsMemory }
{}

/// What is above covers as much, and a join of memories of one program in which the same functions run is above
/// both.
pub fn memories_of_code_are_a_lattice()
    ensures { IsOrder MemoryParts parts_order }
{}

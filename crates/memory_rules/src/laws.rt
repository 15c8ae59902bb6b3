//! What an abstract memory of abstract values promises.

ghost use Rattle.memory_rules.specs.ValueSets.{IsValueSets};
ghost use Rattle.memory_rules.specs.AbstractSets.{abstract_sets};
ghost use Rattle.memory_rules.specs.Addresses.{LoadsAt, StoresAt, FaultsAt, LoadsOnly, StoresOnly, FaultsOnly};
ghost use Rattle.memory_rules.specs.MemoryLaws.{StoreCovers, LoadCovers, LoadsCover, LoadGathers, LoadsGather};
ghost use Rattle.memory_rules.specs.MemoryLaws.{JoinCovers, EnterCovers, LeaveCovers, PinCovers, MemoryPinCovers};
ghost use Rattle.memory_rules.specs.MemoryLaws.{MemoryPinSharp, MemoryPinSized, StartSharp, LoadExact, StoreSharp};
ghost use Rattle.memory_rules.specs.MemoryLaws.{PinSharp, MemoryStaysSharp, EnterSharp, LeaveSharp, StoreSized};
ghost use Rattle.memory_rules.specs.MemoryLaws.{PinSized, JoinSized, EnterSized, LeaveSized};

/// Abstract values, with strided words in bytes, have what a memory needs of its values: joins, bytes
/// and concatenations keep members and sizes, and from single members come single members.
pub fn abstract_values_suit_a_memory()
    ensures { IsValueSets abstract_sets }
{}

/// After a store to one of several possible cells the memory covers the history with the store.
pub fn a_store_covers()
    ensures { StoreCovers abstract_sets }
{}

/// A load of a cell of an active frame is among the results of the cell, and among those of several
/// possible cells that it is one of.
pub fn a_load_is_among_the_results()
    ensures cell { LoadCovers abstract_sets }
    ensures cells { LoadsCover abstract_sets }
{}

/// What is among the results of a load is in its joined value or told among its faults, and exact
/// results give it alone; of one cell, and of several.
pub fn a_load_gathers_its_results()
    ensures cell { LoadGathers abstract_sets }
    ensures cells { LoadsGather abstract_sets }
{}

/// A join covers what either side covers.
pub fn a_join_covers_both_sides()
    ensures { JoinCovers abstract_sets }
{}

/// Functions entered and left keep covering.
pub fn calls_keep_covering()
    ensures enter { EnterCovers abstract_sets }
    ensures leave { LeaveCovers abstract_sets }
{}

/// Before each event a memory in which no function runs and no cell is kept is sharp.
pub fn a_fresh_memory_is_sharp()
    ensures { StartSharp abstract_sets }
{}

/// A cell may be pinned to any set with the value that it holds, of a frame and of a whole memory.
pub fn a_pin_covers()
    ensures frame { PinCovers abstract_sets }
    ensures memory { MemoryPinCovers abstract_sets }
{}

/// A load from a sharp frame gives exactly the run's value or fault.
pub fn a_load_from_a_sharp_frame_is_exact()
    ensures { LoadExact abstract_sets }
{}

/// A store of one value to one possible cell, and a pin to one value, keep a frame sharp.
pub fn a_sharp_frame_stays_sharp()
    ensures store { StoreSharp abstract_sets }
    ensures pin { PinSharp abstract_sets }
{}

/// A store of one value to one possible cell keeps a whole memory sharp, and so do a pin to one value
/// and functions entered and left.
pub fn a_sharp_memory_stays_sharp()
    ensures store { MemoryStaysSharp abstract_sets }
    ensures pin { MemoryPinSharp abstract_sets }
    ensures enter { EnterSharp abstract_sets }
    ensures leave { LeaveSharp abstract_sets }
{}

/// Each call keeps the sizes of the values: 8 in a byte, the cell's in a cell.
pub fn each_call_keeps_the_sizes()
    ensures store { StoreSized abstract_sets }
    ensures pin { PinSized abstract_sets }
    ensures memory_pin { MemoryPinSized abstract_sets }
    ensures join { JoinSized abstract_sets }
    ensures enter { EnterSized abstract_sets }
    ensures leave { LeaveSized abstract_sets }
{}

/// A load through an address that is covered has its value in the joined value, or its fault told.
/// After a store through it, of a value that is covered, the memory covers the history with the store
/// and some cell was possible; the fault of a store is told.
pub fn an_address_is_told()
    ensures load { LoadsAt }
    ensures store { StoresAt }
    ensures fault { FaultsAt }
{}

/// Through an address with one member, in a sharp memory, exactly the run's value or fault is told; a
/// store of one value keeps it sharp and tells no fault, and where the run's store has a fault, no
/// cell is possible and no other fault is told.
pub fn one_address_is_told_alone()
    ensures load { LoadsOnly }
    ensures store { StoresOnly }
    ensures fault { FaultsOnly }
{}

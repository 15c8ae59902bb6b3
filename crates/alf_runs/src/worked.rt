//! Runs of small programs, worked out apart from the definitions.

ghost use Rattle.alf_runs.specs.Worked.{CallsTwice, FallsToTheDefault, GivesBack, LeavesFirst, StandsLast};
ghost use Rattle.alf_runs.specs.Worked.{StoresInOrder, FaultsUnset, FaultsPartlySet, FaultsAtPartOfPointer};
ghost use Rattle.alf_runs.specs.Worked.{ReadsLowestFirst, FaultsDangling, FaultsOutside, FaultsAtPointer};

/// A call passes the entry and the block of the function that is called, and a switch leads to the first target of
/// the word, or to the default; exported frames are loaded once the root is left.
pub fn calls_pass_entries_and_blocks()
    ensures twice { CallsTwice }
    ensures targets { FallsToTheDefault }
    ensures inputs { GivesBack }
    ensures left { LeavesFirst }
    ensures over { StandsLast }
{}

/// A word is read byte by byte, the lowest first; bytes that nothing was stored in, and a part of a pointer,
/// are faults.
pub fn loads_read_what_was_stored()
    ensures unset { FaultsUnset }
    ensures partly { FaultsPartlySet }
    ensures part { FaultsAtPartOfPointer }
    ensures lowest { ReadsLowestFirst }
    ensures order { StoresInOrder }
{}

/// A frame that was left, a place outside of a frame, and a pointer that is switched on are faults.
pub fn addresses_fault_where_they_lead()
    ensures dangling { FaultsDangling }
    ensures outside { FaultsOutside }
    ensures pointer { FaultsAtPointer }
{}

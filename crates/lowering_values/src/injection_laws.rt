//! What is true of embedded histories, as clauses of functions that do nothing.

ghost use Rattle.lowering_values.specs.EmbeddingLaws.{RunsAlike, LoadsAgree, StoresAgree, EventsAgree, FurtherFrame};
ghost use Rattle.lowering_values.specs.EmbeddingLaws.{SizesStay};

use alf_ops::a_load_gives_what_was_stored;

/// A function is running in both histories or in none.
pub fn functions_run_alike()
    ensures { RunsAlike }
{}

/// A load at an embedded pointer gives the embedded value, and a store at it leaves histories that
/// agree; a fault of either is the same on both sides.
pub fn loads_and_stores_agree()
    ensures loads { LoadsAgree }
    ensures stores { StoresAgree }
{}

/// Histories agree after a function is entered or left in both, after a value is put into a frame and
/// embedded into its own, and after a store to a further frame alone.
pub fn events_keep_agreement()
    ensures { EventsAgree }
{}

/// A further frame whose owner is active keeps a value that fills it: it is stored without a fault,
/// the histories still agree, and a load gives it again.
pub fn a_further_frame_keeps_its_value()
    ensures { FurtherFrame }
{
    a_load_gives_what_was_stored();
}

/// An embedded value has the size of the value.
pub fn embedded_values_have_their_size()
    ensures { SizesStay }
{}

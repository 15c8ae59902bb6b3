//! What is true of stores, calls, starts and outputs, as clauses of functions that do nothing.

ghost use Rattle.lowering_values.specs.Agreement.{StoresAgree, ObjectsAgree, ElementsAgree, ArgumentsAgree};
ghost use Rattle.lowering_values.specs.Agreement.{ArgumentsFit, EntersAgree, ResultsAgree, OutputsAgree, StartsAgree};

use crate::injection_laws::{
    a_further_frame_keeps_its_value, embedded_values_have_their_size, events_keep_agreement,
    loads_and_stores_agree,
};
use crate::operator_laws::{
    comparisons_give_their_bit, conversions_give_the_same, operators_give_the_same,
    values_have_their_size,
};
use alf_ops::sound_histories_give_values_that_fit;

/// A lowered store has the fault of its own, or leaves histories that agree.
pub fn stores_agree()
    ensures { StoresAgree }
{
    loads_and_stores_agree();
}

/// The name of the frame of an object that a function sees stands for that frame.
pub fn objects_have_their_address()
    ensures { ObjectsAgree }
{}

/// A constant of an array is lowered to its value, cut to the type of the elements.
pub fn constants_agree()
    ensures { ElementsAgree }
{
    conversions_give_the_same();
}

/// The arguments of a call give their values in order, or the first fault, and each value has the size
/// that it tells.
pub fn arguments_agree()
    ensures values { ArgumentsAgree }
    ensures fit { ArgumentsFit }
{
    sound_histories_give_values_that_fit();
    loads_and_stores_agree();
    operators_give_the_same();
    comparisons_give_their_bit();
    conversions_give_the_same();
    values_have_their_size();
}

/// A function is entered with the same values in the same objects.
pub fn functions_are_entered_alike()
    ensures { EntersAgree }
{
    events_keep_agreement();
    embedded_values_have_their_size();
}

/// A result of a function that is running is stored in the frame of its call, and the expression of
/// the call then gives it.
pub fn results_are_kept()
    ensures { ResultsAgree }
{
    a_further_frame_keeps_its_value();
    embedded_values_have_their_size();
    conversions_give_the_same();
    values_have_their_size();
}

/// At the end the global integers hold the same.
pub fn outputs_agree()
    ensures { OutputsAgree }
{
    loads_and_stores_agree();
}

/// At the start, with the cells of an input, histories agree.
pub fn starts_agree()
    ensures { StartsAgree }
{
    events_keep_agreement();
    embedded_values_have_their_size();
}

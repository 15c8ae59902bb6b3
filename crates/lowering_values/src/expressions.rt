//! What is true of expressions, as clauses of functions that do nothing.

ghost use Rattle.lowering_values.specs.Agreement.{ValuesAgree, AddressesAgree, TestsAgree, ComparisonsAgree};
ghost use Rattle.lowering_values.specs.Agreement.{OperatorsAgree, ValuesFit, OperatorsFit, CutsAgree, CutsFit};

use crate::injection_laws::loads_and_stores_agree;
use crate::operator_laws::{
    comparisons_give_their_bit, conversions_give_the_same, operators_give_the_same,
    values_have_their_size,
};
use alf_ops::sound_histories_give_values_that_fit;

/// A lowered expression gives the value or the fault of its own, and so does the address of what it
/// designates.
pub fn expressions_agree()
    ensures values { ValuesAgree }
    ensures addresses { AddressesAgree }
{
    sound_histories_give_values_that_fit();
    loads_and_stores_agree();
    operators_give_the_same();
    comparisons_give_their_bit();
    conversions_give_the_same();
    values_have_their_size();
}

/// A lowered condition is the bit of its own.
pub fn tests_agree()
    ensures tests { TestsAgree }
    ensures comparisons { ComparisonsAgree }
{
    sound_histories_give_values_that_fit();
    loads_and_stores_agree();
    operators_give_the_same();
    comparisons_give_their_bit();
    conversions_give_the_same();
    values_have_their_size();
}

/// An operator at what both sides give, as in `op=`, gives what that of C gives.
pub fn operators_agree()
    ensures { OperatorsAgree }
{
    operators_give_the_same();
}

/// A value is cut to a type as in C.
pub fn conversions_agree()
    ensures { CutsAgree }
{
    conversions_give_the_same();
}

/// After a sound history a value has 32 bits, and one that is cut has the size of its type.
pub fn values_fit()
    ensures values { ValuesFit }
    ensures operators { OperatorsFit }
    ensures cuts { CutsFit }
{
    sound_histories_give_values_that_fit();
    values_have_their_size();
}

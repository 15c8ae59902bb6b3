//! What is true of lowered operators, as clauses of functions that do nothing.

ghost use Rattle.lowering_values.specs.OperatorLaws.{OperatorsGive, ComparisonsGive, TestsGive, UnariesGive};
ghost use Rattle.lowering_values.specs.OperatorLaws.{ExtendsGive, CutsGive, CastsGive, WordsAreCut, ElementsGive};
ghost use Rattle.lowering_values.specs.OperatorLaws.{OperatorsFit, UnariesFit, ExtendsFit, CutsFit, CastsFit};
ghost use Rattle.lowering_values.specs.OperatorLaws.{ElementsFit};

/// An operator of one operand or of two gives what that of C gives, and an element lies where it lies
/// in C. Only of the right operand is it asked that it has 32 bits: it may be taken away.
pub fn operators_give_the_same()
    ensures binary { OperatorsGive }
    ensures unary { UnariesGive }
    ensures elements { ElementsGive }
{}

/// A comparison is the bit of its truth, and any other value is told by the bit that it is not 0.
pub fn comparisons_give_their_bit()
    ensures comparisons { ComparisonsGive }
    ensures tests { TestsGive }
{}

/// A value is extended, cut and cast as in C; of a number that is cut twice the lesser size counts.
pub fn conversions_give_the_same()
    ensures extends { ExtendsGive }
    ensures cuts { CutsGive }
    ensures casts { CastsGive }
    ensures words { WordsAreCut }
{}

/// Each value of C has 32 bits, and one that is cut has the size of its type.
pub fn values_have_their_size()
    ensures binary { OperatorsFit }
    ensures unary { UnariesFit }
    ensures elements { ElementsFit }
    ensures extends { ExtendsFit }
    ensures cuts { CutsFit }
    ensures casts { CastsFit }
{}

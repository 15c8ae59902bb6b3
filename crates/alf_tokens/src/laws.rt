//! What the definitions promise, as functions that do nothing when they are called.

ghost use Rattle.alf_tokens.specs.Laws.{EachTextIsItsPieces, EachPrintedTextIsCut, EachNameIsNamedWell};

/// The pieces of a text, white space among them, in a row are the text: nothing is left out, and
/// nothing stands in two pieces.
pub fn texts_are_their_pieces()
    ensures { EachTextIsItsPieces }
{}

/// Printed tokens are cut again, and the names of each text can be printed.
pub fn printed_texts_are_cut()
    ensures cut { EachPrintedTextIsCut }
    ensures names { EachNameIsNamedWell }
{}

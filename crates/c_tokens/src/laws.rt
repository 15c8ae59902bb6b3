//! What the definitions promise, as functions that do nothing when they are called.

ghost use Rattle.c_tokens.specs.Laws.{EachTextIsItsPieces, EachTokenIsOfItsKind, EachTokenStandsInItsText};
ghost use Rattle.c_tokens.specs.Laws.{EachPrintedTextIsCut};

/// The pieces of a text, white space among them, in a row are the text: nothing is left out, and
/// nothing stands in two pieces.
pub fn texts_are_their_pieces()
    ensures { EachTextIsItsPieces }
{}

/// What a token is hangs on its own bytes, and not on what stands before or after it.
pub fn tokens_are_known_by_their_texts()
    ensures { EachTokenIsOfItsKind }
{}

/// A token is the range of its text that begins where as many bytes are left as it tells.
pub fn tokens_stand_in_their_texts()
    ensures { EachTokenStandsInItsText }
{}

/// Printed tokens are cut again.
pub fn printed_texts_are_cut()
    ensures { EachPrintedTextIsCut }
{}

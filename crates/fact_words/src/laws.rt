//! What the definitions promise, as functions that do nothing when they are called.

ghost use Rattle.fact_words.specs.Laws.{EachTextIsItsTokens, EachPrintedTextIsCut};

/// The tokens of a text, each after the byte that stands before it, are the text: nothing is left
/// out, and nothing stands in two tokens.
pub fn texts_are_their_tokens()
    ensures { EachTextIsItsTokens }
{}

/// Printed tokens are cut again.
pub fn printed_texts_are_cut()
    ensures { EachPrintedTextIsCut }
{}

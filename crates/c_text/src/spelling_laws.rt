ghost use Rattle.c_text.specs.SpellingLaws.{EachSpelledTokenCanBePrinted, NumberedByTheirTexts};

/// Each token of a text that spells trees can be printed.
pub fn spelled_tokens_can_be_printed()
    ensures { EachSpelledTokenCanBePrinted }
{}

/// What tokens are to the grammar hangs on their texts alone.
pub fn tokens_are_numbered_by_their_texts()
    ensures { NumberedByTheirTexts }
{}

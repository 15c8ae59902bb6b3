//! Laws of words, for those who cite their definitions.
ghost use Rattle.std.specs.Prelude.{◌≡◌, Some, None, codes};
ghost use Rattle.sweet_words.specs.declared.merging.Merging.TheVariants.{Never, Exits, Joins};
ghost use Rattle.sweet_words.specs.Merges.{merging_or_joins};
ghost use Rattle.sweet_words.specs.Laws.{HaveAnyOrder, HaveAnyPlace, HaveJoined, HaveNamesOnce, HaveTwoSpellings};

/// The value of an option stands in its word or after it, options stand in any order, and no name
/// is used twice. Does nothing when it is called.
pub fn options_stand_freely()
    ensures joined { HaveJoined }
    ensures spelled_twice { HaveTwoSpellings }
    ensures any_place { HaveAnyPlace }
    ensures any_order { HaveAnyOrder }
    ensures once { HaveNamesOnce }
{}

/// `none` merges nowhere, `exits` where a scope is left, and `joins` everywhere, as where no word is
/// given; there is no other word. Does nothing when it is called.
pub fn merges_have_their_words()
    ensures none { merging_or_joins (Some (codes "none")) ≡ Some Never }
    ensures exits { merging_or_joins (Some (codes "exits")) ≡ Some Exits }
    ensures joins { merging_or_joins (Some (codes "joins")) ≡ Some Joins }
    ensures absent { merging_or_joins None ≡ Some Joins }
    ensures other { merging_or_joins (Some (codes "never")) ≡ None }
{}

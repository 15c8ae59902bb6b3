//! Where an exploration merges states, by its word.
ghost use Rattle.std.specs.Prelude.{◌≡◌, option_map};
ghost use Rattle.sweet_words.specs.Merges.{merging_named, merging_or_joins};

/// Where states of an exploration that stand at one position are merged.
#[derive(Clone, Copy, Debug, PartialEq, Eq)]
pub enum Merging {
    /// Nowhere.
    Never,
    /// Where a scope is left.
    Exits,
    /// Everywhere.
    Joins,
}

// What the word of the option says: everywhere where it is left out.
pub fn merging_or_joins(word: Option<&str>) -> Option<Merging>
    ensures { result ≡ merging_or_joins (option_map (λ s. s.now) word.entry) }
{
    match word {
        Some(word) => merging_named(word),
        None => Some(Merging::Joins),
    }
}

fn merging_named(word: &str) -> Option<Merging>
    ensures { result ≡ merging_named word.now }
{
    match word {
        "none" => Some(Merging::Never),
        "exits" => Some(Merging::Exits),
        "joins" => Some(Merging::Joins),
        _ => None,
    }
}

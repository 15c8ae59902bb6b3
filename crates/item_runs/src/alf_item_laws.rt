//! What is true of all items, as clauses of functions that do nothing.

ghost use Rattle.item_runs.specs.Stretches.{GoesToNamed};
ghost use Rattle.item_runs.specs.Cuts.{BlocksAreCut, FunctionsAreCut};

/// The blocks of a function's items do what these do: from each block on the stretch of the items
/// ahead makes the block's statements and faults where they do, and then falls into the next block,
/// goes to a label from which on the same is done as from the block told, enters the function that is
/// called, with the next block after it, or leaves its own. So it is of each function of a numbered
/// program.
pub fn blocks_do_what_their_items_do()
    ensures blocks { BlocksAreCut }
    ensures functions { FunctionsAreCut }
{}

/// A stretch goes to labels alone that its items name. So where each label that is named stands, as the
/// checks give it, each that a stretch goes to does.
pub fn stretches_go_to_named_labels()
    ensures { GoesToNamed }
{}

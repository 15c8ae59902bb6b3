//! What labels of a lowered function promise.

ghost use Rattle.std.specs.Prelude.{◌≡◌, ◌<◌, ◌≤◌, ◌^◌, ◌∷◌, ℕ, List};
ghost use Rattle.alf_program.specs.Tree.{BodyItem, Label};
ghost use Rattle.item_runs.specs.Stretches.{items_after};
ghost use Rattle.c_unit.specs.Tree.{Statement};
ghost use Rattle.c_rules.specs.Names.{Scope};
ghost use Rattle.c_meaning.specs.Objects.{Program, Function};
ghost use Rattle.c_lowered.specs.Conditions.{Within, label};
ghost use Rattle.c_lowered.specs.Statements.{Around, labels_in_all, items_of};
ghost use Rattle.c_lowered.specs.Programs.{function_items};
ghost use Rattle.lowering_simulation.specs.Counts.{count};
ghost use Rattle.lowering_simulation.specs.Places.{Stands};

/// In a function with at most 2 to 64 labels each label that it allocates stands once among its items, and no label
/// stands twice.
pub fn labels_stand_once()
    ensures once { (program : Program) (f : ℕ) (function : Function) (k : ℕ) → k < labels_in_all function.body
        → labels_in_all function.body ≤ 2 ^ 64
        → count (label (record { program = program; function = f }) k) (function_items program f function) ≡ 1 }
    ensures at_most { (program : Program) (f : ℕ) (function : Function) (k : ℕ) → k < 2 ^ 64
        → labels_in_all function.body ≤ 2 ^ 64
        → count (label (record { program = program; function = f }) k) (function_items program f function) ≤ 1 }
{}

/// A label that stands at most once leads to what stands after it.
pub fn labels_lead_to_what_stands_after_them()
    ensures { (all items : List BodyItem) (name : List ℕ) → count name all ≤ 1 → Stands all (Label name ∷ items)
        → items_after name all ≡ items }
{}

/// Where the items of a statement stand, those that are to follow it stand.
pub fn the_rest_stands_after_the_items_of_a_statement()
    ensures { (all : List BodyItem) (within : Within) (scopes : List Scope) (s : Statement) (labels calls : ℕ)
        (around : Around) (rest : List BodyItem) → Stands all (items_of within scopes s labels calls around rest)
        → Stands all rest }
{}

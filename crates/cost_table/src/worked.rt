//! Entries of tables, worked out apart from the definitions.

ghost use Rattle.std.specs.Prelude.{◌≡◌, pos, negsuc, Some, None, [], ◌∷◌, codes, true, false};
ghost use Rattle.std.specs.Str.{bytes_eq};
ghost use Rattle.toml.specs.Data.{no_members, member, integer, string, array, table, item, no_items};
ghost use Rattle.cost_table.specs.CostTables.{cost_at, one_each};
ghost use Rattle.cost_table.specs.Costs.{default_cost, told_cost};
ghost use Rattle.cost_table.specs.Documents.{entries_at, number_at, only_keys, text_at};
ghost use Rattle.cost_table.specs.Inputs.{HasRange, is_input_frame};
ghost use Rattle.cost_table.specs.RunValues.{numbers_in, told_values};
ghost use Rattle.cost_table.specs.TaskFiles.{AreInRange, IsTaskName, IsTaskRange, task_entry, tasks_in};
ghost use Rattle.cost_table.specs.Worked.{of_default, cost_of_entry, named, one_block, from_to};
ghost use Rattle.cost_table.specs.Worked.{task_entry_of, numbers_are, one_two};

/// A block of which no entry speaks costs the default, which is 1 where the file gives none; of several
/// entries of one block the last counts. A cost has 32 bits.
pub fn the_last_entry_tells_a_cost()
    ensures absent { default_cost no_members ≡ Some 1 }
    ensures told { default_cost (of_default (pos 7)) ≡ Some 7 }
    ensures greatest { default_cost (of_default (pos 4294967295)) ≡ Some 4294967295 }
    ensures too_great { default_cost (of_default (pos 4294967296)) ≡ None }
    ensures negative { default_cost (of_default (negsuc 0)) ≡ None }
    ensures silent { told_cost one_block 7 [] 0 0 ≡ 7 }
    ensures last { told_cost one_block 7
        (cost_of_entry (codes "f") (pos 0) (pos 4) ∷ cost_of_entry (codes "f") (pos 0) (pos 5) ∷ []) 0 0 ≡ 5 }
{}

/// A range has its ends among the signed and the unsigned words of the size, and no more numbers than
/// there are words.
pub fn ranges_have_the_words_of_their_size()
    ensures unsigned { HasRange (from_to (pos 0) (pos 255)) (pos 256) (pos 128) }
    ensures signed { HasRange (from_to (negsuc 127) (pos 127)) (pos 256) (pos 128) }
    ensures mixed { HasRange (from_to (negsuc 0) (pos 254)) (pos 256) (pos 128) }
    ensures too_many { HasRange (from_to (negsuc 0) (pos 255)) (pos 256) (pos 128) → ⊥ }
    ensures too_great { HasRange (from_to (pos 0) (pos 256)) (pos 256) (pos 128) → ⊥ }
    ensures too_low { HasRange (from_to (negsuc 128) (pos 0)) (pos 256) (pos 128) → ⊥ }
    ensures turned { HasRange (from_to (pos 2) (pos 1)) (pos 256) (pos 128) → ⊥ }
{}

/// Cells of inputs lie in global frames and in arguments of the root.
pub fn globals_and_arguments_are_inputs()
    ensures global { is_input_frame [] (codes "x") 3 (named None (codes "x")) ≡ true }
    ensures argument { is_input_frame (2 ∷ 3 ∷ []) (codes "x") 3 (named (Some 0) (codes "x")) ≡ true }
    ensures local { is_input_frame (2 ∷ []) (codes "x") 3 (named (Some 0) (codes "x")) ≡ false }
    ensures other { is_input_frame (3 ∷ []) (codes "x") 3 (named None (codes "y")) ≡ false }
{}

/// What stands at a key has the kind that is wanted there; entries are tables in a row, and none where their key
/// is absent.
pub fn keys_have_their_kinds()
    ensures number { number_at (codes "k")
        (member (codes "j") (integer (pos 1)) (member (codes "k") (integer (pos 2)) no_members)) ≡ Some (pos 2) }
    ensures no_number { number_at (codes "k") (member (codes "k") (string (codes "2")) no_members) ≡ None }
    ensures text { text_at (codes "k") (member (codes "k") (string (codes "2")) no_members) ≡ Some (codes "2") }
    ensures absent { entries_at (codes "e") (member (codes "k") (integer (pos 1)) no_members) ≡ Some [] }
    ensures tables { entries_at (codes "e")
        (member (codes "e") (array (item (table no_members) (item (table no_members) no_items))) no_members)
        ≡ Some (table no_members ∷ table no_members ∷ []) }
    ensures no_table { entries_at (codes "e")
        (member (codes "e") (array (item (table no_members) (item (integer (pos 1)) no_items))) no_members) ≡ None }
    ensures all_keys { only_keys (bytes_eq (codes "k"))
        (member (codes "k") (integer (pos 1)) (member (codes "j") (integer (pos 1)) no_members)) ≡ false }
{}

/// Every block costs 1 where no file is named, and what is not in a table costs as the others.
pub fn blocks_cost_what_the_table_says()
    ensures one { cost_at one_each 3 4 ≡ 1 }
    ensures told { cost_at (record { rows = (5 ∷ []) ∷ (6 ∷ 7 ∷ []) ∷ []; others = 9 }) 1 0 ≡ 6 }
    ensures others { cost_at (record { rows = (5 ∷ []) ∷ (6 ∷ 7 ∷ []) ∷ []; others = 9 }) 0 1 ≡ 9 }
{}

/// Each number of an entry of tasks is the one of its key. A deadline is at most the period, and no two tasks have one
/// priority.
pub fn tasks_have_the_numbers_of_their_keys()
    ensures entry { task_entry (task_entry_of (codes "t") (pos 2) (pos 7) (pos 5) (pos 3))
        ≡ Some (codes "t", numbers_are (pos 2) (pos 7) (pos 5) (pos 3)) }
    ensures task { tasks_in (task_entry_of (codes "t") (pos 2) (pos 7) (pos 5) (pos 3) ∷ [])
        ≡ record { name = codes "t"; cost = 2; period = 7; deadline = 5; priority = 3 } ∷ [] }
    ensures order { tasks_in (task_entry_of (codes "t") (pos 1) (pos 4) (pos 4) (pos 9)
        ∷ task_entry_of (codes "u") (pos 2) (pos 6) (pos 5) (pos 0) ∷ [])
        ≡ record { name = codes "t"; cost = 1; period = 4; deadline = 4; priority = 9 }
        ∷ record { name = codes "u"; cost = 2; period = 6; deadline = 5; priority = 0 } ∷ [] }
    ensures missing { task_entry (table (member (codes "cost") (integer (pos 2)) no_members)) ≡ None }
    ensures equal { AreInRange (numbers_are (pos 1) (pos 4) (pos 4) (pos 0)) }
    ensures late { AreInRange (numbers_are (pos 1) (pos 4) (pos 5) (pos 0)) → ⊥ }
    ensures no_cost { AreInRange (numbers_are (pos 0) (pos 4) (pos 4) (pos 0)) → ⊥ }
    ensures taken { IsTaskRange (record { name = codes "t"; cost = 1; period = 4; deadline = 4; priority = 3 } ∷ [])
        (codes "u", numbers_are (pos 1) (pos 4) (pos 4) (pos 3)) → ⊥ }
{}

/// A name of a task has printed characters of ASCII: a blank may stand in it, and no quotation mark, no backslash, no
/// line feed and nothing past 126.
pub fn names_of_tasks_are_printed()
    ensures blank { IsTaskName (97 ∷ 32 ∷ 126 ∷ []) }
    ensures quotation_mark { IsTaskName (97 ∷ 34 ∷ []) → ⊥ }
    ensures backslash { IsTaskName (97 ∷ 92 ∷ []) → ⊥ }
    ensures line_feed { IsTaskName (97 ∷ 10 ∷ []) → ⊥ }
    ensures delete { IsTaskName (97 ∷ 127 ∷ []) → ⊥ }
    ensures empty { IsTaskName [] → ⊥ }
{}

/// The values of a run are the numbers of the array at `values`, in its order, where only `values` stands at the top and
/// all are whole numbers.
pub fn values_stand_in_their_order()
    ensures order { numbers_in one_two ≡ Some (pos 1 ∷ pos 2 ∷ []) }
    ensures told { told_values (member (codes "values") one_two no_members) ≡ Some (pos 1 ∷ pos 2 ∷ []) }
    ensures text { numbers_in (array (item (integer (pos 1)) (item (string (codes "2")) no_items))) ≡ None }
    ensures more { told_values (member (codes "values") one_two (member (codes "x") (integer (pos 1)) no_members))
        ≡ None }
    ensures absent { told_values no_members ≡ None }
{}

//! A small program, laid out apart from the definitions.

ghost use Rattle.std.specs.Prelude.{◌≡◌, ◌∷◌, []};
ghost use Rattle.flow_graph.specs.Nodes.{entry_node, block_node};
ghost use Rattle.code_layout.specs.Layouts.{block_part, node_part, all_statements};
ghost use Rattle.code_layout.specs.Worked.{laid_out};

/// Two functions. The first has two statements that go on to the next block, one with a jump behind it, and a switch; the
/// second has a statement with a call behind it, and a return. That is 8, 8 and 4 bytes, and then 8 and 4, 8 statements
/// in all. `main` is the root, and calls `f` from its block 0.
pub fn small_programs_are_laid_out()
    ensures fall { block_part laid_out 0 0 ≡ (0, 8) }
    ensures jump { block_part laid_out 0 1 ≡ (8, 8) }
    ensures switch { block_part laid_out 0 2 ≡ (16, 4) }
    ensures call { block_part laid_out 1 0 ≡ (20, 8) }
    ensures returning { block_part laid_out 1 1 ≡ (28, 4) }
    ensures statements { all_statements laid_out ≡ 8 }
    ensures entry { node_part laid_out (entry_node []) ≡ (0, 0) }
    ensures root { node_part laid_out (block_node [] 1) ≡ (28, 4) }
    ensures called { node_part laid_out (block_node (0 ∷ []) 2) ≡ (16, 4) }
{}

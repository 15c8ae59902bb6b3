//! What the definitions promise, as clauses of functions that do nothing.

ghost use Rattle.std.specs.Prelude.{◌≡◌, ◌≢◌, ◌<◌, ◌+◌, ◌*◌, ℕ, List, Some, length, slice_get, get_or};
ghost use Rattle.alf_check.specs.CheckedPrograms.{NumberedProgram, NumberedStatement, BlockEnding, Fall, blocks_at};
ghost use Rattle.flow_graph.specs.Nodes.{Node, entry_node, block_node, function_at, first_node};
ghost use Rattle.flow_graph.specs.Numbering.{GraphParts};
ghost use Rattle.code_layout.specs.Layouts.{block_part, node_part, parts_of};

/// The first block of the first function lies at address 0, each other block of a function where the one before it
/// ended, and the first block of each other function where the blocks of the function before it ended. A block that goes
/// on to the next has 4 bytes for each of its statements, and any other 4 more for the statement that ends it.
pub fn blocks_lie_one_behind_the_other()
    ensures first { (program : NumberedProgram) → (block_part program 0 0).0 ≡ 0 }
    ensures next { (program : NumberedProgram) (f b : ℕ) → b < length (blocks_at program f)
        → (block_part program f (b + 1)).0 ≡ (block_part program f b).0 + (block_part program f b).1 }
    ensures function { (program : NumberedProgram) (f : ℕ) → f < length program.funcs
        → (block_part program (f + 1) 0).0 ≡ (block_part program f (length (blocks_at program f))).0 }
    ensures goes_on { (program : NumberedProgram) (f b next : ℕ) (statements : List NumberedStatement)
        → slice_get (blocks_at program f) b ≡ Some (record { statements = statements; ending = Fall next })
        → (block_part program f b).1 ≡ 4 * length statements }
    ensures ends { (program : NumberedProgram) (f b : ℕ) (statements : List NumberedStatement) (ending : BlockEnding)
        → ((next : ℕ) → ending ≢ Fall next)
        → slice_get (blocks_at program f) b ≡ Some (record { statements = statements; ending = ending })
        → (block_part program f b).1 ≡ 4 * (length statements + 1) }
{}

/// A node of a block lies where its block does, whatever calls lead to it; an entry has neither address nor size; and
/// there is one part for each node of a graph, in their order.
pub fn nodes_lie_where_their_blocks_do()
    ensures entry { (program : NumberedProgram) (path : List ℕ) → node_part program (entry_node path) ≡ (0, 0) }
    ensures block { (program : NumberedProgram) (path : List ℕ) (b : ℕ)
        → node_part program (block_node path b) ≡ block_part program (function_at program path) b }
    ensures count { (program : NumberedProgram) (graph : GraphParts)
        → length (parts_of program graph) ≡ length graph.nodes }
    ensures each { (program : NumberedProgram) (graph : GraphParts) (n : ℕ) → n < length graph.nodes
        → get_or (parts_of program graph) n (0, 0) ≡ node_part program (get_or graph.nodes n first_node) }
{}

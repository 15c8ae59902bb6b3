//! The rows of a loop by their kinds, worked out apart from the definitions.

ghost use Rattle.dual_check.specs.Worked.{LoopByKinds, LoopOpens};

/// Rows stand by their kinds: flows, loops, dead nodes, totals, pairs and counts. A node is opened in the first
/// row that limits it and in its first column.
pub fn rows_and_openings_stand_in_their_order()
    ensures rows { LoopByKinds }
    ensures openings { LoopOpens }
{}

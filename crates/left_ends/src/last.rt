//! The block at which a run ends.

ghost use Rattle.std.specs.Prelude.{◌≡◌, ◌↔◌, ◌<◌, None, length, IsTrue, IfSome};
ghost use Rattle.alf_check.specs.CheckedPrograms.{NumberedBlock, seen, block_of, end_of};
ghost use Rattle.flow_graph.specs.Numbering.{IsGraph};
ghost use Rattle.left_cells.specs.Ends.{AreOfOne};
ghost use Rattle.left_ends.specs.Seen.{IsLast, Returns};

use alf_check::{Block, BlockEnd, Checked};
use flow_graph::{Graph, graphs_are_expansions};

/// Whether the block returns.
fn returns(end: &BlockEnd) -> bool
    ensures { IsTrue result ↔ Returns (end_of end.now) }
{
    match end {
        BlockEnd::Fall(_) => false,
        BlockEnd::Jump(_) => false,
        BlockEnd::Switch(_, _, _) => false,
        BlockEnd::Call { .. } => false,
        BlockEnd::Return(_) => true,
    }
}

/// The block of the node, where it is one of the root that returns.
pub(crate) fn last_block<'p>(checked: &'p Checked, graph: &Graph, node: u32) -> Option<&'p Block>
    requires graph { IsGraph (seen checked.now) graph.now }
    requires node { node < length graph.now.nodes }
    ensures last { IfSome result (λ block. IsLast (seen checked.now) graph.now node (block_of block.now)) }
    ensures keep { IfSome result (λ block. AreOfOne (seen checked.now) (block_of block.now).statements) }
    ensures none { result ≡ None → (block : NumberedBlock) → IsLast (seen checked.now) graph.now node block → ⊥ }
{
    checked.keeps();
    graphs_are_expansions();
    let at = graph.node(node);
    if !at.path.is_empty() {
        return None;
    }
    let number = at.block?;
    let block = checked.block(checked.root(), number);
    if returns(&block.end) {
        Some(block)
    } else {
        None
    }
}

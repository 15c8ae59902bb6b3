//! A look at a place before it is stepped.

ghost use Rattle.std.specs.Prelude.{◌<◌, length, IfOk};
ghost use Rattle.alf_check.specs.CheckedPrograms.{seen};
ghost use Rattle.flow_graph.specs.Numbering.{IsGraph};
ghost use Rattle.left_ends.specs.Seen.{AreEnds, FitsAt, StandsForAll, EndsIn};

use crate::joining::both;
use crate::last::last_block;
use abstract_memory::AMem;
use alf_check::{Block, Checked};
use domain_core::Lattice;
use flow_graph::Graph;
use left_cells::left_memory;
use std::alloc::{AllocError, Global};

/// What the ends left, with what the node's block leaves of the state where it is one of the root that returns.
pub(crate) fn look<'a>(
    alloc: Global,
    checked: &'a Checked,
    graph: &Graph,
    ends: Option<AMem<'a>>,
    node: u32,
    state: &AMem<'a>,
) -> Result<Option<AMem<'a>>, AllocError>
    requires graph { IsGraph (seen checked.now) graph.now }
    requires node { node < length graph.now.nodes }
    requires ends { AreEnds checked.now ends }
    requires fits { FitsAt checked.now graph.now node state.now }
    ensures are { IfOk result (AreEnds checked.now) }
    ensures more { IfOk result (StandsForAll ends.entry) }
    ensures looked { IfOk result (λ all. EndsIn checked.now graph.now all node state.now) }
{
    match last_block(checked, graph, node) {
        None => Ok(ends),
        Some(block) => {
            let left = left_memory(alloc, state.copy(alloc)?, &block.stmts)?;
            both(alloc, ends, left)
        }
    }
}

//! The graphs that have an outline.

ghost use Rattle.std.specs.Prelude.{◌≡◌, ◌<◌, ◌-◌, ◌^◌, ℕ, List, IfOk, IfErr};
ghost use Rattle.domain_core.specs.Reducible.{IsEdge, IsReducible, IsFalling};
ghost use Rattle.graph_walks.specs.Walks.{Walk};
ghost use Rattle.scope_graph.specs.Descending.{IsBackList};
ghost use Rattle.scope_graph.specs.Ranking.{IsWithin};
ghost use Rattle.scope_graph.specs.Reducing.{IsFaultOf};

use crate::crossing::Crossing;
use crate::descend::{Descent, depth_first};
use crate::table::successors;
use std::alloc::{AllocError, Global};
use std::fmt::{self, Debug, Formatter, Write};
use thiserror::Error;

/// Why a graph has no outline.
#[derive(Drop, Error)]
pub enum OutlineFault {
    /// A loop can be entered past its header h: `to_header` walks from node 0 to h, `to_tail`
    /// from h to a node with an edge back to h, and `around` from node 0 to that node without h.
    #[error("a loop has two ways in")]
    Irreducible {
        to_header: Vec<u32>,
        to_tail: Vec<u32>,
        around: Vec<u32>,
    },
    /// Memory ran out.
    #[error("memory ran out")]
    Memory,
}

impl From<AllocError> for OutlineFault {
    ghost use Rattle.std.specs.Prelude.{◌≡◌};
    ghost use Rattle.scope_graph.specs.declared.reduce.OutlineFault.TheVariants.{Memory};

    ghost from_gives = { λ _ e. e ≡ Memory };

    fn from(_: AllocError) -> Self {
        OutlineFault::Memory
    }
}

impl Debug for OutlineFault {
    fn fmt<W: Write>(&self, f: &mut Formatter<W>) -> Result<(), fmt::Error> {
        write!(f, "{self}")
    }
}

/// The back edges of a reducible graph.
pub fn back_edges(
    alloc: Global,
    count: u32,
    edges: &[(u32, u32)],
) -> Result<Vec<(u32, u32)>, OutlineFault>
    requires few { count < 2 ^ 32 - 1 }
    requires within { IsWithin edges.now count }
    requires reached { (n : ℕ) → n < count → (path : List ℕ) × Walk (IsEdge edges.now) 0 n path }
    ensures reducible { IfOk result (λ back. IsReducible (IsEdge edges.now)) }
    ensures noted { IfOk result (λ back. IsBackList (IsEdge edges.now) back.items) }
    ensures falling { IfOk result (λ back. (number : ℕ → ℕ) × IsFalling (IsEdge edges.now) number) }
    ensures crossing { IfErr result (λ fault. IsFaultOf (IsEdge edges.now) fault) }
{
    let Ok(table) = successors(alloc, count, edges) else {
        return Err(OutlineFault::Memory);
    };
    match depth_first(alloc, &table) {
        Err(_) => Err(OutlineFault::Memory),
        Ok(Descent::Back(back)) => Ok(back),
        Ok(
            Descent::Crosses(
                Crossing {
                    to_header,
                    to_tail,
                    around,
                },
            ),
        ) => Err(OutlineFault::Irreducible {
            to_header,
            to_tail,
            around,
        }),
    }
}

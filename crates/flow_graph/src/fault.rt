//! Why a program has no graph.

use flow_base::Which;
use std::alloc::AllocError;
use std::fmt::{self, Debug, Formatter, Write};
use thiserror::Error;

/// Why a program has no graph. Nodes are counted before edges.
#[derive(Drop, Error)]
pub enum GraphFault {
    /// The program has more nodes or more edges than a graph may have: which of them, and how many
    /// it may have, and one.
    #[error("the graph is too large")]
    Limit(Which, u64),
    /// Memory ran out.
    #[error("memory ran out")]
    Memory,
}

impl From<AllocError> for GraphFault {
    ghost use Rattle.std.specs.Prelude.{◌≡◌};
    ghost use Rattle.flow_graph.specs.declared.fault.GraphFault.TheVariants.{Memory};

    ghost from_gives = { λ _ e. e ≡ Memory };

    fn from(_: AllocError) -> Self {
        GraphFault::Memory
    }
}

impl Debug for GraphFault {
    fn fmt<W: Write>(&self, f: &mut Formatter<W>) -> Result<(), fmt::Error> {
        write!(f, "{self}")
    }
}

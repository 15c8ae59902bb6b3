//! Policies.

/// Where places of one position are merged before one of them is stepped.
#[derive(Clone, Copy, Debug, PartialEq, Eq, Drop)]
pub enum Policy {
    /// Nowhere.
    None,
    /// At the nodes that some edge reaches from inside a scope that does not hold the node.
    Exits,
    /// At all nodes.
    Joins,
}

//! Reports.

use crate::{Cert, Fact};
use domain_core::ScopeRow;

/// What a report says of a node.
#[derive(Drop)]
pub struct NodeLine {
    /// The smallest scope that holds the node.
    pub scope: u32,
    /// What a visit costs, in the unit of the costs file.
    pub cost: u32,
    /// The name, as bytes.
    pub name: Vec<u8>,
}

/// How a path bound came about.
#[derive(Clone, Copy, Debug, PartialEq, Eq, Drop)]
pub enum BoundWord {
    /// No smaller bound follows from the rows.
    Least,
    /// The search stopped before it came to the least bound.
    Stopped,
}

/// The facts of a program's runs and what follows from them.
#[derive(Drop)]
pub struct Report {
    /// The form of the text: 1, or 2, which may have `Count` facts.
    pub form: u8,
    /// The nodes, numbered from 0.
    pub nodes: Vec<NodeLine>,
    /// The scopes, numbered from 0.
    pub scopes: Vec<ScopeRow>,
    /// The facts, in the order of kinds and numbers.
    pub facts: Vec<Fact>,
    /// Each node's cost times its greatest total, added up.
    pub count_bound: u64,
    /// What no run's cost passes, by the rows of the report.
    pub path_bound: Option<(u64, BoundWord)>,
    /// The certificate, if there is one.
    pub cert: Option<Cert>,
}

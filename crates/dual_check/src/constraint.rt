//! What rows weigh.

ghost use Rattle.std.specs.Prelude.{◌≡◌, ◌<◌, ◌==◌, ◌^◌, ◌*ℤ◌, ◌≤ℤ◌, ◌<ℤ◌, pos, length};
ghost use Rattle.domain_core.specs.Outlines.{shape_of};
ghost use Rattle.ipet_rows.specs.Weights.{one_if, leaves as leaves_of, enters as enters_of};
ghost use Rattle.dual_check.specs.Constraints.{weighing_of, begins_at, is_limit_of, node_of, second_node_of};
ghost use Rattle.dual_check.specs.Constraints.{third_node_of};
ghost use Rattle.dual_check.specs.Small.{ConstraintFits};

use crate::column::Column;
use crate::inside::is_inside;
use domain_core::Outline;

/// What a row says of how often a run uses the columns. Scopes and nodes are named by their numbers.
#[derive(Clone, Copy, Drop)]
pub enum Constraint {
    /// As often as a run leaves the node it enters it, but that it begins at node 0.
    Flow(u32),
    /// Each execution of the scope, whose header comes second, has the third at most so often.
    Most(u32, u32, u32, u32),
    /// Each execution of the scope, whose header comes second, has the third at least so often.
    Least(u32, u32, u32, u32),
    /// A run leaves the node at most so often.
    Limit(u32, u32),
    /// A run leaves the node at least so often.
    Demand(u32, u32),
    /// The second and the third together are left at most as often as the first.
    Apart(u32, u32, u32),
}

/// 1 or 0.
fn one(is: bool) -> i128
    ensures value { result ≡ one_if is }
    ensures low { pos 0 ≤ℤ result }
    ensures high { result ≤ℤ pos 1 }
{
    if is { 1 } else { 0 }
}

/// 1 where the column leads from the node.
fn leaves(node: u32, column: Column) -> i128
    ensures value { result ≡ leaves_of node column }
    ensures low { pos 0 ≤ℤ result }
    ensures high { result ≤ℤ pos 1 }
{
    one(node == column.from())
}

/// 1 where the column leads into the node.
fn enters(node: u32, column: Column) -> i128
    ensures value { result ≡ enters_of node column }
    ensures low { pos 0 ≤ℤ result }
    ensures high { result ≤ℤ pos 1 }
{
    one(node == column.into())
}

/// Whether the column leads to the header from outside the scope.
fn is_begin(outline: &Outline, scope: u32, header: u32, column: Column) -> bool
    requires { column.from < length outline.now.nodes }
    ensures { one_if result ≡ begins_at (shape_of outline.now) scope header column }
{
    if header == column.into() {
        !is_inside(outline, scope, column.from())
    } else {
        false
    }
}

/// The count where the column leads to the header from outside the scope, else 0.
fn begins(outline: &Outline, scope: u32, header: u32, count: u32, column: Column) -> i128
    requires { column.from < length outline.now.nodes }
    ensures value { result ≡ pos count *ℤ begins_at (shape_of outline.now) scope header column }
    ensures low { pos 0 ≤ℤ result }
    ensures high { result <ℤ pos (2 ^ 32) }
{
    if is_begin(outline, scope, header, column) {
        count as i128
    } else {
        0
    }
}

impl Constraint {
    /// What the row has at the column.
    pub fn weight(self, outline: &Outline, column: Column) -> i128
        requires { column.from < length outline.now.nodes }
        ensures { result ≡ (weighing_of (shape_of outline.now) self).weight column }
    {
        match self {
            Constraint::Flow(node) => leaves(node, column) - enters(node, column),
            Constraint::Most(scope, header, node, high) => {
                leaves(node, column) - begins(outline, scope, header, high, column)
            }
            Constraint::Least(scope, header, node, low) => {
                begins(outline, scope, header, low, column) - leaves(node, column)
            }
            Constraint::Limit(node, _) => leaves(node, column),
            Constraint::Demand(node, _) => 0 - leaves(node, column),
            Constraint::Apart(header, first, second) => {
                leaves(first, column) + leaves(second, column) - leaves(header, column)
            }
        }
    }

    /// The count that it tells fits 32 bits.
    pub(crate) fn fits(self)
        ensures { ConstraintFits self }
    {
        match self {
            Constraint::Flow(_) => {}
            Constraint::Most(..) => {}
            Constraint::Least(..) => {}
            Constraint::Limit(..) => {}
            Constraint::Demand(..) => {}
            Constraint::Apart(..) => {}
        }
    }

    /// A node that it names.
    pub fn node(self) -> u32
        ensures { result ≡ node_of self }
    {
        match self {
            Constraint::Flow(node) => node,
            Constraint::Most(_, _, node, _) => node,
            Constraint::Least(_, _, node, _) => node,
            Constraint::Limit(node, _) => node,
            Constraint::Demand(node, _) => node,
            Constraint::Apart(_, node, _) => node,
        }
    }

    /// A second one, where it names two.
    pub fn second_node(self) -> u32
        ensures { result ≡ second_node_of self }
    {
        match self {
            Constraint::Most(_, header, _, _) => header,
            Constraint::Least(_, header, _, _) => header,
            Constraint::Apart(_, _, node) => node,
            _ => self.node(),
        }
    }

    /// A third one, where it names three.
    pub fn third_node(self) -> u32
        ensures { result ≡ third_node_of self }
    {
        match self {
            Constraint::Apart(header, _, _) => header,
            _ => self.node(),
        }
    }

    /// Whether it is an equation.
    pub fn is_equation(self, outline: &Outline) -> bool
        ensures { result ≡ (weighing_of (shape_of outline.now) self).equation }
    {
        let _ = outline;
        matches!(self, Constraint::Flow(_))
    }

    /// Its right side.
    pub fn right_side(self, outline: &Outline) -> i128
        ensures { result ≡ (weighing_of (shape_of outline.now) self).right }
    {
        let _ = outline;
        match self {
            Constraint::Flow(node) => one(node == 0),
            Constraint::Limit(_, high) => high as i128,
            Constraint::Demand(_, low) => 0 - low as i128,
            _ => 0,
        }
    }

    /// Whether it says how often a run leaves the node at most.
    pub fn is_limit(self, node: u32) -> bool
        ensures { result ≡ is_limit_of node self }
    {
        match self {
            Constraint::Limit(limited, _) => node == limited,
            _ => false,
        }
    }
}

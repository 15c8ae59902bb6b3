//! The program that an outline and a report's facts make.

ghost use Rattle.std.specs.Prelude.{◌≡◌, ◌<◌, ◌++◌, ◌^◌, ◌-◌, ◌↔◌, ℕ, IsTrue, None, map, All, OnOk, IfOk, length};
ghost use Rattle.std.specs.Prelude.{get_or};
ghost use Rattle.domain_core.specs.Outlines.{shape_of};
ghost use Rattle.flow_facts.specs.Facts.{IsAbout};
ghost use Rattle.ipet_rows.specs.Programs.{cost_at};
ghost use Rattle.ipet_rows.specs.Rows.{row_of, cost_of};
ghost use Rattle.dual_check.specs.Constraints.{weighing_of};
ghost use Rattle.dual_check.specs.Small.{ConstraintFits};
ghost use Rattle.dual_check.specs.Places.{AreTouching};
ghost use Rattle.dual_check.specs.Terms.{AreFrom};
ghost use Rattle.dual_check.specs.Openings.{both_of, openings_of, costs_of, system_from, system_of};

use crate::by_columns::by_columns;
use crate::column::Column;
use crate::constraint::Constraint;
use crate::firsts::{first_columns, first_limits};
use crate::group::constraints;
use crate::made_terms::row_terms;
use crate::outline_columns::columns;
use crate::places::Places;
use crate::row::RowTerms;
use crate::system::Rows;
use crate::touching::touching;
use domain_core::Outline;
use flow_facts::{Fact, Report};
use std::alloc::{AllocError, Global};

/// The row of a constraint.
fn row(
    alloc: Global,
    outline: &Outline,
    constraint: Constraint,
    columns: &[Column],
    touching: &[Places],
) -> Result<RowTerms, AllocError>
    requires few { length columns.now < 2 ^ 32 }
    requires nodes { AreFrom (length outline.now.nodes) columns.now }
    requires touching { AreTouching columns.now touching.now }
    ensures row { IfOk result (λ row. row ≡ row_of columns.now (weighing_of (shape_of outline.now) constraint)) }
    ensures fits { ConstraintFits constraint }
{
    constraint.fits();
    let terms = row_terms(alloc, outline, constraint, columns, touching)?;
    Ok(RowTerms {
        equation: constraint.is_equation(outline),
        terms,
        right: constraint.right_side(outline),
    })
}

/// The rows of the constraints.
fn row_list(
    alloc: Global,
    outline: &Outline,
    constraints: &[Constraint],
    columns: &[Column],
) -> Result<Vec<RowTerms>, AllocError>
    requires few { length columns.now < 2 ^ 32 }
    requires nodes { AreFrom (length outline.now.nodes) columns.now }
    ensures rows { IfOk result
        (λ rows. rows.items ≡ map (λ k. row_of columns.now (weighing_of (shape_of outline.now) k)) constraints.now) }
    ensures fits { IfOk result (λ rows. All ConstraintFits constraints.now) }
{
    let touching = touching(alloc, outline.node_count(), columns)?;
    let mut rows = Vec::new(alloc);
    for constraint in constraints {
        rows.push(row(alloc, outline, *constraint, columns, &touching)?)?;
    }
    Ok(rows)
}

/// What a column costs: what its node does.
#[tactic(auto, using(crate::proofs::Made::cost_made))]
fn cost(outline: &Outline, column: Column) -> u32
    requires { column.from < length outline.now.nodes }
    ensures { result ≡ cost_of (costs_of outline.now) column }
{
    outline.node(column.from()).cost
}

/// What the columns cost.
fn cost_list(alloc: Global, outline: &Outline, columns: &[Column]) -> Result<Vec<u32>, AllocError>
    requires { AreFrom (length outline.now.nodes) columns.now }
    ensures { IfOk result (λ costs. costs.items ≡ map (λ c. cost_of (costs_of outline.now) c) columns.now) }
{
    let mut costs = Vec::new(alloc);
    let mut rest = columns;
    while let Some((column, others)) = rest.split_first() {
        costs.push(cost(outline, *column))?;
        rest = others;
    }
    Ok(costs)
}

/// Each cost fits 32 bits.
fn costs_fit(costs: &[u32])
    ensures { (e : ℕ) → cost_at costs.now e < 2 ^ 32 }
{
    let _ = costs;
}

/// The number of a node, if it has one.
fn number_at(firsts: &[Option<u32>], node: u32) -> Option<u32>
    requires { node < length firsts.now }
    ensures { result ≡ get_or firsts.now node None }
{
    firsts[node as usize]
}

/// Appends the opening of a node, if there is one.
fn push_opening(
    out: &mut Vec<(u32, u32)>,
    row: Option<u32>,
    column: Option<u32>,
) -> Result<(), AllocError>
    ensures { OnOk result (out.new.items ≡ out.old.items ++ both_of row column) }
{
    match (row, column) {
        (Some(row), Some(column)) => out.push((row, column))?,
        _ => {}
    }
    Ok(())
}

/// The openings of the nodes that some column leaves. Takes time linear in the nodes, rows and columns.
fn opening_list(
    alloc: Global,
    nodes: u32,
    columns: &[Column],
    constraints: &[Constraint],
) -> Result<Vec<(u32, u32)>, AllocError>
    requires columns { length columns.now < 2 ^ 32 }
    requires constraints { length constraints.now < 2 ^ 32 }
    ensures { IfOk result (λ out. out.items ≡ openings_of columns.now constraints.now nodes) }
{
    let limits = first_limits(alloc, nodes, constraints)?;
    let firsts = first_columns(alloc, nodes, columns)?;
    let mut out = Vec::new(alloc);
    for node in 0..nodes {
        let row = number_at(&limits, node);
        let column = number_at(&firsts, node);
        push_opening(&mut out, row, column)?;
    }
    Ok(out)
}

/// The program of these columns and constraints.
#[tactic(auto, using(crate::proofs::Kept::system_parts))]
fn system(
    alloc: Global,
    outline: &Outline,
    columns: &[Column],
    constraints: &[Constraint],
) -> Result<Rows, AllocError>
    requires columns { length columns.now < 2 ^ 32 - 1 }
    requires constraints { length constraints.now < 2 ^ 32 - 1 }
    requires nodes { AreFrom (length outline.now.nodes) columns.now }
    ensures { IfOk result (λ rows. rows ≡ system_from outline.now columns.now constraints.now) }
{
    outline.kept();
    let costs = cost_list(alloc, outline, columns)?;
    costs_fit(&costs);
    let rows = row_list(alloc, outline, constraints, columns)?;
    let lists = by_columns(alloc, columns.len() as u32, &rows)?;
    let openings = opening_list(alloc, outline.node_count(), columns, constraints)?;
    Ok(Rows {
        costs,
        rows,
        columns: lists,
        openings,
    })
}

/// Whether 32 bits number so many, and one more.
fn is_few(count: usize) -> bool
    ensures { IsTrue result ↔ count < 2 ^ 32 - 1 }
{
    count < u32::MAX as usize
}

/// The program of an outline and facts.
#[tactic(auto, using(crate::proofs::Made::system_made, crate::proofs::Made::columns_from_nodes))]
fn rows_of(alloc: Global, outline: &Outline, facts: &[Fact]) -> Result<Rows, AllocError>
    requires { All (λ f. IsAbout (shape_of outline.now) f) facts.now }
    ensures { IfOk result (λ rows. rows ≡ system_of outline.now facts.now) }
{
    outline.kept();
    let columns = columns(alloc, outline, facts)?;
    let constraints = constraints(alloc, outline, facts)?;
    if !is_few(columns.len()) || !is_few(constraints.len()) {
        return Err(AllocError);
    }
    system(alloc, outline, &columns, &constraints)
}

/// The linear program that an outline and a report's facts make: a cost for each column, the rows in
/// their order, and the openings. The costs are those of the outline's nodes.
///
/// It takes memory by its terms, twice: by rows, and by columns. Where there are 4,294,967,295 rows or
/// more, or so many columns, memory is said to be wanting.
pub fn rows(alloc: Global, outline: &Outline, report: &Report) -> Result<Rows, AllocError>
    requires { All (λ f. IsAbout (shape_of outline.now) f) report.now.facts.items }
    ensures { IfOk result (λ rows. rows ≡ system_of outline.now report.now.facts.items) }
{
    rows_of(alloc, outline, &report.facts)
}

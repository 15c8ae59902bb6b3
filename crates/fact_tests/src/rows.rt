//! Rows of programs as text, verdicts on multipliers, and path bounds.

use crate::facts::facts_of;
use crate::ready::ready_bound;
use crate::tables::{field, number};
use domain_core::Outline;
use dual_check::{Duals, Rows, rows, verify};
use exec_toys::costed;
use flow_facts::{BoundWord, Fact, Report, is_about};
use std::alloc::{AllocError, Global};
use std::test::Fail;

// A report with these facts.
fn report_of(alloc: Global, facts: Vec<Fact>) -> Report {
    Report {
        form: 2,
        nodes: Vec::new(alloc),
        scopes: Vec::new(alloc),
        facts,
        count_bound: 0,
        path_bound: None,
        cert: None,
    }
}

// The outline of a program with its costs.
fn outline_of(alloc: Global, case: &str) -> Result<Outline, Fail> {
    Ok(costed(alloc, field(case, 1), field(case, 2))?)
}

// The rows of a program and the facts.
fn rows_of(alloc: Global, case: &str, facts: Vec<Fact>) -> Result<Rows, Fail> {
    let outline = outline_of(alloc, case)?;
    let report = report_of(alloc, facts);
    if !report.facts.iter().all(|fact| is_about(fact, &outline)) {
        return Err("a fact names what is not there".into());
    }
    Ok(rows(alloc, &outline, &report)?)
}

// Adds `= RIGHT:` or `< RIGHT:`, and the terms as COLUMN*NUMBER.
fn put_row(text: &mut String, program: &Rows, row: u32) -> Result<(), Fail> {
    if program.row_count() <= row {
        return Ok(());
    }
    let sign = if program.equation(row) { '=' } else { '<' };
    write!(text, ";{sign} {}:", program.right(row))?;
    for term in program.terms(row) {
        write!(text, " {}*{}", term.0, term.1)?;
    }
    Ok(())
}

/// The costs, the rows, and the openings of a program and facts.
pub fn told_rows(alloc: Global, case: &str) -> Result<String, Fail> {
    let program = rows_of(alloc, case, facts_of(alloc, field(case, 3))?)?;
    let mut text = String::from_str(alloc, "costs")?;
    for column in 0..program.column_count() {
        write!(text, " {}", program.cost(column))?;
    }
    for row in 0..program.row_count() {
        put_row(&mut text, &program, row)?;
    }
    text.push_str(";openings")?;
    for i in 0..program.opening_count() {
        let opening = program.opening(i);
        write!(text, " {}-{}", opening.0, opening.1)?;
    }
    Ok(text)
}

/// How many rows there are where facts are told so often.
pub fn row_count(alloc: Global, case: &str) -> Result<String, Fail> {
    let mut facts = Vec::new(alloc);
    for _ in 0..number(field(case, 4)) {
        facts.extend_from_slice(&facts_of(alloc, field(case, 3))?)?;
    }
    let program = rows_of(alloc, case, facts)?;
    Ok(format!(in alloc; "{}", program.row_count())?)
}

/// The sum of what a row has at each column.
pub fn row_sum(alloc: Global, case: &str) -> Result<String, Fail> {
    let program = rows_of(alloc, case, facts_of(alloc, field(case, 3))?)?;
    let row = number(field(case, 4));
    let mut sum: i128 = 0;
    for column in 0..program.column_count() {
        if row < program.row_count() {
            sum = sum.wrapping_add(program.coefficient(row, column));
        }
    }
    Ok(format!(in alloc; "{sum}")?)
}

/// The verdict on multipliers, one for each row, and a bound.
pub fn verdict(alloc: Global, case: &str) -> Result<String, Fail> {
    let program = rows_of(alloc, case, facts_of(alloc, field(case, 3))?)?;
    let mut multipliers = Vec::new(alloc);
    for word in field(case, 4).split(' ') {
        multipliers.push(word.parse::<i128>().unwrap_or(0))?;
    }
    if multipliers.len() != program.row_count() as usize {
        return Err("a row has no multiplier".into());
    }
    let duals = Duals {
        scale: 1,
        multipliers,
    };
    let verdict = verify(&program, &duals, number(field(case, 5)) as u64);
    Ok(format!(in alloc; "{verdict:?}")?)
}

/// The path bound after so many pivots.
pub fn bound(alloc: Global, case: &str) -> Result<String, Fail> {
    let outline = outline_of(alloc, case)?;
    let report = report_of(alloc, facts_of(alloc, field(case, 3))?);
    match ready_bound(alloc, &outline, &report, number(field(case, 4)))? {
        Some((bound, BoundWord::Least)) => Ok(format!(in alloc; "{bound} least")?),
        Some((bound, BoundWord::Stopped)) => Ok(format!(in alloc; "{bound} stopped")?),
        None => Err("the bound may not be asked for".into()),
    }
}

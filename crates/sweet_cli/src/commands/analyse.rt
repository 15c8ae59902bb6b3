//! `analyse FILE`: what is told of all runs of the program.

ghost use Rattle.std.specs.Prelude.{◌≡◌, ◌≤◌, IfOk};
ghost use Rattle.alf_check.specs.CheckedPrograms.{NumberedProgram, seen};
ghost use Rattle.alf_check.specs.Inputs.{KeepInputs};
ghost use Rattle.flow_graph.specs.Numbering.{IsGraph};
ghost use Rattle.flow_facts.specs.Reports.{certificate_of, reported};
ghost use Rattle.flow_facts.specs.Writable.{IsWritable};
ghost use Rattle.program_machines.specs.NodeCosts.{HasCosts};
ghost use Rattle.report_soundness.specs.Certified.{printed_as};
ghost use Rattle.command_plans.specs.Works.{Works, Judges};
ghost use Rattle.command_files.specs.Seen.{IsOutlined, scoped_of};
ghost use Rattle.sweet_cli.specs.Words.{analyse_meant};
ghost use Rattle.sweet_cli.specs.Task.{IsPromised};
ghost use Rattle.sweet_cli.specs.Analyse.{analyse, ReportMeans, analysing, policy_of};

use crate::words::{AnalyseWords, Merging};
use answer_texts::left_line;
use command_files::{ScopedProgram, Tables, scoped_in, tables_in};
use command_plans::{Stop, Why};
use cost_table::{Costs, a_file_has_one_answer};
use fact_text::print;
use flow_base::Shelf;
use flow_facts::{Cert, Report};
use program_analysis::{
    BoundedAnalysis, a_program_has_one_bounded_analysis, found_reports_are_right, set_costs,
};
use std::alloc::Global;
use worklist_rules::Policy;

/// The text of the report.
#[tactic(auto, unfolding(crate::specs::Analyse::analysing))]
pub fn analyse<F: Shelf>(
    alloc: Global,
    given: AnalyseWords<'_>,
    shelf: &mut F,
) -> Result<Vec<u8>, Stop>
    requires turns { given.turns ≤ 1000000 }
    ensures work { Works (analysing (analyse_meant given.entry)) (λ text. text.items) (F.state shelf.old) result
        (F.state shelf.new) }
    ensures promise { IfOk result
        (λ text. IsPromised (analyse (analyse_meant given.entry)) (F.state shelf.old) (F.state shelf.new) text.items) }
{
    found_reports_are_right();
    a_file_has_one_answer();
    let program = scoped_in(alloc, given.program, given.root, shelf)?;
    let tables = tables_in(
        alloc,
        &program.expanded.checked,
        given.inputs,
        given.costs,
        shelf,
    )?;
    let report = report_of(
        alloc,
        program,
        &tables,
        given.merging,
        given.turns,
        given.pivots,
        given.certified,
    )?;
    let text = print(alloc, &report)?;
    Ok(text)
}

/// The policy that merges there.
pub fn policy(merging: Merging) -> Policy
    ensures { result ≡ policy_of merging }
{
    match merging {
        Merging::Never => Policy::None,
        Merging::Exits => Policy::Exits,
        Merging::Joins => Policy::Joins,
    }
}

/// The program, whose outline says what nodes cost.
pub fn priced(mut program: ScopedProgram, costs: &Costs) -> ScopedProgram
    requires outline { IsOutlined program.expanded.graph program.outline }
    ensures expanded { result.expanded ≡ program.expanded }
    ensures scopes { scoped_of result ≡ scoped_of program }
    ensures outline { IsOutlined result.expanded.graph result.outline }
    ensures priced { (program : NumberedProgram) → IsGraph program result.expanded.graph
        → HasCosts program result.expanded.graph costs.now result.outline }
{
    set_costs(&program.expanded.graph, costs, &mut program.outline);
    program
}

/// The report of the exploration, with these costs of blocks.
pub fn report_of(
    alloc: Global,
    program: ScopedProgram,
    tables: &Tables,
    merging: Merging,
    turns: u32,
    pivots: u32,
    certify: bool,
) -> Result<Report, Stop>
    requires graph { IsGraph (seen program.expanded.checked) program.expanded.graph }
    requires rows { KeepInputs (seen program.expanded.checked) tables.now.rows.items }
    requires outline { IsOutlined program.expanded.graph program.outline }
    requires turns { turns ≤ 1000000 }
    ensures means { Judges
        (ReportMeans certify (scoped_of program) tables.now.rows.items tables.now.costs (policy_of merging) turns
        pivots) (λ report. reported report) result }
    ensures writable { IfOk result (λ report. IsWritable (reported report)) }
{
    let program = priced(program, &tables.costs);
    explored(
        alloc,
        &program,
        tables,
        policy(merging),
        turns,
        pivots,
        certify,
    )
}

// The same where the outline says what nodes cost.
fn explored(
    alloc: Global,
    program: &ScopedProgram,
    tables: &Tables,
    policy: Policy,
    turns: u32,
    pivots: u32,
    certify: bool,
) -> Result<Report, Stop>
    requires graph { IsGraph (seen program.now.expanded.checked) program.now.expanded.graph }
    requires rows { KeepInputs (seen program.now.expanded.checked) tables.now.rows.items }
    requires outline { IsOutlined program.now.expanded.graph program.now.outline }
    requires priced { (other : NumberedProgram) → IsGraph other program.now.expanded.graph
        → HasCosts other program.now.expanded.graph tables.now.costs program.now.outline }
    requires turns { turns ≤ 1000000 }
    ensures means { Judges
        (ReportMeans certify (scoped_of program.now) tables.now.rows.items tables.now.costs policy turns pivots)
        (λ report. reported report) result }
    ensures writable { IfOk result (λ report. IsWritable (reported report)) }
{
    let expanded = &program.expanded;
    let outline = &program.outline;
    expanded.checked.keeps();
    outline.kept();
    a_program_has_one_bounded_analysis();
    let rows = tables.rows.as_slice();
    match program_analysis::analyse(
        alloc,
        &expanded.checked,
        &expanded.graph,
        outline,
        rows,
        policy,
        turns,
        pivots,
    )? {
        BoundedAnalysis::Told(report, cert) => Ok(shown(report, cert, certify)),
        BoundedAnalysis::Unbounded(scope) => {
            let line = left_line(alloc, &expanded.graph, outline, scope)?;
            Err(Stop::Told(Why::Unbounded, line))
        }
    }
}

// The report, with its certificate where one is wanted.
fn shown(report: Report, cert: Cert, certify: bool) -> Report
    ensures { reported result ≡ printed_as certify (reported report) (certificate_of cert) }
{
    let mut report = report;
    if certify {
        report.cert = Some(cert);
    }
    report
}

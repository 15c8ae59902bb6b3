//! The file of a report that a command reads.

ghost use Rattle.std.specs.Prelude.{IfOk};
ghost use Rattle.flow_facts.specs.Reports.{reported};
ghost use Rattle.flow_facts.specs.Writable.{IsWritable};
ghost use Rattle.command_plans.specs.Works.{Works, Judges};
ghost use Rattle.command_files.specs.ReportFiles.{ReportSpelled, report_in};

use answer_texts::report_fault_line;
use command_plans::{Role, Stop, Why, read_file};
use fact_text::{one_meaning, read};
use flow_base::Shelf;
use flow_facts::Report;
use std::alloc::Global;

// The most bytes of a report's file.
const MOST_BYTES_OF_A_REPORT: u64 = 67_108_864;

// The line of one that has more.
const TOO_LONG: &str = "fault 13 limit bytes 67108865\n";

/// The report of the file.
#[tactic(auto, unfolding(crate::specs::ReportFiles::report_in))]
pub fn report_in<F: Shelf>(alloc: Global, file: &str, shelf: &mut F) -> Result<Report, Stop>
    ensures work { Works (report_in file.now) (λ report. reported report)
        (F.state shelf.old) result (F.state shelf.new) }
    ensures written { IfOk result (λ report. IsWritable (reported report)) }
{
    let bytes = read_file(
        alloc,
        shelf,
        Role::Report,
        file,
        MOST_BYTES_OF_A_REPORT,
        TOO_LONG,
    )?;
    spelled(alloc, &bytes)
}

// The report that the bytes spell.
fn spelled(alloc: Global, bytes: &[u8]) -> Result<Report, Stop>
    ensures means { Judges (ReportSpelled bytes.now) (λ report. reported report) result }
    ensures written { IfOk result (λ report. IsWritable (reported report)) }
{
    one_meaning();
    match read(alloc, bytes) {
        Ok(report) => Ok(report),
        Err(fault) => match report_fault_line(alloc, &fault) {
            Ok(line) => Err(Stop::Told(Why::Source, line)),
            Err(_) => Err(Stop::Memory),
        },
    }
}

//! `migrate REPORT`: a report of either form, as one of the second.

ghost use Rattle.std.specs.Prelude.{IfOk};
ghost use Rattle.command_plans.specs.Works.{Works};
ghost use Rattle.sweet_cli.specs.Task.{IsPromised};
ghost use Rattle.sweet_cli.specs.Migrate.{migrate, migrating};

use command_files::report_in;
use command_plans::Stop;
use fact_text::{print, writable_reports_are_spelled};
use flow_base::Shelf;
use report_forms::migrated;
use std::alloc::Global;

/// The text of the report.
pub fn migrate<F: Shelf>(alloc: Global, file: &str, shelf: &mut F) -> Result<Vec<u8>, Stop>
    ensures work { Works (migrating file.now) (λ text. text.items) (F.state shelf.old) result (F.state shelf.new) }
    ensures promise { IfOk result
        (λ text. IsPromised (migrate file.now) (F.state shelf.old) (F.state shelf.new) text.items) }
{
    // What texts of reports spell, as the promise needs it.
    writable_reports_are_spelled();
    let text = migrating(alloc, file, shelf)?;
    Ok(text)
}

// The order of work.
#[tactic(auto, unfolding(crate::specs::Migrate::migrating))]
fn migrating<F: Shelf>(alloc: Global, file: &str, shelf: &mut F) -> Result<Vec<u8>, Stop>
    ensures { Works (migrating file.now) (λ text. text.items) (F.state shelf.old) result (F.state shelf.new) }
{
    let report = migrated(report_in(alloc, file, shelf)?);
    let text = print(alloc, &report)?;
    Ok(text)
}

//! The run, turn by turn.

ghost use Rattle.std.specs.Prelude.{◌≡◌, length, IfOk};
ghost use Rattle.alf_check.specs.CheckedPrograms.{seen};
ghost use Rattle.alf_check.specs.Inputs.{KeepInputs};
ghost use Rattle.flow_graph.specs.Numbering.{IsGraph};
ghost use Rattle.alf_runs.specs.Starts.{start};
ghost use Rattle.alf_runs.specs.Places.{AreWords};
ghost use Rattle.alf_interp.specs.Counts.{Tells};

use crate::machine::Machine;
use crate::moved::Moved;
use crate::tally::{Counted, RunEnd, Tally};
use alf_check::{Checked, InputRow};
use alf_runs::a_run_has_one_continuation;
use flow_graph::Graph;
use std::alloc::{AllocError, Global};

/// What is counted of the one run whose inputs have these words. `costs` has the cost of each node.
///
/// Each turn takes a step of the machine and a constant time besides.
pub fn count(
    alloc: Global,
    checked: &Checked,
    graph: &Graph,
    rows: &[InputRow],
    words: &[u64],
    costs: &[u32],
    turns: u32,
) -> Result<Counted, AllocError>
    requires graph { IsGraph (seen checked.now) graph.now }
    requires rows { KeepInputs (seen checked.now) rows.now }
    requires words { AreWords rows.now words.now }
    requires costs { length costs.now ≡ length graph.now.nodes }
    ensures { IfOk result
        (λ counted. Tells (seen checked.now) graph.now.nodes costs.now (start (seen checked.now) rows.now words.now)
        turns counted) }
{
    a_run_has_one_continuation();
    let mut machine = Machine::start(alloc, checked, graph, rows, words)?;
    let mut counts = vec![in alloc; 0u32; graph.node_count() as usize]?;
    let mut cost = 0u64;
    let mut at = 0u32;
    for turn in 0..turns {
        counts[at as usize] += 1;
        cost += u64::from(costs[at as usize]);
        match machine.step()? {
            Moved::To(next) => at = next,
            Moved::Ended(outputs) => {
                let end = RunEnd::Returned(outputs);
                return Ok(Counted::Over(Tally {
                    counts,
                    turns: turn + 1,
                    cost,
                    last: at,
                    end,
                }));
            }
            Moved::Faulted(fault) => {
                let end = RunEnd::Faulted(fault);
                return Ok(Counted::Over(Tally {
                    counts,
                    turns: turn + 1,
                    cost,
                    last: at,
                    end,
                }));
            }
        }
    }
    Ok(Counted::Left(at))
}

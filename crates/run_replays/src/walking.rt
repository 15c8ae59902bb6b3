//! A run, step by step.

ghost use Rattle.std.specs.Prelude.{◌≡◌, ◌-◌, ◌^◌, length, IfOk};
ghost use Rattle.alf_check.specs.CheckedPrograms.{seen};
ghost use Rattle.alf_check.specs.Inputs.{KeepInputs};
ghost use Rattle.alf_runs.specs.Starts.{start};
ghost use Rattle.alf_runs.specs.Places.{AreWords};
ghost use Rattle.domain_core.specs.Outlines.{shape_of};
ghost use Rattle.domain_core.specs.OutlineOf.{IsOutlineOf};
ghost use Rattle.flow_graph.specs.Numbering.{IsGraph};
ghost use Rattle.scope_graph.specs.Placing.{plan_of};
ghost use Rattle.run_replays.specs.Walks.{Walks};

use crate::walked::{RunBook, Walked};
use alf_check::{Checked, InputRow};
use alf_interp::{Machine, Moved};
use alf_runs::{a_run_has_one_continuation, a_step_leads_along_an_edge};
use domain_core::{Outline, Recorder};
use flow_graph::{Graph, graphs_are_expansions};
use std::alloc::{AllocError, Global};

// How many nodes a run may have, so that 32 bits count them in each recorder.
fn most_turns() -> u32
    ensures { result ≡ 2 ^ 32 - 2 }
{
    4294967294
}

/// Makes the run whose inputs have these words, enters it in a book, and stops where a node would be there more often
/// than it is allowed.
///
/// Keeps no trace: memory is that of the recorder and of the machine. A run of more than 4,294,967,294 nodes is want of
/// memory, and no shorter one is, where no allocation is refused.
pub fn walk<R: Recorder>(
    alloc: Global,
    checked: &Checked,
    graph: &Graph,
    outline: &Outline,
    rows: &[InputRow],
    words: &[u64],
    allowed: Vec<u32>,
) -> Result<Walked<R::Book>, AllocError>
    requires graph { IsGraph (seen checked.now) graph.now }
    requires rows { KeepInputs (seen checked.now) rows.now }
    requires words { AreWords rows.now words.now }
    requires outline { IsOutlineOf (plan_of graph.now) (shape_of outline.now) }
    requires suits { R.recording.suits outline.now }
    requires long { length allowed.items ≡ length outline.now.nodes }
    ensures { IfOk result
        (λ walked. Walks R.recording (seen checked.now) graph.now outline.now
        (start (seen checked.now) rows.now words.now) allowed.items walked) }
{
    checked.keeps();
    outline.kept();
    graphs_are_expansions();
    a_run_has_one_continuation();
    a_step_leads_along_an_edge();
    let mut machine = Machine::start(alloc, checked, graph, rows, words)?;
    let mut recorder = R::start(alloc, outline)?;
    let mut book = R::book(alloc, outline)?;
    let mut left = allowed;
    let mut cost = 0u64;
    let mut at = 0u32;
    for turn in 0..most_turns() {
        if left[at as usize] == 0 {
            return Ok(Walked::Passed(at));
        }
        left[at as usize] -= 1;
        cost += u64::from(outline.node(at).cost);
        match machine.step()? {
            Moved::To(next) => {
                recorder.go(alloc, outline, &mut book, at, next)?;
                at = next;
            }
            Moved::Ended(_) => {
                recorder.finish(alloc, outline, &mut book, at)?;
                return Ok(Walked::Over(RunBook {
                    book,
                    cost,
                    last: at,
                    fault: None,
                }));
            }
            Moved::Faulted(fault) => {
                recorder.finish(alloc, outline, &mut book, at)?;
                return Ok(Walked::Over(RunBook {
                    book,
                    cost,
                    last: at,
                    fault: Some(fault),
                }));
            }
        }
    }
    Err(AllocError)
}

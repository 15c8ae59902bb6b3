//! What the definitions promise, as clauses of functions that do nothing.

ghost use Rattle.std.specs.Prelude.{◌≡◌, ℤ, List};
ghost use Rattle.alf_check.specs.declared.rows.InputRow.{InputRow};
ghost use Rattle.alf_check.specs.CheckedPrograms.{NumberedProgram};
ghost use Rattle.domain_core.specs.Outlines.{Outlined};
ghost use Rattle.flow_graph.specs.Nodes.{Node};
ghost use Rattle.flow_facts.specs.Reports.{Reported};
ghost use Rattle.run_replays.specs.Replays.{Told, IsReplayed};
ghost use Rattle.run_replays.specs.OneReplay.{Differ};

use alf_runs::{a_run_has_one_continuation, a_run_has_one_end};

/// One thing is told of a replay: what is told of one run against one report is the same.
pub fn a_replay_tells_one_thing()
    ensures { (program : NumberedProgram) (nodes : List Node) (rows : List InputRow) (o : Outlined) (report : Reported)
        (values : List ℤ) → Differ nodes → (a b : Told)
        → IsReplayed program nodes rows o report values a → IsReplayed program nodes rows o report values b → a ≡ b }
{
    a_run_has_one_continuation();
    a_run_has_one_end();
}

//! What the definitions promise, as clauses of functions that do nothing.

ghost use Rattle.path_lp.specs.Holding.{ToldBoundsAreRight};

use dual_check::verdicts_bound_each_run;
use simplex_rules::{outlines_open, rule_answers};

/// What `path_bound` promises of its answer holds of each path bound that the rule tells, whatever made the outline and
/// the facts: where of each node some fact says how often a run leaves it at most.
pub fn told_bounds_are_right()
    ensures { ToldBoundsAreRight }
{
    outlines_open();
    rule_answers();
    verdicts_bound_each_run();
}

//! What is told of a small run against small reports, worked out by hand.

ghost use Rattle.std.specs.Prelude.{Some, None, Ok, Err};
ghost use Rattle.alf_ops.specs.declared.history.RunFault.TheVariants.{Divide};
ghost use Rattle.domain_core.specs.Outlines.{Shape};
ghost use Rattle.report_objections.specs.declared.objection.Objection.TheVariants.{NoAlarm, NoFact, NoCountBound};
ghost use Rattle.report_objections.specs.declared.objection.Objection.TheVariants.{NoPathBound, Outside};
ghost use Rattle.run_replays.specs.Replays.{IsOutside, TellBounds, TellEnd};
ghost use Rattle.run_replays.specs.Worked.{costs, met, passed, ranges, told, unmet, values};

/// Of a run that faults without an alarm, does not meet two lines and costs more than both bounds the alarm is told, at
/// its last node; without a fault the first of both lines, the sixth: two nodes and a scope stand between the first
/// line and the facts; where all lines are met the count bound, then the path bound, and where both hold the cost. Of two
/// values that lie outside of their ranges the first is told.
pub fn the_first_thing_is_told_of_a_run()
    ensures alarm { (o : Shape) → TellEnd o costs (told unmet 2 1) passed (Some Divide) (Err (NoAlarm 1 Divide)) }
    ensures line { (o : Shape) → TellEnd o costs (told unmet 2 1) passed None (Err (NoFact 6)) }
    ensures count { (o : Shape) → TellEnd o costs (told met 2 1) passed None (Err NoCountBound) }
    ensures path { TellBounds (told met 3 2) 3 (Err NoPathBound) }
    ensures cost { TellBounds (told met 3 3) 3 (Ok 3) }
    ensures outside { IsOutside ranges values (Outside 1) }
{}

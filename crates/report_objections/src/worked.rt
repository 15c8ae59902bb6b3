//! What speaks against small reports, worked out apart from the definitions.

ghost use Rattle.std.specs.Prelude.{◌≡◌, ◌∷◌, [], ℕ, Some, None};
ghost use Rattle.std.specs.Global.{Vec};
ghost use Rattle.alf_ops.specs.declared.history.RunFault.TheVariants.{Divide};
ghost use Rattle.flow_facts.specs.Reports.{Certificate};
ghost use Rattle.ipet_rows.specs.declared.verdict.Verdict.TheVariants as verdicts;
ghost use Rattle.report_objections.specs.declared.objection.Objection.TheVariants.{NoEnd, NoAlarm, NoFact, NoCountBound};
ghost use Rattle.report_objections.specs.declared.objection.Objection.TheVariants.{Negative, Wide, Column, Bound};
ghost use Rattle.report_objections.specs.Objecting.{found_objection, left_objection, verdict_objection};
ghost use Rattle.report_objections.specs.Worked.{looped, once, spot, three, told, totals};

/// Of a missing alarm, a line and a bound that all speak against a report the alarm is told, with its node and its
/// fault; then the line, the ninth: three nodes and two scopes stand between the first line and the facts; then the
/// bound. A place that is left is told by its scope, and a row whose multiplier is negative as negative.
pub fn objections_come_in_their_order()
    ensures alarm { (name : Vec ℕ) (cert : Certificate)
        → found_objection (looped name) once (told 3 (totals 2)) cert ≡ Some (NoAlarm 2 Divide) }
    ensures line { (name : Vec ℕ) (cert : Certificate)
        → found_objection (looped name) once (told 3 (three 2)) cert ≡ Some (NoFact 9) }
    ensures bound { (name : Vec ℕ) (cert : Certificate)
        → found_objection (looped name) once (told 2 (three 1)) cert ≡ Some NoCountBound }
    ensures left { (name : Vec ℕ) → left_objection (looped name) (spot ∷ []) ≡ Some (NoEnd 1) }
    ensures holds { verdict_objection (verdicts.Holds 3) ≡ None }
    ensures negative { verdict_objection (verdicts.Negative 3) ≡ Some (Negative 3) }
    ensures wide { verdict_objection (verdicts.Wide 3) ≡ Some (Wide 3) }
    ensures column { verdict_objection (verdicts.Column 3) ≡ Some (Column 3) }
    ensures worth { verdict_objection (verdicts.Bound 3) ≡ Some (Bound 3) }
{}

//! Lines of facts, worked out apart from the definitions.

ghost use Rattle.std.specs.Prelude.{◌≡◌, [], ◌∷◌};
ghost use Rattle.alf_ops.specs.declared.history.RunFault.TheVariants.{Divide, Uninit, Mixed, Bounds, Dead as DeadFrame};
ghost use Rattle.alf_ops.specs.declared.history.RunFault.TheVariants.{Kind, Pointers};
ghost use Rattle.flow_facts.specs.declared.fact.Fact.TheVariants.{Loop, Count, Dead, Total, Pair, Alarm};
ghost use Rattle.flow_facts.specs.Writable.{IsBefore, fault_code};

/// Lines of loops, counts, dead nodes, totals, pairs and alarms follow one another, and those of one kind stand
/// by their numbers from the first on.
pub fn lines_stand_by_kind_and_then_by_numbers()
    ensures loops { IsBefore (Loop 9 9 9) (Count 0 0 0 0) }
    ensures counts { IsBefore (Count 9 9 9 9) (Dead 0) }
    ensures dead { IsBefore (Dead 9) (Total 0 0 0) }
    ensures totals { IsBefore (Total 9 9 9) (Pair 0 0 0) }
    ensures pairs { IsBefore (Pair 9 9 9) (Alarm 0 Divide) }
    ensures scopes { IsBefore (Loop 1 9 9) (Loop 2 0 0) }
    ensures nodes { IsBefore (Count 1 2 9 9) (Count 1 3 0 0) }
    ensures second { IsBefore (Pair 1 2 9) (Pair 1 3 4) }
    ensures third { IsBefore (Pair 1 2 3) (Pair 1 2 4) }
    ensures last { IsBefore (Total 1 2 3) (Total 1 2 4) }
    ensures faults { IsBefore (Alarm 1 Pointers) (Alarm 2 Divide) }
{}

/// The faults of runs have the codes 30 to 36.
pub fn faults_have_their_codes()
    ensures divide { fault_code Divide ≡ 30 }
    ensures uninit { fault_code Uninit ≡ 31 }
    ensures mixed { fault_code Mixed ≡ 32 }
    ensures bounds { fault_code Bounds ≡ 33 }
    ensures dead { fault_code DeadFrame ≡ 34 }
    ensures kind { fault_code Kind ≡ 35 }
    ensures pointers { fault_code Pointers ≡ 36 }
{}

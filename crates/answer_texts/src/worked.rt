//! Lines of answers, worked out apart from the definitions.

ghost use Rattle.std.specs.Prelude.{◌≡◌, ◌++◌, [], ◌∷◌, codes, Some, None, true, false};
ghost use Rattle.alf_ops.specs.declared.history.RunFault.TheVariants.{Divide, Uninit, Mixed, Bounds, Dead, Kind};
ghost use Rattle.alf_ops.specs.declared.history.RunFault.TheVariants.{Pointers};
ghost use Rattle.alf_ops.specs.declared.history.Value.TheVariants.{Int};
ghost use Rattle.cost_table.specs.declared.fault.TableFault.TheVariants as faults;
ghost use Rattle.fact_words.specs.Canonical.{fault_word as report_word};
ghost use Rattle.report_objections.specs.declared.objection.Objection.TheVariants as objections;
ghost use Rattle.flow_base.specs.declared.place.Which.TheVariants as which;
ghost use Rattle.fact_words.specs.Numbers.{Syntax, Number};
ghost use Rattle.alf_runs.specs.Outcomes.{Faulted};
ghost use Rattle.answer_texts.specs.CacheText.{cache_text};
ghost use Rattle.answer_texts.specs.FaultWords.{fault_word};
ghost use Rattle.answer_texts.specs.NoLines.{holds_line, objection_line};
ghost use Rattle.answer_texts.specs.ReportFaultLines.{report_fault_line};
ghost use Rattle.answer_texts.specs.ResponseText.{late_line, response_text};
ghost use Rattle.answer_texts.specs.RunText.{returned_line, run_text, stopped_line};
ghost use Rattle.answer_texts.specs.ScopeLines.{irreducible_line, left_line};
ghost use Rattle.answer_texts.specs.SummaryText.{summary_text};
ghost use Rattle.answer_texts.specs.TableLines.{table_line};
ghost use Rattle.answer_texts.specs.Worked.{between, ended, from_b, small, task, told};
ghost use Rattle.answer_texts.specs.WorstText.{worst_text};

/// Each fault of runs has its word, in answers as in reports.
pub fn a_fault_has_one_word()
    ensures divide { fault_word Divide ≡ codes "divide" }
    ensures uninit { fault_word Uninit ≡ codes "uninit" }
    ensures mixed { fault_word Mixed ≡ codes "mixed" }
    ensures bounds { fault_word Bounds ≡ codes "bounds" }
    ensures dead { fault_word Dead ≡ codes "dead" }
    ensures kind { fault_word Kind ≡ codes "kind" }
    ensures pointers { fault_word Pointers ≡ codes "pointers" }
    ensures divide_told { report_word Divide ≡ fault_word Divide }
    ensures uninit_told { report_word Uninit ≡ fault_word Uninit }
    ensures mixed_told { report_word Mixed ≡ fault_word Mixed }
    ensures bounds_told { report_word Bounds ≡ fault_word Bounds }
    ensures dead_told { report_word Dead ≡ fault_word Dead }
    ensures kind_told { report_word Kind ≡ fault_word Kind }
    ensures pointers_told { report_word Pointers ≡ fault_word Pointers }
{}

/// Each objection has a line of its own, with the number that it tells.
pub fn what_speaks_against_a_report_has_its_line()
    ensures cert { objection_line objections.NoCertificate ≡ codes "no cert" ++ (10 ∷ []) }
    ensures shape { objection_line objections.NoShape ≡ codes "no shape" ++ (10 ∷ []) }
    ensures event { objection_line (objections.NoEvent 12) ≡ codes "no event 12" ++ (10 ∷ []) }
    ensures left { objection_line (objections.NoEnd 3) ≡ codes "no left 3" ++ (10 ∷ []) }
    ensures alarm { objection_line (objections.NoAlarm 4 Divide) ≡ codes "no alarm 4 divide" ++ (10 ∷ []) }
    ensures fact { objection_line (objections.NoFact 5) ≡ codes "no fact 5" ++ (10 ∷ []) }
    ensures count_bound { objection_line objections.NoCountBound ≡ codes "no count-bound" ++ (10 ∷ []) }
    ensures negative { objection_line (objections.Negative 6) ≡ codes "no negative 6" ++ (10 ∷ []) }
    ensures wide { objection_line (objections.Wide 7) ≡ codes "no wide 7" ++ (10 ∷ []) }
    ensures column { objection_line (objections.Column 8) ≡ codes "no column 8" ++ (10 ∷ []) }
    ensures bound { objection_line (objections.Bound 9) ≡ codes "no bound 9" ++ (10 ∷ []) }
    ensures outside { objection_line (objections.Outside 1) ≡ codes "no outside 1" ++ (10 ∷ []) }
    ensures path_bound { objection_line objections.NoPathBound ≡ codes "no path-bound" ++ (10 ∷ []) }
    ensures holds { holds_line 10 ≡ codes "holds cost 10" ++ (10 ∷ []) }
{}

/// A file of inputs, of costs, of values or of tasks is refused with its role and the entry that is wrong.
pub fn tables_are_refused_in_one_line()
    ensures toml { table_line (codes "costs") faults.Toml ≡ Some (codes "fault 70 toml costs" ++ (10 ∷ [])) }
    ensures top { table_line (codes "values") (faults.Key None) ≡ Some (codes "fault 71 key values -" ++ (10 ∷ [])) }
    ensures key { table_line (codes "inputs") (faults.Key (Some 2))
        ≡ Some (codes "fault 71 key inputs 2" ++ (10 ∷ [])) }
    ensures range { table_line (codes "costs") (faults.Range 0) ≡ Some (codes "fault 72 range costs 0" ++ (10 ∷ [])) }
    ensures cell { table_line (codes "inputs") (faults.NoSuchCell 1)
        ≡ Some (codes "fault 73 cell inputs 1" ++ (10 ∷ [])) }
    ensures limit { table_line (codes "tasks") (faults.Limit which.Tasks 65)
        ≡ Some (codes "fault 13 limit tasks 65" ++ (10 ∷ [])) }
    ensures syntax { report_fault_line (Syntax (record { offset = 40; line = 3; column = 14 }))
        ≡ codes "fault 60 syntax 3 14" ++ (10 ∷ []) }
    ensures number { report_fault_line (Number (record { offset = 90; line = 15; column = 1 }))
        ≡ codes "fault 61 number 15 1" ++ (10 ∷ []) }
{}

/// Hits come before the bound of a cache, boxes before the greatest bound, and a run that a fault ends tells the
/// fault and the node.
pub fn answers_are_told_line_by_line()
    ensures cache { cache_text (record { hits = 1 ∷ 12 ∷ []; bound = 30 })
        ≡ codes "hit 1" ++ (10 ∷ (codes "hit 12" ++ (10 ∷ (codes "cache-bound 30" ++ (10 ∷ []))))) }
    ensures worst { worst_text
        (record { boxes = record { area = []; bound = 5 } ∷ record { area = []; bound = 4 } ∷ []; exact = true })
        ≡ codes "box 5" ++ (10 ∷ (codes "box 4" ++ (10 ∷ (codes "worst 5 exact" ++ (10 ∷ []))))) }
    ensures stopped { stopped_line Mixed (codes "n") ≡ codes "stopped mixed n" ++ (10 ∷ []) }
{}

/// A run tells what it returned, then each exported frame, then the count of its nodes and their cost. A word is told
/// with its sign, a pointer by its frame and its offset, and what cannot be loaded as a dash.
pub fn runs_are_told_line_by_line()
    ensures ended { run_text small (Some 1) ended 12 3 ≡ codes "returned -1" ++ (10 ∷ (codes "global \"x\" -" ++ (10
        ∷ (codes "global \"p\" \"x\"+4" ++ (10 ∷ (codes "turns 12" ++ (10 ∷ (codes "cost 3" ++ (10 ∷ []))))))))) }
    ensures nothing { returned_line small.program None ≡ codes "returned" ++ (10 ∷ []) }
    ensures faulted { run_text small (Some 1) (Faulted Divide) 12 3 ≡ codes "stopped divide b" ++ (10
        ∷ (codes "turns 12" ++ (10 ∷ (codes "cost 3" ++ (10 ∷ []))))) }
{}

/// Nodes are told by their names: those of the three walks to a loop that has a second entry, and the header of a scope
/// in which something is left.
pub fn nodes_are_told_by_their_names()
    ensures irreducible { irreducible_line small.graph (0 ∷ 1 ∷ []) (1 ∷ []) (0 ∷ [])
        ≡ codes "fault 40 irreducible to-header a b to-tail b around a" ++ (10 ∷ []) }
    ensures left { left_line small.graph from_b 0 ≡ codes "unbounded 0 b" ++ (10 ∷ []) }
{}

/// A task is told with its time, or as late; a box with its bound and the ends of each range; and of a report the
/// numbers of its nodes, of its scopes and of its steps, and its bounds.
pub fn times_boxes_and_numbers_are_told()
    ensures times { response_text (task (codes "a") ∷ task (codes "b") ∷ []) (1 ∷ 13 ∷ [])
        ≡ codes "response \"a\" 1" ++ (10 ∷ (codes "response \"b\" 13" ++ (10 ∷ []))) }
    ensures late { late_line (task (codes "b")) ≡ codes "no late \"b\"" ++ (10 ∷ []) }
    ensures ranges { worst_text between ≡ codes "box 5 -3 7" ++ (10 ∷ (codes "worst 5 at-most" ++ (10 ∷ []))) }
    ensures numbers { summary_text told ≡ codes "nodes 2" ++ (10 ∷ (codes "scopes 1" ++ (10 ∷ (codes "turns 2" ++ (10
        ∷ (codes "count-bound 7" ++ (10 ∷ (codes "path-bound 5" ++ (10 ∷ []))))))))) }
{}

//! Faults of small programs, worked out apart from the definitions.

ghost use Rattle.std.specs.Prelude.{◌≡◌, [], ◌∷◌, codes, Some, None};
ghost use Rattle.alf_program.specs.Tree.{Load, Address, Store, Return, Jump, Do};
ghost use Rattle.alf_faults.specs.Fault.{Duplicate, Unknown, Size};
ghost use Rattle.alf_faults.specs.Faults.{faults_in};
ghost use Rattle.alf_faults.specs.Worked.{word, of_functions, returned, with_every_name, with_names_twice, with_items};
ghost use Rattle.alf_faults.specs.Worked.{exported, started, called_behind, called_before, target, switched};

/// Exported frames and labels come first, then global frames and what they hold, and then functions; at one item
/// names come before sizes.
pub fn faults_stand_in_the_order_of_the_text()
    ensures names { faults_in with_every_name
        ≡ Unknown (codes "e") ∷ Unknown (codes "l") ∷ Unknown (codes "i") ∷ Unknown (codes "j") ∷ Unknown (codes "f")
        ∷ Unknown (codes "a") ∷ Unknown (codes "r") ∷ Size (codes "m") (Some 0) ∷ Unknown (codes "t") ∷ [] }
    ensures twice { faults_in with_names_twice
        ≡ Duplicate (codes "g") ∷ Duplicate (codes "a") ∷ Duplicate (codes "g") ∷ Duplicate (codes "b")
        ∷ Duplicate (codes "m") ∷ Duplicate (codes "m") ∷ [] }
    ensures targets { faults_in (with_items (switched (target 8 1 ∷ target 16 1 ∷ [])))
        ≡ Duplicate (codes "1") ∷ Size (codes "m") (Some 1) ∷ [] }
{}

/// Frames of 8, 16, 32 and 64 bits are exported; a number of whole bytes lies in its frame; addresses have 32
/// bits; what is stored has whole bytes; the returns of a function have one size.
pub fn sizes_are_those_of_the_rules()
    ensures bytes { faults_in (exported 8) ≡ [] }
    ensures three_bytes { faults_in (exported 24) ≡ Size (codes "x") None ∷ [] }
    ensures held { faults_in (started 32) ≡ [] }
    ensures bits { faults_in (started 12) ≡ Size (codes "x") None ∷ [] }
    ensures past { faults_in (started 40) ≡ Size (codes "x") None ∷ [] }
    ensures address { faults_in (with_items (Do (Store (word 8 0) (word 8 0)) ∷ returned ∷ []))
        ≡ Size (codes "m") (Some 0) ∷ [] }
    ensures stored { faults_in (with_items (Do (Store (Address (codes "x") 0) (word 12 0)) ∷ returned ∷ []))
        ≡ Size (codes "m") (Some 0) ∷ [] }
    ensures right { faults_in
        (with_items (Do (Store (Address (codes "x") 0) (Load 8 (Address (codes "x") 1))) ∷ returned ∷ [])) ≡ [] }
    ensures returns { faults_in (with_items (Do (Return (Some (word 8 0))) ∷ returned ∷ []))
        ≡ Size (codes "m") (Some 1) ∷ [] }
{}

/// Where a call and the first return of its function do not agree, the later of them in the text is wrong.
pub fn calls_and_returns_agree()
    ensures behind { faults_in (called_behind (Some (codes "x", 0))) ≡ [] }
    ensures behind_lost { faults_in (called_behind None) ≡ Size (codes "f") (Some 0) ∷ [] }
    ensures before { faults_in (called_before (Some (codes "x", 0))) ≡ [] }
    ensures before_lost { faults_in (called_before None) ≡ Size (codes "m") (Some 0) ∷ [] }
{}

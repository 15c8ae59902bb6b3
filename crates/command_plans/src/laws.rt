//! What the definitions promise, as functions that do nothing when they are called.

ghost use Rattle.std.specs.Prelude.{◌≡◌, ◌≢◌, ℕ, List, [], true, false, codes};
ghost use Rattle.command_plans.specs.Code.{code_of};
ghost use Rattle.command_plans.specs.Lines.{is_line};
ghost use Rattle.command_plans.specs.Outcome.{Cause, Outcome, Usage, Source, Example, Unbounded, No, Unread, Finished};
ghost use Rattle.command_plans.specs.ReadingLaws.{ReadingsCanBeHeld};
ghost use Rattle.command_plans.specs.Outcome.{status_of, ending_status, AreAlike};

/// Each way in which work ends has its exit code; one example of several is told as any refusal is.
pub fn each_ending_has_its_code()
    ensures done { code_of (ending_status (Finished [])) ≡ 0 }
    ensures usage { code_of (status_of Usage) ≡ 1 }
    ensures source { code_of (status_of Source) ≡ 2 }
    ensures example { code_of (status_of Example) ≡ 2 }
    ensures unbounded { code_of (status_of Unbounded) ≡ 3 }
    ensures no { code_of (status_of No) ≡ 4 }
    ensures unread { code_of (status_of (Unread [])) ≡ 5 }
{}

/// Texts that are one line, and some that are none.
pub fn lines_end_in_their_one_feed()
    ensures words { is_line (codes "fault usage\n") ≡ true }
    ensures feed { is_line (codes "\n") ≡ true }
    ensures two { is_line (codes "a\nb\n") ≡ false }
    ensures open { is_line (codes "a") ≡ false }
    ensures none { is_line [] ≡ false }
{}

/// Where no name was read with two contents there are files that hold what was read. Does nothing when it is called.
pub fn what_was_read_can_be_held()
    ensures { ReadingsCanBeHeld }
{}

/// Two outcomes that are alike have one text, unless it gives one example of several.
pub fn outcomes_that_are_alike_have_one_text()
    ensures { (x y : Outcome) → x.cause ≢ Example → AreAlike x y → x.text ≡ y.text }
{}

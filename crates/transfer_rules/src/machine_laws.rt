//! The machine over parts.

ghost use Rattle.transfer_rules.specs.PartLaws.{PartsAreMachine, PartsGoAlong};

/// The machine over parts keeps the laws of a stepper, and each of its steps lies along an edge of the graph's
/// outline.
pub fn parts_are_a_machine()
    ensures machine { PartsAreMachine }
    ensures along { PartsGoAlong }
{}

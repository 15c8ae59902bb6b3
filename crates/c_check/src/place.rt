//! What stands around a statement.

ghost use Rattle.std.specs.Prelude.{◌≡◌};
ghost use Rattle.c_rules.specs.Statements.{in_function, in_loop_of, in_switch_of};
ghost use Rattle.c_check.specs.Surroundings.{around_of, no_marks};

use c_unit::Outcome;

/// What the function gives, and whether a loop stands around, or a loop or a switch.
#[derive(Clone, Copy, Debug)]
pub struct Place {
    pub result: Outcome,
    pub in_loop: bool,
    pub may_break: bool,
}

/// In the outermost block of a function.
pub fn in_function(given: Outcome) -> Place
    ensures { around_of result no_marks ≡ in_function given }
{
    Place {
        result: given,
        in_loop: false,
        may_break: false,
    }
}

/// In a loop.
pub fn in_loop(place: Place) -> Place
    ensures { around_of result no_marks ≡ in_loop_of (around_of place no_marks) }
{
    Place {
        result: place.result,
        in_loop: true,
        may_break: true,
    }
}

/// In a switch.
pub fn in_switch(place: Place) -> Place
    ensures { around_of result no_marks ≡ in_switch_of (around_of place no_marks) }
{
    Place {
        result: place.result,
        in_loop: place.in_loop,
        may_break: true,
    }
}

//! Columns: ways that lead on from a node.

ghost use Rattle.std.specs.Prelude.{◌≡◌};

use std::marker::Model;

/// A way that leads on from a node: an edge, or a fault, which leads to the end.
#[derive(Clone, Copy, Drop)]
pub struct Column {
    from: u32,
    into: u32,
    fault: bool,
}

impl Model for Column {
    ghost use Rattle.ipet_rows.specs.Columns.{Column};

    ghost Value = { Column };

    ghost view = { λ s. record { from = s.from; into = s.into; fault = s.fault } };

    ghost inverse = { λ c. record { from = c.from; into = c.into; fault = c.fault } };
}

impl Column {
    /// The column of these parts.
    pub fn new(from: u32, into: u32, fault: bool) -> Column
        ensures { result ≡ record { from = from; into = into; fault = fault } }
    {
        Column { from, into, fault }
    }

    /// The node that it leads from.
    pub fn from(self) -> u32
        ensures { result ≡ self.from }
    {
        self.from
    }

    /// The node that it leads into. The end has the number of nodes as its number.
    pub fn into(self) -> u32
        ensures { result ≡ self.into }
    {
        self.into
    }

    /// Whether it is a fault.
    pub fn is_fault(self) -> bool
        ensures { result ≡ self.fault }
    {
        self.fault
    }
}

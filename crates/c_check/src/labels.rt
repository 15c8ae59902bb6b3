//! Labels of a switch.

ghost use Rattle.std.specs.Prelude.{◌≡◌, [], ◌∷◌, reverse, true, false, OnOk};
ghost use Rattle.c_rules.specs.Statements.{label_of, is_label};
ghost use Rattle.c_check.specs.Surroundings.{Marks, no_marks};

use c_faults::number_of;
use c_scopes::Words;
use c_unit::Constant;
use indexmap::IndexSet;
use std::alloc::{AllocError, Global};
use std::marker::Model;

/// The labels of a switch so far, the newest first, and whether its `default` is one of them.
#[derive(Drop)]
pub struct Labels {
    constants: IndexSet<u32>,
    has_default: bool,
}

impl Model for Labels {
    ghost Value = { Marks };

    ghost view = { λ labels. record { labels = reverse labels.constants.keys; has_default = labels.has_default } };
}

impl Labels {
    /// No labels.
    pub fn new(alloc: Global) -> Self
        ensures { result ≡ no_marks }
    {
        Labels {
            constants: IndexSet::new(alloc),
            has_default: false,
        }
    }

    /// Whether `default` is one of them.
    pub fn has_default(&self) -> bool
        ensures { result ≡ self.now.has_default }
    {
        self.has_default
    }

    /// `default` is one of them.
    pub fn add_default(&mut self)
        ensures { self.new ≡ record { labels = self.old.labels; has_default = true } }
    {
        self.has_default = true;
    }

    /// Whether the constant is one of them.
    pub fn has(&self, constant: u32) -> bool
        ensures { result ≡ is_label self.now.labels constant }
    {
        self.constants.contains(&constant)
    }

    /// One constant more, which is not one of them yet.
    pub fn add(&mut self, constant: u32) -> Result<(), AllocError>
        requires { is_label self.old.labels constant ≡ false }
        ensures { OnOk result
            (self.new ≡ record { labels = constant ∷ self.old.labels; has_default = self.old.has_default }) }
    {
        self.constants.insert(constant)?;
        Ok(())
    }
}

/// What a label is worth, as 32 bits.
pub fn label_of(words: &Words<'_>, constant: Constant) -> u32
    ensures { result ≡ label_of words.now constant }
{
    let number = number_of(words.worth_at(constant.token));
    if constant.minus {
        number.wrapping_neg()
    } else {
        number
    }
}

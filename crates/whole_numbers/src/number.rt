//! The number, and its way from and to the machine's.

ghost use Rattle.std.specs.Prelude.{◌≡◌, ◌≤◌, ◌<◌, ◌^◌, ℤ, pos, ◌≤ℤ◌, ◌<ℤ◌};

use std::marker::Model;

/// A whole number that fits 128 signed bits. Contracts see the number itself.
#[derive(Clone, Copy, PartialEq, Eq, Debug, Drop)]
pub struct Whole {
    pub(crate) number: i128,
}

impl Model for Whole {
    ghost Value = { ℤ };

    ghost view = { λ s. s.number };

    ghost inverse = { λ z. record { number = z } };
}

impl Whole {
    /// The number that the machine's number is.
    pub fn of(number: i128) -> Whole
        ensures { result ≡ number }
    {
        Whole { number }
    }

    /// The number that the word is, read unsigned.
    pub fn of_word(word: u64) -> Whole
        ensures value { result ≡ pos word }
        ensures most { result <ℤ pos (2 ^ 64) }
    {
        Whole {
            number: word as i128,
        }
    }

    /// 2 to the power.
    #[tactic(auto, using(crate::specs::ProductLaws::power_most))]
    pub fn power_of_two(exponent: u32) -> Whole
        requires { exponent < 127 }
        ensures { result ≡ pos (2 ^ exponent) }
    {
        Whole {
            number: 1 << exponent,
        }
    }

    /// The machine's number that it is.
    pub fn number(self) -> i128
        ensures { result ≡ self }
    {
        self.number
    }

    /// The word that it is, read unsigned.
    pub fn word(self) -> u64
        requires low { pos 0 ≤ℤ self }
        requires high { self <ℤ pos (2 ^ 64) }
        ensures { pos result ≡ self }
    {
        self.number as u64
    }
}

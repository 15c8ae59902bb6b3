//! A few small numbers, in place.

ghost use Rattle.std.specs.Prelude.{◌≡◌, ◌<◌, ◌≤◌, ◌^◌, length, replicate, slice_set};
ghost use Rattle.flow_recorders.specs.SmallCounts.{AreSmall};

use std::marker::Model;

/// How many numbers there is room for.
pub const MOST_COUNTS: usize = 23;

/// Up to 23 numbers below 256, in 24 bytes, which is what a list takes beside its elements.
#[derive(Drop)]
pub struct FewCounts {
    counts: [u8; MOST_COUNTS],
    len: u8,
}

impl Model for FewCounts {
    ghost use Rattle.std.specs.Prelude.{List, ℕ, ◌≤◌, take};

    ghost Value = { List ℕ };

    ghost view = { λ few. take few.len few.counts };

    ghost invariant = { λ few. few.len ≤ 23 };
}

impl FewCounts {
    /// These numbers.
    pub fn of(counts: &[u32]) -> FewCounts
        requires few { length counts.now ≤ 23 }
        requires small { AreSmall counts.now }
        ensures { result ≡ counts.now }
    {
        let mut few = [0; MOST_COUNTS];
        for i in 0..counts.len() {
            few[i] = counts[i] as u8;
        }
        FewCounts {
            counts: few,
            len: counts.len() as u8,
        }
    }

    /// As many times 0.
    pub fn zeros(count: usize) -> FewCounts
        requires { count ≤ 23 }
        ensures { result ≡ replicate count 0 }
    {
        FewCounts {
            counts: [0; MOST_COUNTS],
            len: count as u8,
        }
    }

    /// The numbers.
    pub fn as_slice(&self) -> &[u8]
        ensures { result.now ≡ self.now }
    {
        &self.counts[..self.len as usize]
    }

    /// Puts another number at a place.
    pub fn set(&mut self, i: usize, count: u8)
        requires { i < length self.old }
        ensures { self.new ≡ slice_set self.old i count }
    {
        self.counts[i] = count;
    }

    /// The same numbers.
    pub fn copied(&self) -> FewCounts
        ensures { result ≡ self.now }
    {
        FewCounts {
            counts: self.counts,
            len: self.len,
        }
    }
}

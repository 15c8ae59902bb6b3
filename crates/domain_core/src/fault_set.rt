//! Sets of faults.

ghost use Rattle.std.specs.Prelude.{◌≡◌};
ghost use Rattle.domain_core.specs.FaultSets.{has_fault, no_faults, with_fault, either};

use alf_ops::RunFault;

/// A set of the seven kinds of fault. No call takes memory.
#[derive(Clone, Copy, Debug, PartialEq, Eq, Drop)]
pub struct FaultSet {
    divide: bool,
    uninit: bool,
    mixed: bool,
    bounds: bool,
    dead: bool,
    kind: bool,
    pointers: bool,
}

impl FaultSet {
    /// The empty set.
    pub fn none() -> FaultSet
        ensures { result ≡ no_faults }
    {
        FaultSet {
            divide: false,
            uninit: false,
            mixed: false,
            bounds: false,
            dead: false,
            kind: false,
            pointers: false,
        }
    }

    /// Whether the kind is in the set.
    pub fn has(&self, kind: RunFault) -> bool
        ensures { result ≡ has_fault self.now kind }
    {
        match kind {
            RunFault::Divide => self.divide,
            RunFault::Uninit => self.uninit,
            RunFault::Mixed => self.mixed,
            RunFault::Bounds => self.bounds,
            RunFault::Dead => self.dead,
            RunFault::Kind => self.kind,
            RunFault::Pointers => self.pointers,
        }
    }

    /// The set and this kind.
    pub fn with(&self, kind: RunFault) -> FaultSet
        ensures { result ≡ with_fault self.now kind }
    {
        let mut set = *self;
        match kind {
            RunFault::Divide => set.divide = true,
            RunFault::Uninit => set.uninit = true,
            RunFault::Mixed => set.mixed = true,
            RunFault::Bounds => set.bounds = true,
            RunFault::Dead => set.dead = true,
            RunFault::Kind => set.kind = true,
            RunFault::Pointers => set.pointers = true,
        }
        set
    }

    /// What is in one of the two sets.
    pub fn union(self, other: FaultSet) -> FaultSet
        ensures { result ≡ either self other }
    {
        FaultSet {
            divide: self.divide || other.divide,
            uninit: self.uninit || other.uninit,
            mixed: self.mixed || other.mixed,
            bounds: self.bounds || other.bounds,
            dead: self.dead || other.dead,
            kind: self.kind || other.kind,
            pointers: self.pointers || other.pointers,
        }
    }
}

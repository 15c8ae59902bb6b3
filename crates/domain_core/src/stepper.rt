//! Steppers.

ghost use Rattle.std.specs.Prelude.{◌≡◌, IfOk};
ghost use Rattle.domain_core.specs.Machines.{Machine, IsMachine};

use crate::{FaultSet, Lattice};
use std::alloc::{AllocError, Global};

/// What a step answers.
#[derive(Drop)]
pub struct Stepped<T> {
    /// The next nodes with their states, in order. The number of nodes stands for a normal end.
    pub next: Vec<(u32, T)>,
    /// The faults that some run may end with here.
    pub faults: FaultSet,
}

/// An abstract machine: it steps from node to node with states that stand for the values of a
/// concrete system, of which it may leave out nothing.
pub trait Stepper {
    type State: Lattice + Drop;

    /// The values of the concrete system. Only contracts name them.
    type Concrete;

    /// What the stepper keeps, the system, what states cover and fit, and what each call answers.
    ghost machine: { Self → Machine Self.State Self.Concrete };

    /// What the laws ask of the stepper.
    fn kept(&self)
        ensures { (machine self.now).kept };

    /// The state at node 0.
    fn start(&self, alloc: Global) -> Result<Self::State, AllocError>
        ensures { IfOk result (λ state. state ≡ (machine self.now).first) };

    /// The successors of the state at the node, and the faults.
    fn step(
        &self,
        alloc: Global,
        node: u32,
        state: &Self::State,
    ) -> Result<Stepped<Self::State>, AllocError>
        requires { (machine self.now).fits node state.now }
        ensures next { IfOk result (λ stepped. stepped.next.items ≡ (machine self.now).next node state.now) }
        ensures faults { IfOk result (λ stepped. stepped.faults ≡ (machine self.now).faults node state.now) };

    /// The same of a state that is given, and not lent: what it alone keeps may be changed where it is.
    fn step_owned(
        &self,
        alloc: Global,
        node: u32,
        state: Self::State,
    ) -> Result<Stepped<Self::State>, AllocError>
        requires { (machine self.now).fits node state }
        ensures next { IfOk result (λ stepped. stepped.next.items ≡ (machine self.now).next node state) }
        ensures faults { IfOk result (λ stepped. stepped.faults ≡ (machine self.now).faults node state) };

    ghost is_machine: { (m : Self) → (machine m).kept → IsMachine Self.State Self.Concrete Self.State.order (machine m) };
}

//! Flow charts.

ghost use Rattle.std.specs.Prelude.{◌≡◌, ℕ, IfSome};
ghost use Rattle.domain_core.specs.Outlines.{shape_of};
ghost use Rattle.domain_core.specs.Machines.{IsAlong};
ghost use Rattle.exec_toys.specs.declared.span.Span.{Span};
ghost use Rattle.exec_toys.specs.Charts.{chart_machine};

use crate::edges::are_forks_along;
use crate::taken::taken;
use crate::{Fork, Span};
use domain_core::{FaultSet, Outline, Stepped, Stepper};
use std::alloc::{AllocError, Global};

/// A flow chart over one number: a fork for each node, and the numbers with which runs start.
#[derive(Drop)]
pub struct Chart {
    forks: Vec<Fork>,
    first: Span,
}

impl Chart {
    /// The flow chart of these forks, one for each node of the outline. `None` where there are not as
    /// many, or a way lies along no edge.
    pub fn new(outline: &Outline, forks: Vec<Fork>, first: Span) -> Option<Chart>
        ensures along { IfSome result
            (λ chart. IsAlong Span ℕ (shape_of outline.now) (chart_machine chart.forks.items chart.first)) }
        ensures forks { IfSome result (λ chart. chart.forks.items ≡ forks.items) }
        ensures first { IfSome result (λ chart. chart.first ≡ first) }
    {
        outline.kept();
        if forks.len() != outline.node_count() as usize || !are_forks_along(outline, &forks) {
            return None;
        }
        Some(Chart { forks, first })
    }
}

impl Stepper for Chart {
    ghost use Rattle.exec_toys.specs.Charts.{chart_machine};
    ghost use Rattle.exec_toys.specs.ChartLaws.{chart_is_machine};

    type State = Span;

    type Concrete = u32;

    ghost machine = { λ chart. chart_machine chart.forks.items chart.first };

    ghost is_machine = { λ chart _. chart_is_machine chart.forks.items chart.first };

    fn kept(&self) {}

    fn start(&self, _alloc: Global) -> Result<Span, AllocError> {
        Ok(self.first)
    }

    fn step(&self, alloc: Global, node: u32, state: &Span) -> Result<Stepped<Span>, AllocError> {
        if node as usize >= self.forks.len() {
            return Ok(Stepped {
                next: Vec::new(alloc),
                faults: FaultSet::none(),
            });
        }
        taken(alloc, self.forks[node as usize], *state)
    }

    fn step_owned(
        &self,
        alloc: Global,
        node: u32,
        state: Span,
    ) -> Result<Stepped<Span>, AllocError> {
        self.step(alloc, node, &state)
    }
}

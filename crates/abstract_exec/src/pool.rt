//! Pools.

ghost use Rattle.std.specs.Prelude.{◌≡◌, ◌<◌, ◌≤◌, ◌-◌, ◌^◌, ℕ, Err, length, map, slice_get, Some, IfOk, OnOk};
ghost use Rattle.domain_core.specs.Outlines.{shape_of};
ghost use Rattle.domain_core.specs.Machines.{IsAlong};
ghost use Rattle.worklist_rules.specs.Pools.{Pooled, alarm_at};
ghost use Rattle.worklist_rules.specs.Events.{opened, Happens, IsOneOn};
ghost use Rattle.worklist_rules.specs.Policies.{IsChoice};
ghost use Rattle.abstract_exec.specs.Points.{AreMergePoints};
ghost use Rattle.abstract_exec.specs.Explorations.{IsPool, IsLater, IsEnded, IsExplored};

use crate::choice::next_event;
use crate::joins::{are_one_position, merge_places};
use crate::place::Place;
use crate::points::merge_points;
use crate::step::{first_place, step_place};
use crate::{ExecFault, Explored};
use domain_core::{Event, FaultSet, Outline, Recorder, Stepper};
use std::alloc::{AllocError, Global};
use std::marker::Model;
use worklist::Line;
use worklist_rules::Policy;

/// The places of an exploration, with what was collected so far.
///
/// It lends its stepper and its outline. After want of memory it is given up.
#[derive(Drop)]
pub struct Pool<'a, S: Stepper, R: Recorder> {
    stepper: &'a S,
    outline: &'a Outline,
    places: Line<Place<S::State, R>>,
    book: R::Book,
    alarms: Vec<FaultSet>,
    stepped: Vec<bool>,
    steps: u32,
}

impl<'a, S: Stepper, R: Recorder> Model for Pool<'a, S, R> {
    ghost use Rattle.worklist_rules.specs.Pools.{Pooled};

    ghost Value = { Pooled S S.State R R.Book };

    ghost view = { λ p. record { stepper = p.stepper.now; outline = p.outline.now; spots = p.places; book = p.book; alarms = p.alarms.items; stepped = p.stepped.items; steps = p.steps } };
}

impl<'a, S: Stepper, R: Recorder> Pool<'a, S, R> {
    /// A pool with one place, at node 0.
    pub fn start(
        alloc: Global,
        stepper: &'a S,
        outline: &'a Outline,
    ) -> Result<Pool<'a, S, R>, AllocError>
        requires suits { R.recording.suits outline.now }
        requires along { IsAlong S.State S.Concrete (shape_of outline.now) (S.machine stepper.now) }
        ensures opened { IfOk result (λ pool. pool ≡ opened S.machine R.recording stepper.now outline.now) }
        ensures kept { IfOk result (λ pool. IsPool S.machine R.recording pool) }
    {
        stepper.kept();
        outline.kept();
        Self::open(alloc, stepper, outline)
    }

    /// Makes the pool of `start`.
    fn open(
        alloc: Global,
        stepper: &'a S,
        outline: &'a Outline,
    ) -> Result<Pool<'a, S, R>, AllocError>
        requires { R.recording.suits outline.now }
        ensures { IfOk result (λ pool. pool ≡ opened S.machine R.recording stepper.now outline.now) }
    {
        let book = R::book(alloc, outline)?;
        let place = first_place(alloc, stepper, outline)?;
        let places = Line::of_one(alloc, place)?;
        let count = outline.node_count() as usize;
        let alarms = vec![in alloc; FaultSet::none(); count]?;
        let stepped = vec![in alloc; false; count]?;
        Ok(Pool {
            stepper,
            outline,
            places,
            book,
            alarms,
            stepped,
            steps: 0,
        })
    }

    /// Applies an event.
    pub fn apply(&mut self, alloc: Global, event: Event) -> Result<(), ExecFault>
        requires kept { IsPool S.machine R.recording self.old }
        requires room { (place : ℕ) → event ≡ Event.Step place → self.old.steps < 2 ^ 32 - 2 }
        ensures happens { OnOk result (Happens S.machine S.State.order R.order R.recording self.old event self.new) }
        ensures kept { OnOk result (IsPool S.machine R.recording self.new) }
        ensures going_on { OnOk result (IsOneOn self.old self.new) }
        ensures bad { result ≡ Err ExecFault.BadEvent → (w : Pooled S S.State R R.Book)
            → Happens S.machine S.State.order R.order R.recording self.old event w → ⊥ }
        ensures unchanged { result ≡ Err ExecFault.BadEvent → self.new ≡ self.old }
    {
        match event {
            Event::Step(place) => self.step(alloc, place as usize),
            Event::Merge(i, j) => self.merge(alloc, i as usize, j as usize),
        }
    }

    /// Replaces a place by its successors.
    fn step(&mut self, alloc: Global, place: usize) -> Result<(), ExecFault>
        requires kept { IsPool S.machine R.recording self.old }
        requires room { self.old.steps < 2 ^ 32 - 2 }
        ensures happens { OnOk result
            (Happens S.machine S.State.order R.order R.recording self.old (Event.Step place) self.new
            × (length self.new.spots < 2 ^ 32)) }
        ensures bad { result ≡ Err ExecFault.BadEvent → length self.old.spots ≤ place }
        ensures unchanged { result ≡ Err ExecFault.BadEvent → self.new ≡ self.old }
    {
        if place >= self.places.len() {
            return Err(ExecFault::BadEvent);
        }
        let (node, faults) = step_place(
            alloc,
            self.stepper,
            self.outline,
            &mut self.places,
            &mut self.book,
            place,
        )?;
        self.alarms[node as usize] = self.alarms[node as usize].union(faults);
        self.stepped[node as usize] = true;
        self.steps += 1;
        Ok(())
    }

    /// Joins two places of one position.
    fn merge(&mut self, alloc: Global, i: usize, j: usize) -> Result<(), ExecFault>
        requires kept { IsPool S.machine R.recording self.old }
        ensures happens { OnOk result
            (Happens S.machine S.State.order R.order R.recording self.old (Event.Merge i j) self.new) }
        ensures bad { result ≡ Err ExecFault.BadEvent → (w : Pooled S S.State R R.Book)
            → Happens S.machine S.State.order R.order R.recording self.old (Event.Merge i j) w → ⊥ }
        ensures unchanged { result ≡ Err ExecFault.BadEvent → self.new ≡ self.old }
    {
        if !are_one_position(&self.places, i, j) {
            return Err(ExecFault::BadEvent);
        }
        merge_places(alloc, &mut self.places, i, j)?;
        Ok(())
    }

    /// Applies the events of the policy, until no place is left or so many places were stepped.
    pub fn explore(
        &mut self,
        alloc: Global,
        policy: Policy,
        turns: u32,
    ) -> Result<Explored, AllocError>
        requires kept { IsPool S.machine R.recording self.old }
        requires begun { self.old.steps ≤ turns }
        requires room { turns < 2 ^ 32 - 1 }
        ensures explored { IfOk result
            (λ explored. IsExplored S.machine S.State.order R.order R.recording policy turns self.old self.new
            explored) }
        ensures kept { OnOk result (IsPool S.machine R.recording self.new) }
        ensures going_on { OnOk result (IsLater turns self.old self.new) }
    {
        let points = merge_points(alloc, self.outline, policy)?;
        let mut events = Vec::new(alloc);
        while self.places.len() > 0 && self.steps < turns {
            let event = self.turn(alloc, policy, &points)?;
            events.push(event)?;
        }
        Ok(self.ended(events))
    }

    /// Applies the policy's next event.
    fn turn(&mut self, alloc: Global, policy: Policy, points: &[bool]) -> Result<Event, AllocError>
        requires kept { IsPool S.machine R.recording self.old }
        requires room { self.old.steps < 2 ^ 32 - 2 }
        requires some { 0 < length self.old.spots }
        requires points { AreMergePoints (shape_of self.old.outline) policy points.now }
        ensures choice { IfOk result (λ event. IsChoice (shape_of self.old.outline) policy self.old.spots event) }
        ensures happens { IfOk result
            (λ event. Happens S.machine S.State.order R.order R.recording self.old event self.new) }
        ensures kept { OnOk result (IsPool S.machine R.recording self.new) }
    {
        let event = self.choose(policy, points)?;
        match self.apply(alloc, event) {
            Ok(()) => Ok(event),
            Err(ExecFault::Memory) => Err(AllocError),
            Err(ExecFault::BadEvent) => unreachable!(),
        }
    }

    /// For each node whether it is a merge point of the policy.
    pub fn merge_points(&self, alloc: Global, policy: Policy) -> Result<Vec<bool>, AllocError>
        ensures { IfOk result (λ points. AreMergePoints (shape_of self.now.outline) policy points.items) }
    {
        merge_points(alloc, self.outline, policy)
    }

    /// The policy's next event. No place changes.
    ///
    /// The flags are those that `merge_points` gives.
    pub fn choose(&mut self, policy: Policy, points: &[bool]) -> Result<Event, AllocError>
        requires kept { IsPool S.machine R.recording self.old }
        requires some { 0 < length self.old.spots }
        requires points { AreMergePoints (shape_of self.old.outline) policy points.now }
        ensures choice { IfOk result (λ event. IsChoice (shape_of self.old.outline) policy self.old.spots event) }
        ensures allowed { IfOk result
            (λ event. ((w : Pooled S S.State R R.Book)
            → Happens S.machine S.State.order R.order R.recording self.old event w → ⊥) → ⊥) }
        ensures same { OnOk result (self.new ≡ self.old) }
    {
        // Read, so that it is known to be one of its type.
        let _ = policy;
        next_event(&mut self.places, points)
    }

    /// How an exploration by these events went.
    fn ended(&self, events: Vec<Event>) -> Explored
        requires { IsPool S.machine R.recording self.now }
        ensures { IsEnded self.now events.items result }
    {
        if self.places.len() == 0 {
            return Explored::Closed(events);
        }
        let node = self.places.at(0).node;
        Explored::Left(self.outline.node(node).scope)
    }

    /// How many places there are.
    pub fn places(&self) -> u32
        requires { IsPool S.machine R.recording self.now }
        ensures { result ≡ length self.now.spots }
    {
        self.places.len() as u32
    }

    /// How many places were stepped.
    pub fn steps(&self) -> u32
        ensures { result ≡ self.now.steps }
    {
        self.steps
    }

    /// The node of a place.
    pub fn node_at(&self, place: u32) -> u32
        requires { place < length self.now.spots }
        ensures { slice_get (map (λ spot. spot.node) self.now.spots) place ≡ Some result }
    {
        self.places.at(place as usize).node
    }

    /// The state of a place.
    pub fn state_at(&self, place: u32) -> &S::State
        requires { place < length self.now.spots }
        ensures { slice_get (map (λ spot. spot.state) self.now.spots) place ≡ Some result.now }
    {
        &self.places.at(place as usize).state
    }

    /// The book of what was collected.
    pub fn book(&self) -> &R::Book
        ensures { result.now ≡ self.now.book }
    {
        &self.book
    }

    /// The faults that steps told at a node.
    pub fn alarm(&self, node: u32) -> FaultSet
        requires kept { IsPool S.machine R.recording self.now }
        requires node { node < length self.now.outline.nodes }
        ensures { result ≡ alarm_at self.now.alarms node }
    {
        self.alarms[node as usize]
    }

    /// Whether a place at the node was stepped.
    pub fn stepped(&self, node: u32) -> bool
        requires kept { IsPool S.machine R.recording self.now }
        requires node { node < length self.now.outline.nodes }
        ensures { slice_get self.now.stepped node ≡ Some result }
    {
        self.stepped[node as usize]
    }
}

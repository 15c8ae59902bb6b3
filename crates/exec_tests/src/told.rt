//! What a pool and its books tell, as text.

ghost use Rattle.std.specs.Prelude.{◌≡◌, length};
ghost use Rattle.recorder_rules.specs.LoopRules.{loop_tally};
ghost use Rattle.abstract_exec.specs.Explorations.{IsPool};

use abstract_exec::{Explored, Pool};
use alf_ops::RunFault;
use domain_core::{Event, FaultSet, Outline, Recorder, Stepper};
use flow_recorders::{Both, BothBook, Loops, LoopsBook, Totals, TotalsBook};
use std::alloc::{AllocError, Global};

// Totals and loops side by side.
pub type Numbers = Both<Totals, Loops>;

fn add_event(alloc: Global, text: &mut String, event: Event) -> Result<(), AllocError> {
    let told = match event {
        Event::Step(i) => format!(in alloc; "s{i} ")?,
        Event::Merge(i, j) => format!(in alloc; "m{i},{j} ")?,
    };
    text.push_str(told.as_str())
}

// `closed` and the events, or `left` and the scope.
pub fn add_explored(
    alloc: Global,
    text: &mut String,
    explored: &Explored,
) -> Result<(), AllocError> {
    match explored {
        Explored::Closed(events) => {
            text.push_str("closed ")?;
            for event in events {
                add_event(alloc, text, *event)?;
            }
        }
        Explored::Left(scope) => {
            let told = format!(in alloc; "left {scope} ")?;
            text.push_str(told.as_str())?;
        }
    }
    Ok(())
}

/// The least and the most number, with a mark between.
pub fn add_spread(
    alloc: Global,
    text: &mut String,
    mark: &str,
    spread: Option<(u32, u32)>,
) -> Result<(), AllocError> {
    match spread {
        None => text.push_str("- "),
        Some((least, most)) => {
            let told = format!(in alloc; "{least}{mark}{most} ")?;
            text.push_str(told.as_str())
        }
    }
}

// Of each node how often runs visit it, and of each scope how often an execution visits its header.
pub fn add_book(
    alloc: Global,
    text: &mut String,
    outline: &Outline,
    book: &BothBook<TotalsBook, LoopsBook>,
) -> Result<(), AllocError>
    requires totals { length book.now.first ≡ length outline.now.nodes }
    requires loops { length book.now.second.spreads ≡ length (loop_tally outline.now).scopes }
{
    text.push_str("=> ")?;
    for n in 0..outline.node_count() {
        add_spread(alloc, text, "-", book.first.total_of(n))?;
    }
    text.push_str("=> ")?;
    for s in 0..outline.scope_count() {
        add_spread(alloc, text, "-", book.second.loop_of(s))?;
    }
    Ok(())
}

fn mark(faults: FaultSet) -> &'static str {
    match (faults.has(RunFault::Divide), faults.has(RunFault::Uninit)) {
        (true, true) => "!#",
        (true, false) => "!",
        (false, true) => "#",
        (false, false) => "",
    }
}

// Of each node whether it was stepped, and the faults that were told there.
pub fn add_nodes<S: Stepper, R: Recorder>(
    text: &mut String,
    outline: &Outline,
    pool: &Pool<S, R>,
) -> Result<(), AllocError>
    requires kept { IsPool S.machine R.recording pool.now }
    requires outline { pool.now.outline ≡ outline.now }
{
    text.push_str("=> ")?;
    for n in 0..outline.node_count() {
        text.push_str(if pool.stepped(n) { "+" } else { "-" })?;
        text.push_str(mark(pool.alarm(n)))?;
    }
    Ok(())
}

// The nodes of the places, and how many places were stepped.
pub fn add_places<S: Stepper, R: Recorder>(
    alloc: Global,
    text: &mut String,
    pool: &Pool<S, R>,
) -> Result<(), AllocError>
    requires { IsPool S.machine R.recording pool.now }
{
    for place in 0..pool.places() {
        let told = format!(in alloc; "{}/", pool.node_at(place))?;
        text.push_str(told.as_str())?;
    }
    let told = format!(in alloc; "{} ", pool.steps())?;
    text.push_str(told.as_str())
}

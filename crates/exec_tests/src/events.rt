//! Events one by one.

ghost use Rattle.std.specs.Prelude.{◌≡◌, ◌<◌, ◌-◌, ◌^◌, ℕ, OnOk};
ghost use Rattle.domain_core.specs.Outlines.{shape_of};
ghost use Rattle.domain_core.specs.Machines.{IsAlong};
ghost use Rattle.abstract_exec.specs.Explorations.{IsPool};
ghost use Rattle.exec_toys.specs.declared.span.Span.{Span};
ghost use Rattle.exec_toys.specs.Charts.{chart_machine};

use crate::charts::chart_of;
use crate::told::{Numbers, add_book, add_nodes, add_places};
use crate::words::{given, number, part, rest};
use abstract_exec::{ExecFault, Pool};
use domain_core::{Event, Outline, Recorder, Stepper};
use exec_toys::{Chart, outline_of};
use std::alloc::{AllocError, Global};
use std::test::Fail;

// The items of a program, its flow chart, the numbers at the start, and events; and then after each event the
// nodes of the places and the steps so far, and at last what the books tell and which nodes were stepped.
const ROWS: &str = "\
; @A ?C |B @B ; ^A @C . | 1 2 1?4:3 2-1 5 | 0..10 | s1 m0,0 => bad 0/0 bad 0/0 => - - - - - => - - => -----\n\
?A |B @A ; ^C @B ; @C . | 1 5?2:3 4 4 5 | 0..9 | s0 m0,1 s0 m0,0 m1,0 m1,1 m0,1 s2 m0,2 m1,2 m4294967295,4294967295 s4294967295 s0 m0,1 s1 m1,0 m0,1 m0,1 s0 s0 m0,0 m0,1 => 1/1 bad 1/1 2/3/2 bad 2/3/2 bad 2/3/2 bad 2/3/2 bad 2/3/2 bad 2/3/2 bad 2/3/2 bad 2/3/2 bad 2/3/2 bad 2/3/2 4/3/3 bad 4/3/3 4/4/4 bad 4/4/4 4/4 bad 4/4 5 bad 5 bad 5 bad 5 => 1-1 1-1 0-1 0-1 1-1 => 1-1 => +++++\n\
?A |B @A ; ^C @B ; @C . | 1 5?2:3 4 4 5 | 0..9 | s0 s0 s1 s0 s1 s0 => 1/1 2/3/2 2/4/3 4/4/4 4/5 6 => 1-1 1-1 0-1 0-1 1-1 => 1-1 => +++++\n\
?A |B @A ; ^C @B ; @C . | 1 5?2:3 4 4 5 | 0..9 | s0 s0 s1 s1 s0 s0 => 1/1 2/3/2 2/4/3 2/4 4/5 6 => 1-1 1-1 0-1 0-1 1-1 => 1-1 => +++++\n\
; @A ?C |B @B ; ^A @C . | 1 2 1?4:3 2-1 5 | 0..2 | s0 s0 s0 s0 s0 s0 s0 s0 s0 s0 => 1/1 2/2 4/3/3 3/4 2/5 4/3/6 3/7 2/8 4/9 10 => 1-1 1-1 1-3 0-2 1-1 => 1-1 1-3 => +++++\n\
; @A ?C |B @B ; ^A @C . | 1 2 1?4:3 2-1 5 | 0..2 | s0 s0 s0 s1 s1 m0,1 s1 s1 m0,1 s0 => 1/1 2/2 4/3/3 4/2/4 4/4/3/5 4/3/5 4/2/6 4/4/7 4/7 8 => 1-1 1-1 1-3 0-2 1-1 => 1-1 1-3 => +++++\n\
; @A ?C |B @B ; ^A @C . | 1 2 1?4:3 2-1 5 | 0..2 | s0 s0 s0 s1 s1 s2 s2 m1,2 m0,1 s0 => 1/1 2/2 4/3/3 4/2/4 4/4/3/5 4/4/2/6 4/4/4/7 4/4/7 4/7 8 => 1-1 1-1 1-3 0-2 1-1 => 1-1 1-3 => +++++\n\
; @A ?C |B @B ; ^A @C . | 1 2 1?4:3 2-1 5 | 0..2 | s0 s0 s0 s1 s1 s2 s2 s2 m0,1 s0 => 1/1 2/2 4/3/3 4/2/4 4/4/3/5 4/4/2/6 4/4/4/7 4/4/8 4/8 9 => 1-1 1-1 1-3 0-2 1-1 => 1-1 1-3 => +++++\n\
; @A ?C |B @B ; ^A @C . | 1 2 1?4:3 2-1 5 | 0..10 | s0 s0 s0 s1 s1 s2 s2 s3 s3 s4 s4 s5 s5 s6 s6 s7 s7 s8 s8 s9 s9 s10 s10 => 1/1 2/2 4/3/3 4/2/4 4/4/3/5 4/4/2/6 4/4/4/3/7 4/4/4/2/8 4/4/4/4/3/9 4/4/4/4/2/10 4/4/4/4/4/3/11 4/4/4/4/4/2/12 4/4/4/4/4/4/3/13 4/4/4/4/4/4/2/14 4/4/4/4/4/4/4/3/15 4/4/4/4/4/4/4/2/16 4/4/4/4/4/4/4/4/3/17 4/4/4/4/4/4/4/4/2/18 4/4/4/4/4/4/4/4/4/3/19 4/4/4/4/4/4/4/4/4/2/20 4/4/4/4/4/4/4/4/4/4/3/21 4/4/4/4/4/4/4/4/4/4/2/22 4/4/4/4/4/4/4/4/4/4/4/23 => - - - - - => - 1-11 => ++++-\n\
?A |B @A ; ^C @B ; @C . | 1 5?2:3 3?!:4 7?#:4 5 | 0..9 | s0 s0 s1 s0 m0,1 s0 => 1/1 2/3/2 2/4/3 4/4/4 4/4 5 => 1-1 1-1 0-1 0-1 0-1 => 1-1 => +++!+#+\n\
; @A ?C |B @B ?D |E @D ; ^F @E ; @F ; ^A @C . | 1 2 1?7:3 3?4:5 6 6 2-1 8 | 0..4 | s0 s0 s0 s1 s1 s1 s1 s2 s2 s3 m2,3 m0,1 m1,2 => 1/1 2/2 7/3/3 7/4/5/4 7/6/5/5 7/2/5/6 7/7/3/5/7 7/7/4/5/8 7/7/6/5/9 7/7/6/6/10 bad 7/7/6/6/10 7/6/6/10 bad 7/6/6/10 => - - - - - - - - => - 1-2 => +++++++-";

// `s1` and `m0,1`.
fn event(word: &str) -> Event {
    if let Some(place) = word.strip_prefix("s") {
        return Event::Step(number(place));
    }
    let places = part(word, "m", 1);
    Event::Merge(number(part(places, ",", 0)), number(part(places, ",", 1)))
}

// Whether the event is allowed, which is then applied.
fn is_applied<S: Stepper, R: Recorder>(
    alloc: Global,
    pool: &mut Pool<S, R>,
    event: Event,
) -> Result<bool, AllocError>
    requires kept { IsPool S.machine R.recording pool.old }
    requires room { pool.old.steps < 2 ^ 32 - 2 }
    ensures kept { OnOk result (IsPool S.machine R.recording pool.new) }
    ensures outline { OnOk result (pool.new.outline ≡ pool.old.outline) }
{
    match pool.apply(alloc, event) {
        Ok(()) => Ok(true),
        Err(ExecFault::BadEvent) => Ok(false),
        Err(ExecFault::Memory) => Err(AllocError),
    }
}

// Applies the events, and tells the places after each.
fn apply_all<S: Stepper, R: Recorder>(
    alloc: Global,
    pool: &mut Pool<S, R>,
    text: &mut String,
    words: &str,
) -> Result<(), AllocError>
    requires kept { IsPool S.machine R.recording pool.old }
    ensures kept { OnOk result (IsPool S.machine R.recording pool.new) }
    ensures outline { OnOk result (pool.new.outline ≡ pool.old.outline) }
{
    for word in words.split(' ') {
        if pool.steps() > 1000 {
            return Ok(());
        }
        if !is_applied(alloc, pool, event(word))? {
            text.push_str("bad ")?;
        }
        add_places(alloc, text, pool)?;
    }
    Ok(())
}

// What the events tell.
fn told(alloc: Global, outline: &Outline, chart: &Chart, words: &str) -> Result<String, Fail>
    requires { IsAlong Span ℕ (shape_of outline.now) (chart_machine chart.now.forks.items chart.now.first) }
{
    let mut text = String::new(alloc);
    let mut pool: Pool<Chart, Numbers> = Pool::start(alloc, chart, outline)?;
    apply_all(alloc, &mut pool, &mut text, words)?;
    add_book(alloc, &mut text, outline, pool.book())?;
    add_nodes(&mut text, outline, &pool)?;
    Ok(text)
}

#[test]
fn events_do_what_is_said(rt: HostRuntime) -> Result<(), Fail> {
    let alloc = rt.alloc();
    for line in ROWS.lines() {
        let outline = outline_of(alloc, given(line, 0))?;
        let chart = chart_of(alloc, &outline, given(line, 1), given(line, 2))?;
        let found = told(alloc, &outline, &chart, given(line, 3))?;
        let wanted = rest(line, " => ");
        assert_eq!(rt; found.as_str(), wanted, "{line}");
    }
    Ok(())
}

//! Explorations by policies.

ghost use Rattle.std.specs.Prelude.{ℕ};
ghost use Rattle.domain_core.specs.Outlines.{shape_of};
ghost use Rattle.domain_core.specs.Machines.{IsAlong};
ghost use Rattle.exec_toys.specs.declared.span.Span.{Span};
ghost use Rattle.exec_toys.specs.Charts.{chart_machine};

use crate::charts::chart_of;
use crate::told::{Numbers, add_book, add_explored, add_nodes};
use crate::words::{given, number, rest};
use abstract_exec::Pool;
use domain_core::Outline;
use exec_toys::{Chart, Silent, outline_of};
use std::alloc::Global;
use std::test::Fail;
use worklist_rules::Policy;

// The items of a program, its flow chart, the numbers at the start, the policy and the turns; and then how
// the exploration ends, what the books tell of nodes and of scopes, and which nodes were stepped.
const ROWS: &str = "\
?A |B @A ; ^C @B ; @C . | 1 5?2:3 4 4 5 | 0..9 | none | 6 => closed s0 s0 s0 s1 s0 s0 => 1-1 1-1 0-1 0-1 1-1 => 1-1 => +++++\n\
?A |B @A ; ^C @B ; @C . | 1 5?2:3 4 4 5 | 0..9 | none | 5 => left 0 => 1-1 1-1 1-1 0-0 1-1 => 1-1 => +++++\n\
?A |B @A ; ^C @B ; @C . | 1 5?2:3 4 4 5 | 0..9 | exits | 6 => closed s0 s0 s0 s1 s0 s0 => 1-1 1-1 0-1 0-1 1-1 => 1-1 => +++++\n\
?A |B @A ; ^C @B ; @C . | 1 5?2:3 4 4 5 | 0..9 | exits | 5 => left 0 => 1-1 1-1 1-1 0-0 1-1 => 1-1 => +++++\n\
?A |B @A ; ^C @B ; @C . | 1 5?2:3 4 4 5 | 0..9 | joins | 5 => closed s0 s0 s0 s1 m0,1 s0 => 1-1 1-1 0-1 0-1 1-1 => 1-1 => +++++\n\
?A |B @A ; ^C @B ; @C . | 1 5?2:3 4 4 5 | 0..9 | joins | 4 => left 0 => - - - - - => - => ++++-\n\
?A |B @A ; ^C @B ; @C . | 1 5?2:3 4 4 5 | 5..9 | joins | 4 => closed s0 s0 s0 s0 => 1-1 1-1 0-0 1-1 1-1 => 1-1 => ++-++\n\
; @A ?C |B @B ; ^A @C . | 1 2 1?4:3 2-1 5 | 0..2 | none | 10 => closed s0 s0 s0 s1 s1 s2 s2 s0 s0 s0 => 1-1 1-1 1-3 0-2 1-1 => 1-1 1-3 => +++++\n\
; @A ?C |B @B ; ^A @C . | 1 2 1?4:3 2-1 5 | 0..2 | none | 9 => left 0 => 1-1 1-1 1-2 0-1 1-1 => 1-1 1-3 => +++++\n\
; @A ?C |B @B ; ^A @C . | 1 2 1?4:3 2-1 5 | 0..2 | exits | 8 => closed s0 s0 s0 s1 s1 s2 s2 m0,1 m0,1 s0 => 1-1 1-1 1-3 0-2 1-1 => 1-1 1-3 => +++++\n\
; @A ?C |B @B ; ^A @C . | 1 2 1?4:3 2-1 5 | 0..2 | exits | 7 => left 0 => - - - - - => - 1-3 => ++++-\n\
; @A ?C |B @B ; ^A @C . | 1 2 1?4:3 2-1 5 | 0..2 | joins | 8 => closed s0 s0 s0 s1 s1 s2 s2 m0,1 m0,1 s0 => 1-1 1-1 1-3 0-2 1-1 => 1-1 1-3 => +++++\n\
; @A ?C |B @B ; ^A @C . | 1 2 1?4:3 2-1 5 | 0..2 | joins | 7 => left 0 => - - - - - => - 1-3 => ++++-\n\
; @A ?C |B @B ; ^A @C . | 1 2 1?4:3 2-1 5 | 0..10 | none | 34 => closed s0 s0 s0 s1 s1 s2 s2 s3 s3 s4 s4 s5 s5 s6 s6 s7 s7 s8 s8 s9 s9 s10 s10 s0 s0 s0 s0 s0 s0 s0 s0 s0 s0 s0 => 1-1 1-1 1-11 0-10 1-1 => 1-1 1-11 => +++++\n\
; @A ?C |B @B ; ^A @C . | 1 2 1?4:3 2-1 5 | 0..10 | none | 33 => left 0 => 1-1 1-1 1-10 0-9 1-1 => 1-1 1-11 => +++++\n\
; @A ?C |B @B ; ^A @C . | 1 2 1?4:3 2-1 5 | 0..10 | joins | 24 => closed s0 s0 s0 s1 s1 s2 s2 s3 s3 s4 s4 s5 s5 s6 s6 s7 s7 s8 s8 s9 s9 s10 s10 m0,1 m0,1 m0,1 m0,1 m0,1 m0,1 m0,1 m0,1 m0,1 m0,1 s0 => 1-1 1-1 1-11 0-10 1-1 => 1-1 1-11 => +++++\n\
; @A ?C |B @B ; ^A @C . | 1 2 1?4:3 2-1 5 | 0..10 | joins | 23 => left 0 => - - - - - => - 1-11 => ++++-\n\
; @A ?C |B @B ; ^A @C . | 1 2 1?4:3 2-1 5 | 3..3 | joins | 10 => closed s0 s0 s0 s0 s0 s0 s0 s0 s0 s0 => 1-1 1-1 4-4 3-3 1-1 => 1-1 4-4 => +++++\n\
; @A ?C |B @B ; ^A @C . | 1 2 1?4:3 2-1 5 | 3..3 | joins | 9 => left 0 => - - - - - => - 4-4 => ++++-\n\
; @A ?C |B @B ?D |E @D ; ^F @E ; @F ; ^A @C . | 1 2 1?7:3 3?4:5 6 6 2-1 8 | 0..4 | none | 38 => closed s0 s0 s0 s1 s1 s2 s1 s2 s1 s3 s2 s3 s2 s3 s4 s2 s3 s4 s2 s3 s4 s3 s4 s3 s4 s3 s4 s3 s4 s4 s4 s4 s4 s0 s0 s0 s0 s0 => 1-1 1-1 1-5 0-4 0-2 0-2 0-4 1-1 => 1-1 1-5 => ++++++++\n\
; @A ?C |B @B ?D |E @D ; ^F @E ; @F ; ^A @C . | 1 2 1?7:3 3?4:5 6 6 2-1 8 | 0..4 | none | 37 => left 0 => 1-1 1-1 1-4 0-3 0-2 0-1 0-3 1-1 => 1-1 1-5 => ++++++++\n\
; @A ?C |B @B ?D |E @D ; ^F @E ; @F ; ^A @C . | 1 2 1?7:3 3?4:5 6 6 2-1 8 | 0..4 | exits | 34 => closed s0 s0 s0 s1 s1 s2 s1 s2 s1 s3 s2 s3 s2 s3 s4 s2 s3 s4 s2 s3 s4 s3 s4 s3 s4 s3 s4 s3 s4 s4 s4 s4 s4 m0,1 m0,1 m0,1 m0,1 s0 => 1-1 1-1 1-5 0-4 0-2 0-2 0-4 1-1 => 1-1 1-5 => ++++++++\n\
; @A ?C |B @B ?D |E @D ; ^F @E ; @F ; ^A @C . | 1 2 1?7:3 3?4:5 6 6 2-1 8 | 0..4 | exits | 33 => left 0 => - - - - - - - - => - 1-5 => +++++++-\n\
; @A ?C |B @B ?D |E @D ; ^F @E ; @F ; ^A @C . | 1 2 1?7:3 3?4:5 6 6 2-1 8 | 0..4 | joins | 22 => closed s0 s0 s0 s1 s1 s2 m1,2 s1 s1 s2 s2 s3 m2,3 s2 s2 s3 s3 s3 s3 s4 s4 s4 s4 m0,1 m0,1 m0,1 m0,1 s0 => 1-1 1-1 1-5 0-4 0-4 0-2 0-4 1-1 => 1-1 1-5 => ++++++++\n\
; @A ?C |B @B ?D |E @D ; ^F @E ; @F ; ^A @C . | 1 2 1?7:3 3?4:5 6 6 2-1 8 | 0..4 | joins | 21 => left 0 => - - - - - - - - => - 1-5 => +++++++-\n\
; @A ?D |B @B ?C |E @E ^B @C ^A @D . | 1 2 1?6:3 2?5:4 3-1 2-1 7 | 0..3 | none | 18 => closed s0 s0 s0 s1 s2 s2 s3 s3 s1 s2 s3 s1 s2 s3 s0 s0 s0 s0 => 1-1 1-1 1-2 0-3 0-2 0-1 1-1 => 1-1 1-2 1-3 => +++++++\n\
; @A ?D |B @B ?C |E @E ^B @C ^A @D . | 1 2 1?6:3 2?5:4 3-1 2-1 7 | 0..3 | none | 17 => left 0 => 1-1 1-1 1-2 0-2 0-1 0-1 1-1 => 1-1 1-2 1-3 => +++++++\n\
; @A ?D |B @B ?C |E @E ^B @C ^A @D . | 1 2 1?6:3 2?5:4 3-1 2-1 7 | 0..3 | exits | 11 => closed s0 s0 s0 s1 s2 s2 s3 s3 m1,2 m1,2 s1 s1 m0,1 s0 => 1-1 1-1 1-2 0-3 0-2 0-1 1-1 => 1-1 1-2 1-3 => +++++++\n\
; @A ?D |B @B ?C |E @E ^B @C ^A @D . | 1 2 1?6:3 2?5:4 3-1 2-1 7 | 0..3 | exits | 10 => left 0 => - - - - - - - => - 1-2 1-3 => ++++++-\n\
; @A ?D |B @B ?C |E @E ^B @C ^A @D . | 1 2 1?6:3 2?5:4 3-1 2-1 7 | 0..3 | joins | 11 => closed s0 s0 s0 s1 s2 s2 s3 s3 m1,2 m1,2 s1 s1 m0,1 s0 => 1-1 1-1 1-2 0-3 0-2 0-1 1-1 => 1-1 1-2 1-3 => +++++++\n\
; @A ?D |B @B ?C |E @E ^B @C ^A @D . | 1 2 1?6:3 2?5:4 3-1 2-1 7 | 0..3 | joins | 10 => left 0 => - - - - - - - => - 1-2 1-3 => ++++++-\n\
; @A ?X |B @B ?X |C @C ?A |D @D ^B @X . | 1 2 1?6:3 2?6:4 4?2-1:5 3-1 7 | 0..4 | none | 23 => closed s0 s0 s0 s1 s2 s3 s3 s3 s2 s3 s2 s4 s3 s4 s3 s4 s3 s4 s0 s0 s0 s0 s0 => 1-1 1-1 1-3 0-4 0-3 0-1 1-1 => 1-1 1-3 1-2 => +++++++\n\
; @A ?X |B @B ?X |C @C ?A |D @D ^B @X . | 1 2 1?6:3 2?6:4 4?2-1:5 3-1 7 | 0..4 | none | 22 => left 0 => 1-1 1-1 1-3 0-3 0-2 0-0 1-1 => 1-1 1-3 1-2 => +++++++\n\
; @A ?X |B @B ?X |C @C ?A |D @D ^B @X . | 1 2 1?6:3 2?6:4 4?2-1:5 3-1 7 | 0..4 | exits | 14 => closed s0 s0 s0 s1 s2 s3 s3 s3 m2,3 s2 s2 s3 s3 s3 m0,1 m0,1 m0,1 s0 => 1-1 1-1 1-3 0-4 0-3 0-1 1-1 => 1-1 1-3 1-2 => +++++++\n\
; @A ?X |B @B ?X |C @C ?A |D @D ^B @X . | 1 2 1?6:3 2?6:4 4?2-1:5 3-1 7 | 0..4 | exits | 13 => left 0 => - - - - - - - => - 1-3 1-2 => ++++++-\n\
; @A ?X |B @B ?X |C @C ?A |D @D ^B @X . | 1 2 1?6:3 2?6:4 4?2-1:5 3-1 7 | 0..4 | joins | 14 => closed s0 s0 s0 s1 s2 s3 s3 s3 m2,3 s2 s2 s3 s3 s3 m0,1 m0,1 m0,1 s0 => 1-1 1-1 1-3 0-4 0-3 0-1 1-1 => 1-1 1-3 1-2 => +++++++\n\
; @A ?X |B @B ?X |C @C ?A |D @D ^B @X . | 1 2 1?6:3 2?6:4 4?2-1:5 3-1 7 | 0..4 | joins | 13 => left 0 => - - - - - - - => - 1-3 1-2 => ++++++-\n\
@A !f ?A |B @B . /f . | 1 4 1?3:1-1 6 5 2 | 0..2 | none | 16 => closed s0 s0 s0 s0 s0 s1 s1 s1 s1 s2 s2 s2 s2 s0 s0 s0 => 1-1 1-3 1-3 1-1 1-3 1-3 => 1-1 1-3 1-1 => ++++++\n\
@A !f ?A |B @B . /f . | 1 4 1?3:1-1 6 5 2 | 0..2 | none | 15 => left 0 => 1-1 1-2 1-2 1-1 1-2 1-2 => 1-1 1-3 1-1 => ++++++\n\
@A !f ?A |B @B . /f . | 1 4 1?3:1-1 6 5 2 | 0..2 | exits | 14 => closed s0 s0 s0 s0 s0 s1 s1 s1 s1 s2 s2 s2 s2 m0,1 m0,1 s0 => 1-1 1-3 1-3 1-1 1-3 1-3 => 1-1 1-3 1-1 => ++++++\n\
@A !f ?A |B @B . /f . | 1 4 1?3:1-1 6 5 2 | 0..2 | exits | 13 => left 0 => - - - - - - => - 1-3 1-1 => +++-++\n\
@A !f ?A |B @B . /f . | 1 4 1?3:1-1 6 5 2 | 0..2 | joins | 14 => closed s0 s0 s0 s0 s0 s1 s1 s1 s1 s2 s2 s2 s2 m0,1 m0,1 s0 => 1-1 1-3 1-3 1-1 1-3 1-3 => 1-1 1-3 1-1 => ++++++\n\
@A !f ?A |B @B . /f . | 1 4 1?3:1-1 6 5 2 | 0..2 | joins | 13 => left 0 => - - - - - - => - 1-3 1-1 => +++-++\n\
?A |B @A ; ^C @B ; @C . | 1 5?2:3 3?!:4 7?#:4 5 | 0..9 | none | 6 => closed s0 s0 s0 s1 s0 s0 => 1-1 1-1 0-1 0-1 0-1 => 1-1 => +++!+#+\n\
?A |B @A ; ^C @B ; @C . | 1 5?2:3 3?!:4 7?#:4 5 | 0..9 | none | 5 => left 0 => 1-1 1-1 0-1 0-1 0-1 => 1-1 => +++!+#+\n\
?A |B @A ; ^C @B ; @C . | 1 5?2:3 3?!:4 7?#:4 5 | 0..9 | joins | 5 => closed s0 s0 s0 s1 m0,1 s0 => 1-1 1-1 0-1 0-1 0-1 => 1-1 => +++!+#+\n\
?A |B @A ; ^C @B ; @C . | 1 5?2:3 3?!:4 7?#:4 5 | 0..9 | joins | 4 => left 0 => 1-1 1-1 0-1 0-1 0-0 => 1-1 => +++!+#-\n\
?A |B @A ; ^C @B ; @C . | 1 5?2:3 3?!:4 7?#:4 5 | 1..1 | joins | 3 => closed s0 s0 s0 => 1-1 1-1 1-1 0-0 0-0 => 1-1 => +++!--\n\
@A ^A | 1 1 | 0..3 | joins | 0 => left 0 => - - => - - => --\n\
@A ^A | 1 1 | 0..3 | joins | 1 => left 1 => - - => - - => +-\n\
@A ^A | 1 1 | 0..3 | joins | 9 => left 1 => - - => - - => ++\n\
; @A ?D |B @B ?C |E @E ^B @C ^A @D . | 1 2 1?6:3 2?5:4 3-1 2-1 7 | 1..1 | none | 2 => left 1 => - - - - - - - => - - - => ++-----\n\
; @A ?D |B @B ?C |E @E ^B @C ^A @D . | 1 2 1?6:3 2?5:4 3-1 2-1 7 | 1..1 | none | 3 => left 2 => - - - - - - - => - - - => +++----\n\
; @A ?D |B @B ?C |E @E ^B @C ^A @D . | 1 2 1?6:3 2?5:4 3-1 2-1 7 | 1..1 | none | 4 => left 1 => - - - - - - - => - - 1-1 => ++++---";

pub fn policy(word: &str) -> Policy {
    match word {
        "exits" => Policy::Exits,
        "joins" => Policy::Joins,
        _ => Policy::None,
    }
}

// What an exploration of so many turns tells.
fn told(
    alloc: Global,
    outline: &Outline,
    chart: &Chart,
    policy: Policy,
    turns: u32,
) -> Result<String, Fail>
    requires { IsAlong Span ℕ (shape_of outline.now) (chart_machine chart.now.forks.items chart.now.first) }
{
    let mut text = String::new(alloc);
    if turns == u32::MAX {
        return Ok(text);
    }
    let mut pool: Pool<Chart, Numbers> = Pool::start(alloc, chart, outline)?;
    let explored = pool.explore(alloc, policy, turns)?;
    add_explored(alloc, &mut text, &explored)?;
    add_book(alloc, &mut text, outline, pool.book())?;
    add_nodes(&mut text, outline, &pool)?;
    Ok(text)
}

// How an exploration of so many turns ends, where nothing is recorded.
fn told_alone(
    alloc: Global,
    outline: &Outline,
    chart: &Chart,
    policy: Policy,
    turns: u32,
) -> Result<String, Fail>
    requires { IsAlong Span ℕ (shape_of outline.now) (chart_machine chart.now.forks.items chart.now.first) }
{
    let mut text = String::new(alloc);
    if turns == u32::MAX {
        return Ok(text);
    }
    let mut pool: Pool<Chart, Silent> = Pool::start(alloc, chart, outline)?;
    let explored = pool.explore(alloc, policy, turns)?;
    add_explored(alloc, &mut text, &explored)?;
    Ok(text)
}

#[test]
fn policies_give_these_events(rt: HostRuntime) -> Result<(), Fail> {
    let alloc = rt.alloc();
    for line in ROWS.lines() {
        let outline = outline_of(alloc, given(line, 0))?;
        let chart = chart_of(alloc, &outline, given(line, 1), given(line, 2))?;
        let policy = policy(given(line, 3));
        let turns = number(given(line, 4));
        let found = told(alloc, &outline, &chart, policy, turns)?;
        let wanted = rest(line, " => ");
        assert_eq!(rt; found.as_str(), wanted, "{line}");
        let events = told_alone(alloc, &outline, &chart, policy, turns)?;
        assert!(rt; wanted.starts_with(events.as_str()), "{line}");
    }
    Ok(())
}

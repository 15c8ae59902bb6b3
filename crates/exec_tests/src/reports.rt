//! Reports of explorations.

ghost use Rattle.std.specs.Prelude.{ℕ};
ghost use Rattle.domain_core.specs.Outlines.{shape_of};
ghost use Rattle.domain_core.specs.Machines.{IsAlong};
ghost use Rattle.exec_toys.specs.declared.span.Span.{Span};
ghost use Rattle.exec_toys.specs.Charts.{chart_machine};

use crate::charts::chart_of;
use crate::policies::policy;
use crate::words::{given, number, part};
use abstract_exec::{Explored, Pool};
use domain_core::Outline;
use exec_toys::{Chart, costed};
use fact_words::print;
use flow_gathering::FourRecorders;
use flow_reports::report;
use report_soundness::numbers_are_at_most_the_steps;
use std::alloc::Global;
use std::test::Fail;
use worklist_rules::{Policy, a_pool_has_one_policy_run};

// The lines of nodes and scopes: a loop, two ways, and a loop in a loop.
const LOOP: &str = "\
facts 2;node 0 0 1 \"main\":entry;node 1 0 1 \"main\":0;node 2 1 1 \"main\":1;node 3 1 1 \"main\":2;node 4 0 1 \"main\":3;\
scope 0 - 0 call;scope 1 0 2 loop;";

const WAYS: &str = "\
facts 2;node 0 0 1 \"main\":entry;node 1 0 1 \"main\":0;node 2 0 1 \"main\":1;node 3 0 1 \"main\":2;node 4 0 1 \"main\":3;\
scope 0 - 0 call;";

const NESTED: &str = "\
facts 2;node 0 0 1 \"main\":entry;node 1 0 1 \"main\":0;node 2 1 1 \"main\":1;node 3 2 1 \"main\":2;node 4 2 1 \"main\":3;\
node 5 1 1 \"main\":4;node 6 0 1 \"main\":5;scope 0 - 0 call;scope 1 0 2 loop;scope 2 1 3 loop;";

// The items of a program, its flow chart, the numbers at the start, the policy and the turns; and then which nodes and
// scopes the report has, and its other lines, or `left` where the exploration is left. A line ends with `;`.
//
// A loop to a number of 0 to 10 in each mode, with more turns than are wanted, and with too few. Single runs, with and
// without a fault. Two ways, which exclude each other; one of them alone; and both with a fault. A loop in a loop.
const ROWS: &str = "\
; @A ?C |B @B ; ^A @C . | 1 2 1?4:3 2-1 5 | 0..10 | none | 34 => loop => \
loop 1 1 11;count 1 3 0 10;total 0 1 1;total 1 1 1;total 2 1 11;total 3 0 10;total 4 1 1;count-bound 24;end;\n\
; @A ?C |B @B ; ^A @C . | 1 2 1?4:3 2-1 5 | 0..10 | joins | 24 => loop => \
loop 1 1 11;count 1 3 0 10;total 0 1 1;total 1 1 1;total 2 1 11;total 3 0 10;total 4 1 1;count-bound 24;end;\n\
; @A ?C |B @B ; ^A @C . | 1 2 1?4:3 2-1 5 | 0..10 | joins | 90000 => loop => \
loop 1 1 11;count 1 3 0 10;total 0 1 1;total 1 1 1;total 2 1 11;total 3 0 10;total 4 1 1;count-bound 24;end;\n\
; @A ?C |B @B ; ^A @C . | 1 2 1?4:3 2-1 5 | 0..10 | joins | 23 => none => left\n\
; @A ?C |B @B ; ^A @C . | 1 2 1?4:3 2-1 5 | 10..10 | joins | 24 => loop => \
loop 1 11 11;count 1 3 10 10;total 0 1 1;total 1 1 1;total 2 11 11;total 3 10 10;total 4 1 1;count-bound 24;end;\n\
?A |B @A ; ^C @B ; @C . | 1 5?2:3 3?!:4 7?#:4 5 | 1..1 | joins | 3 => ways => \
dead 3;dead 4;total 0 1 1;total 1 1 1;total 2 1 1;alarm 2 divide;count-bound 3;end;\n\
?A |B @A ; ^C @B ; @C . | 1 5?2:3 4 4 5 | 0..9 | none | 6 => ways => \
total 0 1 1;total 1 1 1;total 2 0 1;total 3 0 1;total 4 1 1;pair 0 2 3;count-bound 5;end;\n\
?A |B @A ; ^C @B ; @C . | 1 5?2:3 4 4 5 | 0..9 | joins | 5 => ways => \
total 0 1 1;total 1 1 1;total 2 0 1;total 3 0 1;total 4 1 1;pair 0 2 3;count-bound 5;end;\n\
?A |B @A ; ^C @B ; @C . | 1 5?2:3 4 4 5 | 5..9 | joins | 4 => ways => \
dead 2;total 0 1 1;total 1 1 1;total 3 1 1;total 4 1 1;count-bound 4;end;\n\
?A |B @A ; ^C @B ; @C . | 1 5?2:3 3?!:4 7?#:4 5 | 0..9 | none | 6 => ways => \
total 0 1 1;total 1 1 1;total 2 0 1;total 3 0 1;total 4 0 1;pair 0 2 3;alarm 2 divide;alarm 3 uninit;count-bound 5;end;\n\
; @A ?D |B @B ?C |E @E ^B @C ^A @D . | 1 2 1?6:3 2?5:4 3-1 2-1 7 | 0..3 | joins | 11 => nested => \
loop 1 1 2;loop 2 1 3;count 1 5 0 1;count 2 4 0 2;total 0 1 1;total 1 1 1;total 2 1 2;total 3 0 3;total 4 0 2;total 5 0 1;\
total 6 1 1;count-bound 11;end;";

// The text of the report of an exploration of so many turns, if it closes.
fn printed(
    alloc: Global,
    outline: &Outline,
    chart: &Chart,
    policy: Policy,
    turns: u32,
) -> Result<Option<Vec<u8>>, Fail>
    requires { IsAlong Span ℕ (shape_of outline.now) (chart_machine chart.now.forks.items chart.now.first) }
{
    if turns > 1_000_000 || outline.node_count() > 512 {
        return Ok(None);
    }
    a_pool_has_one_policy_run::<Chart, FourRecorders>(policy);
    numbers_are_at_most_the_steps::<Chart>();
    let mut pool: Pool<Chart, FourRecorders> = Pool::start(alloc, chart, outline)?;
    match pool.explore(alloc, policy, turns)? {
        Explored::Left(_) => Ok(None),
        Explored::Closed(_) => {
            let report = report(alloc, outline, &pool)?;
            Ok(Some(print(alloc, &report)?))
        }
    }
}

// The lines of nodes and scopes that a row names.
fn front(row: &str) -> &'static str {
    match part(row, " => ", 1) {
        "loop" => LOOP,
        "ways" => WAYS,
        "nested" => NESTED,
        _ => "",
    }
}

// The text of the report of a row, `left` where there is none. A semicolon stands for the end of a line.
fn told(alloc: Global, row: &str) -> Result<String, Fail> {
    let outline = costed(alloc, given(row, 0), "1 1 1 1 1 1 1")?;
    let chart = chart_of(alloc, &outline, given(row, 1), given(row, 2))?;
    let turns = number(given(row, 4));
    let mut told = String::new(alloc);
    match printed(alloc, &outline, &chart, policy(given(row, 3)), turns)? {
        None => told.push_str("left")?,
        Some(text) => {
            for byte in &text {
                told.push(if *byte == b'\n' {
                    ';'
                } else {
                    char::from(*byte)
                })?;
            }
        }
    }
    Ok(told)
}

#[test]
fn reports_tell_what_explorations_found(rt: HostRuntime) -> Result<(), Fail> {
    let alloc = rt.alloc();
    for row in ROWS.lines() {
        let found = told(alloc, row)?;
        let facts = part(row, " => ", 2);
        let wanted = format!(in alloc; "{}{facts}", front(row))?;
        assert_eq!(rt; found.as_str(), wanted.as_str(), "{row}");
    }
    Ok(())
}

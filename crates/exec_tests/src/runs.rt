//! Runs that are written by hand.

use crate::books::told;
use crate::words::{part, rest};
use exec_toys::outline_of;
use std::test::Fail;

// The items of a program, its runs, and what is told: of each node in a run, of each scope's header and
// of each other node of a loop in an execution, and the pairs.
//
// A loop in a loop (2 and 3 are headers, the inner one is entered twice); the same run cut at node 4;
// two runs that are merged at node 3 with unequal counts; several runs, entered in one book.
// Two ways through a loop, each in an iteration of its own, and two in one run whose iterations are cut.
// A loop around a call, whole and cut in the call.
// Two ways that are merged where they meet, and the same two as runs of their own.
const RUNS: &str = "\
; @A ?D |B @B ?C |E @E ^B @C ^A @D . => 0 1 2 3 4 3 5 2 3 5 2 6 => 1.1 1.1 3.3 3.3 1.1 2.2 1.1 => 1.1 3.3 1.2 => - - - - 0.1 2.2 - => 0.1 0.6 1.6 2.5 3.4 \n\
; @A ?D |B @B ?C |E @E ^B @C ^A @D . => 0 1 2 3 4 => 1.1 1.1 1.1 1.1 1.1 0.0 0.0 => 1.1 1.1 1.1 => - - - - 1.1 0.0 - => 0.1 3.4 \n\
; @A ?D |B @B ?C |E @E ^B @C ^A @D . => 0 1 2 3 + 0 1 2 3 4 3 > 3 5 2 6 => 1.1 1.1 2.2 1.2 0.1 1.1 1.1 => 1.1 2.2 1.2 => - - - - 0.1 1.1 - => 0.1 0.6 1.6 2.5 3.4 \n\
; @A ?D |B @B ?C |E @E ^B @C ^A @D . => 0 1 2 6 & 0 1 2 3 5 2 3 4 3 => 1.1 1.1 1.2 0.3 0.1 0.1 0.1 => 1.1 1.2 1.2 => - - - - 0.1 0.1 - => 0.1 0.6 1.6 2.5 3.4 \n\
; @A ?F |B @B ?D |C @C ; ^A @D ; ^A @F . => 0 1 2 3 4 2 3 5 2 6 => 1.1 1.1 3.3 2.2 1.1 1.1 1.1 => 1.1 3.3 => - - - 2.2 1.1 1.1 - => 0.1 0.6 1.6 2.3 2.4 2.5 3.4 3.5 \n\
; @A ?F |B @B ?D |C @C ; ^A @D ; ^A @F . => 0 1 2 3 + 0 1 2 3 4 2 3 > 3 5 => 1.1 1.1 1.2 1.2 0.1 1.1 0.0 => 1.1 1.2 => - - - 1.2 0.1 1.1 - => 0.1 2.3 2.4 2.5 3.4 3.5 \n\
@A !f ?A |B @B . /f . => 0 1 4 5 2 1 4 5 2 3 => 1.1 2.2 2.2 1.1 2.2 2.2 => 1.1 2.2 1.1 => - - 2.2 - - - => 0.3 1.2 4.5 \n\
@A !f ?A |B @B . /f . => 0 1 4 5 2 1 4 => 1.1 2.2 1.1 0.0 2.2 1.1 => 1.1 2.2 1.1 => - - 1.1 - - - => 1.2 4.5 \n\
?A |B @A ; ^C @B ; @C . => 0 1 2 4 + 0 1 3 4 > 4 => 1.1 1.1 0.1 0.1 1.1 => 1.1 => - - - - - => 0.1 0.2 0.3 0.4 1.2 1.3 1.4 2.4 3.4 \n\
?A |B @A ; ^C @B ; @C . => 0 1 2 4 & 0 1 3 4 => 1.1 1.1 0.1 0.1 1.1 => 1.1 => - - - - - => 0.1 0.2 0.3 0.4 1.2 1.3 1.4 2.4 3.4 ";

// Of the three parts of a line the last, in which the mark between parts stands too.
fn wanted_of(line: &str) -> &str {
    rest(rest(line, " => "), " => ")
}

#[test]
fn books_tell_what_runs_do(rt: HostRuntime) -> Result<(), Fail> {
    let alloc = rt.alloc();
    for line in RUNS.lines() {
        let items = part(line, " => ", 0);
        let runs = part(line, " => ", 1);
        let outline = outline_of(alloc, items)?;
        let found = told(alloc, &outline, runs)?;
        assert_eq!(rt; found.as_str(), wanted_of(line), "{line}");
    }
    Ok(())
}

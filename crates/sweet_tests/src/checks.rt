//! Reports that `check` accepts or refuses.

use crate::cases::{field, side};
use crate::tables::hold;
use std::alloc::{AllocError, Global};
use std::test::Fail;

// The reports that the rows below change: a name, a program and its inputs, and the lines.
const REPORTS: &str =
    r#"ten turns, form 1 | a loop of ten turns | input = [] => facts 1;node 0 0 0 "main":entry;node 1 0 1 "main":0;node 2 1 1 "main":1;node 3 1 1 "main":2;node 4 0 1 "main":3;scope 0 - 0 call;scope 1 0 2 loop;loop 1 11 11;total 0 1 1;total 1 1 1;total 2 11 11;total 3 10 10;total 4 1 1;count-bound 23;path-bound 23 least;cert;step 0;step 0;step 0;step 0;step 0;step 0;step 0;step 0;step 0;step 0;step 0;step 0;step 0;step 0;step 0;step 0;step 0;step 0;step 0;step 0;step 0;step 0;step 0;step 0;scale 1;mul 0;mul 0;mul 0;mul 0;mul 0;mul 0;mul 0;mul 0;mul 0;mul 1;mul 0;mul 1;mul 0;mul 1;mul 0;mul 1;mul 0;end;
ten turns, form 2 | a loop of ten turns | input = [] => facts 2;node 0 0 0 "main":entry;node 1 0 1 "main":0;node 2 1 1 "main":1;node 3 1 1 "main":2;node 4 0 1 "main":3;scope 0 - 0 call;scope 1 0 2 loop;loop 1 11 11;count 1 3 10 10;total 0 1 1;total 1 1 1;total 2 11 11;total 3 10 10;total 4 1 1;count-bound 23;path-bound 23 least;cert;step 0;step 0;step 0;step 0;step 0;step 0;step 0;step 0;step 0;step 0;step 0;step 0;step 0;step 0;step 0;step 0;step 0;step 0;step 0;step 0;step 0;step 0;step 0;step 0;scale 1;mul 0;mul 0;mul 0;mul 0;mul 0;mul 0;mul 0;mul 0;mul 0;mul 1;mul 0;mul 1;mul 0;mul 1;mul 0;mul 1;mul 0;mul 0;mul 0;end;
a division | a division by an input | [[input]];frame = "d";offset = 0;size = 32;low = -2;high = 2; => facts 2;node 0 0 0 "main":entry;node 1 0 1 "main":0;scope 0 - 0 call;total 0 1 1;total 1 1 1;alarm 1 divide;count-bound 1;path-bound 1 least;cert;step 0;step 0;scale 1;mul 0;mul 0;mul 0;mul 0;mul 1;mul 0;end;
apart | two tests that exclude each other | [[input]];frame = "x";offset = 0;size = 32;low = 0;high = 9; => facts 2;node 0 0 0 "main":entry;node 1 0 1 "main":0;node 2 0 1 "main":1;node 3 0 1 "main":2;node 4 0 1 "main":3;node 5 0 1 "main":4;scope 0 - 0 call;total 0 1 1;total 1 1 1;total 2 0 1;total 3 1 1;total 4 0 1;total 5 1 1;pair 0 2 4;count-bound 5;path-bound 4 least;cert;step 0;step 0;step 0;step 0;step 0;step 0;step 0;step 0;scale 1;mul 0;mul 0;mul 0;mul 0;mul 0;mul 0;mul 1;mul 0;mul 1;mul 0;mul 0;mul 0;mul 1;mul 0;mul 0;mul 0;mul 1;mul 0;mul 1;end;
joined | two tests that exclude each other | [[input]];frame = "x";offset = 0;size = 32;low = 0;high = 9; => facts 2;node 0 0 0 "main":entry;node 1 0 1 "main":0;node 2 0 1 "main":1;node 3 0 1 "main":2;node 4 0 1 "main":3;node 5 0 1 "main":4;scope 0 - 0 call;total 0 1 1;total 1 1 1;total 2 0 1;total 3 1 1;total 4 0 1;total 5 1 1;count-bound 5;path-bound 5 least;cert;step 0;step 0;step 0;step 0;step 0;step 0;step 0;step 0;scale 1;mul 0;mul 0;mul 0;mul 0;mul 0;mul 0;mul 0;mul 0;mul 1;mul 0;mul 1;mul 0;mul 1;mul 0;mul 1;mul 0;mul 1;mul 0;end;
a case | a case that always comes | [[input]];frame = "x";offset = 0;size = 32;low = 3;high = 3; => facts 2;node 0 0 0 "main":entry;node 1 0 1 "main":0;node 2 0 1 "main":1;node 3 0 1 "main":2;scope 0 - 0 call;dead 3;total 0 1 1;total 1 1 1;total 2 1 1;count-bound 2;path-bound 2 least;cert;step 0;step 0;step 0;scale 1;mul 0;mul 0;mul 0;mul 0;mul 1;mul 0;mul 0;mul 1;mul 0;mul 1;mul 0;end;
a case, as totals | a case that always comes | [[input]];frame = "x";offset = 0;size = 32;low = 3;high = 3; => facts 2;node 0 0 0 "main":entry;node 1 0 1 "main":0;node 2 0 1 "main":1;node 3 0 1 "main":2;scope 0 - 0 call;total 0 1 1;total 1 1 1;total 2 1 1;total 3 0 0;count-bound 2;path-bound 2 least;cert;step 0;step 0;step 0;scale 1;mul 0;mul 0;mul 0;mul 0;mul 0;mul 0;mul 1;mul 0;mul 1;mul 0;mul 1;mul 0;end;
a sort | insertion sort | [[input]];frame = "a";offset = 0;size = 32;count = 10;low = -100;high = 100; => facts 1;node 0 0 0 "main":entry;node 1 0 1 "main":0;node 2 1 1 "main":1;node 3 1 1 "main":2;node 4 2 1 "main":3;node 5 2 1 "main":4;node 6 2 1 "main":5;node 7 1 1 "main":6;node 8 1 1 "main":7;node 9 0 1 "main":8;scope 0 - 0 call;scope 1 0 2 loop;scope 2 1 4 loop;loop 1 10 10;loop 2 1 10;total 0 1 1;total 1 1 1;total 2 10 10;total 3 9 9;total 4 9 54;total 5 9 45;total 6 0 45;total 7 9 9;total 8 9 9;total 9 1 1;count-bound 183;path-bound 183 least;end;"#;

// The report's name, lines of it and what stands in their place, perhaps once more.
const TURNS: &str = r#"check a.alf r --inputs i.toml
a.alf subject $0
i.toml ranges $0
r report $0 | $1 | $2 | $3 | $4

ten turns, form 1 |  |  => 0 accepted;
ten turns, form 1 | loop 1 11 11; | loop 1 11 12; => 0 accepted;
ten turns, form 1 | path-bound 23 least; | path-bound 22 least; => 4 no bound 23;
ten turns, form 1 | mul 0;mul 0;mul 1; | mul 0;mul 0;mul -1; => 4 no negative 9;
ten turns, form 1 | mul 0;mul 0;mul 1; | mul 0;mul 0;mul 0; => 4 no column 1;
ten turns, form 1 | cert;step 0; | cert;merge 0 1; => 4 no event 0;
ten turns, form 1 | cert;step 0; | cert; => 4 no left 0;
ten turns, form 1 | total 3 10 10; | total 3 10 9; => 2 fault 60 syntax 13 12;
ten turns, form 1 | total 0 1 1;total 1 1 1;total 2 11 11;total 3 10 10;total 4 1 1; | dead 4;total 0 1 1;total 1 1 1;total 2 11 11;total 3 10 10; => 4 no shape;
ten turns, form 1 | scale 1; | scale 9999999999999999999999999999999999999999; => 2 fault 61 number 42 7;
ten turns, form 1 | loop 1 11 11; | loop 1 11 11;count 1 3 10 10; => 2 fault 60 syntax 10 1;
ten turns, form 2 |  |  => 0 accepted;
ten turns, form 2 | count 1 3 10 10; | count 1 3 0 9; => 4 no fact 10;
a division |  |  => 0 accepted;
a division | alarm 1 divide; |  => 4 no alarm 1 divide;
a division | alarm 1 divide; | alarm 0 divide;alarm 1 bounds; => 4 no alarm 1 divide;
a division | alarm 1 divide; |  | total 1 1 1; | total 1 2 3; => 4 no alarm 1 divide;
a division | path-bound 1 least; |  | mul 1; | mul 0; => 4 no column 1;
apart |  |  => 0 accepted;
apart | path-bound 4 least; | path-bound 3 least; => 4 no bound 4;
joined | total 5 1 1; | total 5 1 1;pair 0 2 4; | scale 1; | scale 1;mul 0; => 4 no column 1;
a case |  |  => 0 accepted;
a case | dead 3; | dead 2; | total 2 1 1; | total 3 1 1; => 4 no fact 7;
a case, as totals | total 3 0 0; | total 3 1 1; => 4 no fact 10;
a division | alarm 1 divide; |  | cert;step 0; | cert; => 4 no left 0;
a division | alarm 1 divide; |  | cert;step 0; | cert;step 1; => 4 no event 0;
a division | alarm 1 divide; |  | count-bound 1; | count-bound 0; => 4 no alarm 1 divide;
ten turns, form 1 | count-bound 23; | count-bound 22; | mul 0;mul 0;mul 1; | mul 0;mul 0;mul -1; => 4 no count-bound;
ten turns, form 1 | total 4 1 1; | total 4 1 1;pair 0 1 4; | mul 0;end; | mul 0;mul 0;end; => 4 no fact 15;
ten turns, form 1 | scale 1;mul 0;mul 0;mul 0;mul 0;mul 0;mul 0;mul 0;mul 0;mul 0;mul 1;mul 0;mul 1;mul 0;mul 1;mul 0;mul 1;mul 0; | scale 2;mul 0;mul 0;mul 0;mul 0;mul 0;mul 0;mul 0;mul 0;mul 0;mul 2;mul 0;mul 2;mul 0;mul 2;mul 0;mul 2;mul 0; => 0 accepted;"#;

#[test]
fn a_report_is_checked_by_each_of_its_lines(rt: HostRuntime) -> Result<(), Fail> {
    hold(rt.alloc(), TURNS)
}

// Of two things that speak against a report the one that is looked for first: lines of the report, what stands in
// their place.
const REFUSED: &str = r#"check a.alf r --inputs i.toml
a.alf subject ten turns, form 2
i.toml ranges ten turns, form 2
r report ten turns, form 2 | $0 | $1 | $2 | $3

cert;step 0;step 0;step 0;step 0;step 0;step 0;step 0;step 0;step 0;step 0;step 0; | cert; => 4 no left 1;
node 3 1 1 "main":2; | node 3 1 2 "main":2; => 4 no shape;
node 3 1 1 "main":2; | node 3 0 1 "main":2; => 4 no shape;
node 3 1 1 "main":2; | node 3 1 1 "main":3; => 4 no shape;
node 4 0 1 "main":3; | node 4 0 1 "main":3;node 5 0 1 "main":4; => 4 no shape;
scope 1 0 2 loop; | scope 1 0 3 loop; => 4 no shape;
scope 1 0 2 loop; | scope 1 0 2 call; => 4 no shape;
scope 1 0 2 loop; | scope 1 - 2 loop; => 4 no shape;
loop 1 11 11; | loop 0 1 1;loop 1 11 11; => 4 no shape;
loop 1 11 11; | loop 1 11 11;loop 2 1 1; => 4 no shape;
count 1 3 10 10; | count 1 2 10 10; => 4 no shape;
count 1 3 10 10; | count 1 4 10 10; => 4 no shape;
count 1 3 10 10; | count 0 1 1 1; => 4 no shape;
count 1 3 10 10; | count 1 3 10 10;dead 3; => 4 no shape;
count 1 3 10 10; | count 1 3 10 10;dead 5; => 4 no shape;
total 3 10 10; |  => 4 no shape;
total 3 10 10; | total 3 9 10;total 3 10 10; => 4 no shape;
total 4 1 1; | total 4 1 1;total 5 0 0; => 4 no shape;
total 4 1 1; | total 4 1 1;pair 1 2 3; => 4 no shape;
total 4 1 1; | total 4 1 1;pair 1 3 3; => 4 no shape;
total 4 1 1; | total 4 1 1;pair 0 4 1; => 4 no shape;
total 4 1 1; | total 4 1 1;alarm 5 dead; => 4 no shape;
scale 1; | scale 1;mul 0; => 4 no shape;
loop 1 11 11; | loop 1 10 10; => 4 no fact 9;
loop 1 11 11; | loop 1 12 12; => 4 no fact 9;
count 1 3 10 10; | count 1 3 11 12; => 4 no fact 10;
total 2 11 11; | total 2 12 12; => 4 no fact 13;
total 2 11 11;total 3 10 10; | total 2 12 12;total 3 9 9; => 4 no fact 13;
count-bound 23; | count-bound 22; => 4 no count-bound;
total 3 10 10; | total 3 10 11; => 4 no count-bound;
path-bound 23 least; | path-bound 0 stopped; => 4 no bound 23;
scale 1;mul 0; | scale 1;mul 1; => 4 no bound 24;
scale 1; | scale 2; => 4 no column 1;
count-bound 23;path-bound 23 least; | count-bound 22;path-bound 22 least; => 4 no count-bound;
loop 1 11 11;count 1 3 10 10; | loop 1 10 10;count 1 3 0 9; => 4 no fact 9;
total 4 1 1;count-bound 23; | total 4 0 0;count-bound 0; => 4 no fact 15;
total 4 1 1;count-bound 23;path-bound 23 least;cert;step 0; | total 4 0 0;count-bound 0;path-bound 0 least;cert; => 4 no left 0;
total 4 1 1;count-bound 23;path-bound 23 least;cert;step 0; | total 4 0 0;count-bound 0;path-bound 0 least;cert;step 1; => 4 no event 0;
total 4 1 1;count-bound 23;path-bound 23 least;cert;step 0; | total 4 0 0;total 4 1 1;count-bound 0;path-bound 0 least;cert;step 1; => 4 no shape;
mul 0;mul 0;mul 1; | mul 0;mul 0;mul -1; => 4 no negative 9;
path-bound 23 least; | path-bound 22 least; => 4 no bound 23;"#;

#[test]
fn what_speaks_against_a_report_is_told_in_its_order(rt: HostRuntime) -> Result<(), Fail> {
    hold(rt.alloc(), REFUSED)
}

// Reports that say less than what was collected: lines of a report, and what stands in their place, perhaps once more.
const WEAKER: &str = r#"check a.alf r --inputs i.toml
a.alf subject $0
i.toml ranges $0
r report $0 | $1 | $2 | $3 | $4
=> 0 accepted;

ten turns, form 2 | loop 1 11 11; | loop 1 0 4294967295;
ten turns, form 2 | loop 1 11 11; |  | scale 1;mul 0;mul 0; | scale 1;
ten turns, form 2 | count 1 3 10 10; | count 1 3 0 11;
ten turns, form 2 | count 1 3 10 10; |  | mul 0;mul 0;mul 0;end; | mul 0;end;
ten turns, form 2 | total 3 10 10; | total 3 9 10;
ten turns, form 2 | total 3 10 10; | total 3 0 11; | count-bound 23;path-bound 23 least; | count-bound 24;path-bound 24 least;
ten turns, form 2 | total 4 1 1; | total 4 1 1;alarm 3 divide;
ten turns, form 2 | count-bound 23; | count-bound 18446744073709551615;
ten turns, form 2 | path-bound 23 least; | path-bound 24 stopped;
ten turns, form 2 | path-bound 23 least; | 
a division | alarm 1 divide; | alarm 0 uninit;alarm 1 divide;
apart | pair 0 2 4;count-bound 5;path-bound 4 least; | count-bound 5;path-bound 5 least; | scale 1;mul 0;mul 0;mul 0;mul 0;mul 0;mul 0;mul 1;mul 0;mul 1;mul 0;mul 0;mul 0;mul 1;mul 0;mul 0;mul 0;mul 1;mul 0;mul 1; | scale 1;mul 0;mul 0;mul 0;mul 0;mul 0;mul 0;mul 0;mul 0;mul 1;mul 0;mul 1;mul 0;mul 1;mul 0;mul 1;mul 0;mul 1;mul 0;
a case, as totals |  | 
a case, as totals | total 3 0 0;count-bound 2;path-bound 2 least; | total 3 0 5;count-bound 7;path-bound 7 least;"#;

#[test]
fn a_report_that_says_less_is_accepted(rt: HostRuntime) -> Result<(), Fail> {
    hold(rt.alloc(), WEAKER)
}

// Events that no policy makes, in place of those of the certificate.
const EVENTS: &str = r#"check a.alf r --inputs i.toml
a.alf subject $0
i.toml ranges $0
r events $0 | $1

apart | step 0;step 0;step 1;step 1;step 1;step 0;step 0;step 0; => 0 accepted;
apart | step 0;step 0;step 0;step 1;step 0;step 1;step 0;step 0; => 0 accepted;
apart | step 0;step 0;step 0;merge 0 1;step 0;step 0;step 0;step 0; => 4 no fact 15;
apart | step 0;step 0;step 0;merge 0 1;step 0;step 1;step 0;step 0; => 4 no fact 15;
joined | step 0;step 0;step 0;merge 0 1;step 0;step 0;step 0; => 4 no left 0;
joined | step 0;step 0;step 0;merge 0 1;step 0;step 0;step 0;step 0; => 0 accepted;
joined | step 0;step 0;step 0;merge 0 1;step 0;step 0;step 0;step 0;step 0; => 4 no event 8;
joined | step 0;step 0;step 0;merge 0 1;step 0;step 0;merge 0 1;step 0; => 0 accepted;
joined | step 0;step 0;step 1;step 0;step 1;step 0;step 0;step 0; => 0 accepted;
joined | step 0;step 0;merge 0 1; => 4 no event 2;
joined | step 0;step 0;step 0;merge 1 0; => 4 no event 3;
joined | step 0;step 0;step 2; => 4 no event 2;
joined |  => 4 no left 0;"#;

#[test]
fn events_that_no_policy_makes_are_applied(rt: HostRuntime) -> Result<(), Fail> {
    hold(rt.alloc(), EVENTS)
}

// Reports whose certificate is left out. Nor is one accepted that has another form.
const WITHOUT: &str = r#"check a.alf r --inputs i.toml
a.alf subject $0
i.toml ranges $0
r plain $0
=> 4 no cert;
--
check a.alf r --inputs i.toml
a.alf subject $0
i.toml ranges $0
r text facts 1;count-bound 0;end;
=> 4 no cert;

ten turns, form 1
ten turns, form 2
a division"#;

#[test]
fn a_report_without_a_certificate_is_not_accepted(rt: HostRuntime) -> Result<(), Fail> {
    hold(rt.alloc(), WITHOUT)
}

/// The row of the report of this name.
pub fn row_of(name: &str) -> &'static str {
    for line in REPORTS.lines() {
        if field(line, 0) == name {
            return line;
        }
    }
    ""
}

// The report with other lines in place of these, which it has once. The same where there are none.
fn changed(alloc: Global, report: &str, old: &str, new: &str) -> Result<String, AllocError> {
    if old.is_empty() {
        return String::from_str(alloc, report);
    }
    let before = report.split(old).nth(0).unwrap_or("");
    let after = report.split(old).nth(1).unwrap_or("");
    format!(in alloc; "{before}{new}{after}")
}

// The report of this name without its certificate, or with these events in place of its own, or as it is.
fn begun(alloc: Global, how: &str, asked: &str) -> Result<String, AllocError> {
    let report = side(row_of(field(asked, 0)), 1);
    let before = report.split("cert;").nth(0).unwrap_or("");
    match how {
        "plain" => format!(in alloc; "{before}end;"),
        "events" => {
            let after = report.split("scale 1;").nth(1).unwrap_or("");
            format!(in alloc; "{before}cert;{}scale 1;{after}", field(asked, 1))
        }
        _ => String::from_str(alloc, report),
    }
}

/// The report of this name, told so, with two changes.
pub fn report_of(alloc: Global, how: &str, asked: &str) -> Result<String, AllocError> {
    let report = begun(alloc, how, asked)?;
    if how == "events" {
        return Ok(report);
    }
    let once = changed(alloc, report.as_str(), field(asked, 1), field(asked, 2))?;
    changed(alloc, once.as_str(), field(asked, 3), field(asked, 4))
}

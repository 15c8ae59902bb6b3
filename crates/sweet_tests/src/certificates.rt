//! Reports with a certificate, as `analyse --cert` prints them.

use crate::cases::{split_line, told_of};
use crate::tables::hold;
use std::alloc::{AllocError, Global};
use std::test::Fail;

// Words that ask for the certificate of a run with one block, and the report, at whose end it stands.
const ALONE: &str = r#"$0
a.alf alf - | - | .
=> 0 facts 2;node 0 0 0 "main":entry;node 1 0 1 "main":0;scope 0 - 0 call;total 0 1 1;total 1 1 1;count-bound 1;path-bound 1 least;cert;step 0;step 0;scale 1;mul 0;mul 0;mul 0;mul 0;mul 1;mul 0;end;

analyse a.alf --cert
analyse --cert a.alf --turns 2"#;

#[test]
fn a_certificate_stands_before_the_end(rt: HostRuntime) -> Result<(), Fail> {
    hold(rt.alloc(), ALONE)
}

// Frames, functions, options and inputs, and the events: of a loop of ten turns; of two arms that meet, merged and
// not; of a loop that is left after one turn or after two.
const EVENTS: &str = r#"!events a.alf $2
a.alf alf - | $0 | $1
i.toml text $3
c.toml text default = 1

i | i=0 @H ?i:10>E:B @B i=i+1 ^H @E . |  |  => step 0;step 0;step 0;step 0;step 0;step 0;step 0;step 0;step 0;step 0;step 0;step 0;step 0;step 0;step 0;step 0;step 0;step 0;step 0;step 0;step 0;step 0;step 0;step 0;
x | ?x:1>A:B @A { null } ^E @B { null } @E . | --inputs i.toml | [[input]];frame="x";offset=0;size=32;low=0;high=1 => step 0;step 0;step 0;step 1;merge 0 1;step 0;
x | ?x:1>A:B @A { null } ^E @B { null } @E . | --inputs i.toml --merge none | [[input]];frame="x";offset=0;size=32;low=0;high=1 => step 0;step 0;step 0;step 1;step 0;step 0;
x | ?x:1>A:B @A { null } ^E @B { null } @E . | --inputs i.toml --merge exits | [[input]];frame="x";offset=0;size=32;low=0;high=1 => step 0;step 0;step 0;step 1;step 0;step 0;
i n | i=0 @H { switch { s_lt 32 *i *n } { target '1 @B } { default @E } } @B i=i+1 ^H @E . | --inputs i.toml | [[input]];frame="n";offset=0;size=32;low=0;high=1 => step 0;step 0;step 0;step 0;step 0;merge 0 1;step 0;
i n | i=0 @H { switch { s_lt 32 *i *n } { target '1 @B } { default @E } } @B i=i+1 ^H @E . | --inputs i.toml --turns 6 | [[input]];frame="n";offset=0;size=32;low=0;high=1 => step 0;step 0;step 0;step 0;step 0;merge 0 1;step 0;"#;

#[test]
fn the_events_are_those_of_the_policy(rt: HostRuntime) -> Result<(), Fail> {
    hold(rt.alloc(), EVENTS)
}

// Programs, how they are merged, and their inputs.
const OWN: &str = r#"!then check a.alf r --inputs i.toml > r
analyse a.alf --inputs i.toml --cert --merge $1
a.alf named $0
i.toml text $2
c.toml text default = 1
=> 0 accepted;

insertion sort | joins | [[input]];frame="a";offset=0;size=32;count=10;low=-100;high=100
two tests that exclude each other | none | [[input]];frame="x";offset=0;size=32;low=0;high=9
a loop bounded by an input | exits | [[input]];frame="n";offset=0;size=32;low=0;high=10
a case that always comes | joins | [[input]];frame="x";offset=0;size=32;low=3;high=3
a pointer to one of two arrays | joins | [[input]];frame="c";offset=0;size=32;low=0;high=1"#;

#[test]
fn what_is_printed_with_a_certificate_is_accepted(rt: HostRuntime) -> Result<(), Fail> {
    hold(rt.alloc(), OWN)
}

/// What answers the words in the first line, before ` > `, over the files of the case below it and a file of the
/// name behind it, which has the text that answers this case. Where it is the same as what answers that case,
/// `same` stands before it.
pub fn chained(alloc: Global, asked: &str) -> Result<String, AllocError> {
    let (line, case) = (split_line(asked, 0), split_line(asked, 1));
    let words = line.split(" > ").nth(0).unwrap_or("");
    let name = line.split(" > ").nth(1).unwrap_or("");
    let first = told_of(alloc, case)?;
    let text = first.as_str().strip_prefix("0 ").unwrap_or("");
    let next = format!(in alloc; "{words}\n{}\n{name} text {text}", split_line(case, 1))?;
    let second = told_of(alloc, next.as_str())?;
    if second == first {
        return format!(in alloc; "same {second}");
    }
    Ok(second)
}

/// The events that `analyse --cert` prints of the case, where the lines before the certificate are those of the
/// report without it; else the whole text.
pub fn events_of(alloc: Global, asked: &str) -> Result<String, AllocError> {
    let plain = format!(in alloc; "analyse {asked}")?;
    let plain = told_of(alloc, plain.as_str())?;
    let certified = format!(in alloc; "analyse --cert {asked}")?;
    let certified = told_of(alloc, certified.as_str())?;
    let front = plain.as_str().split("end;").next().unwrap_or("");
    let front = format!(in alloc; "{front}cert;")?;
    let Some(rest) = certified.as_str().strip_prefix(front.as_str()) else {
        return Ok(certified);
    };
    String::from_str(alloc, rest.split("scale ").next().unwrap_or(""))
}

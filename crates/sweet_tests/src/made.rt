//! Programs that `generate` makes, and the numbers of their reports.

use crate::cases::{split_line, told_of};
use crate::tables::hold;
use std::alloc::{AllocError, Global};
use std::test::Fail;

// Words.
const ANSWERS: &str = r#"$0

generate 1 => 0 nodes 9;scopes 3;turns 8;count-bound 7;path-bound 7;
generate 3 => 0 nodes 23;scopes 7;turns 44;count-bound 43;path-bound 43;
generate 40 => 0 nodes 282;scopes 81;turns 35342;count-bound 35341;path-bound 35341;
generate 00000000000000000003 => 0 nodes 23;scopes 7;turns 44;count-bound 43;path-bound 43;
generate -- 3 => 0 nodes 23;scopes 7;turns 44;count-bound 43;path-bound 43;
generate 0 => 1 fault usage;
generate 41 => 1 fault usage;
generate 000000000000000000003 => 1 fault usage;
generate => 1 fault usage;
generate 3 4 => 1 fault usage;
generate 3 --turns 5 => 1 fault usage;


$0
made.c raw int main(void) { return 7; }

// no file is read
generate 1 => 0 nodes 9;scopes 3;turns 8;count-bound 7;path-bound 7;"#;

#[test]
fn a_made_program_has_the_numbers_of_its_report(rt: HostRuntime) -> Result<(), Fail> {
    hold(rt.alloc(), ANSWERS)
}

// The program of `generate 3`, written by hand, and how many lines of each kind its report has.
const MADE: &str = r#"!count node scope step count-bound path-bound
analyse made.c --cert
made.c raw int main(void) { int i; int j; int s = 0; for (i = 0; i < 1; i = i + 1) for (j = 0; j < i; j = j + 1) s = s + j; for (i = 0; i < 2; i = i + 1) for (j = 0; j < i; j = j + 1) s = s + j; for (i = 0; i < 3; i = i + 1) for (j = 0; j < i; j = j + 1) s = s + j; return s; }
--
analyse made.c --cert
made.c raw int main(void) { int i; int j; int s = 0; for (i = 0; i < 1; i = i + 1) for (j = 0; j < i; j = j + 1) s = s + j; for (i = 0; i < 2; i = i + 1) for (j = 0; j < i; j = j + 1) s = s + j; for (i = 0; i < 3; i = i + 1) for (j = 0; j < i; j = j + 1) s = s + j; return s; }
=> ..;count-bound 43;path-bound 43 least;..

 => node 23 scope 7 step 44 count-bound 1 path-bound 1 "#;

#[test]
fn the_numbers_are_those_of_the_report_of_the_text(rt: HostRuntime) -> Result<(), Fail> {
    hold(rt.alloc(), MADE)
}

/// How many lines of what is told begin with each of the words in the first line.
pub fn counted(alloc: Global, case: &str) -> Result<String, AllocError> {
    let told = told_of(alloc, split_line(case, 1))?;
    let mut counts = String::new(alloc);
    for word in split_line(case, 0).split(' ') {
        let mut count: u64 = 0;
        for line in told.as_str().splitn(2, ' ').nth(1).unwrap_or("").split(';') {
            if line.split(' ').next().unwrap_or("") == word {
                count = count.saturating_add(1);
            }
        }
        counts.push_str(format!(in alloc; "{word} {count} ")?.as_str())?;
    }
    Ok(counts)
}

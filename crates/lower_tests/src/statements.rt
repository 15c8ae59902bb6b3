//! Conditions, branches, loops and switches, and what each is lowered to.

use crate::expressions::is_lowered;
use std::test::Fail;

// Conditions, in the order of their tests.
static CONDITIONS: &str =
    r"if (i) j = 1; => { switch { neq 32 *i #0 } '1>f::L0 else>f::L1 } ; @f::L0 ; { store &j with #1 } ; goto>f::L1 ; @f::L1
if (i < j) ; => { switch { s_lt 32 *i *j } '1>f::L0 else>f::L1 } ; @f::L0 ; goto>f::L1 ; @f::L1
if (p == a) ; => { switch { eq 32 *f::p &a } '1>f::L0 else>f::L1 } ; @f::L0 ; goto>f::L1 ; @f::L1
if (!i) ; => { switch { neq 32 *i #0 } '1>f::L1 else>f::L0 } ; @f::L0 ; goto>f::L1 ; @f::L1
if (!(i < j)) ; => { switch { s_lt 32 *i *j } '1>f::L1 else>f::L0 } ; @f::L0 ; goto>f::L1 ; @f::L1
if (!i == 0) ; => { switch { eq 32 { z_ext 1 32 { eq 32 *i #0 } } #0 } '1>f::L0 else>f::L1 } ; @f::L0 ; goto>f::L1 ; @f::L1
if (i && j) ; => { switch { neq 32 *i #0 } '1>f::L2 else>f::L1 } ; @f::L2 ; { switch { neq 32 *j #0 } '1>f::L0 else>f::L1 } ; @f::L0 ; goto>f::L1 ; @f::L1
if (i || j) ; => { switch { neq 32 *i #0 } '1>f::L0 else>f::L2 } ; @f::L2 ; { switch { neq 32 *j #0 } '1>f::L0 else>f::L1 } ; @f::L0 ; goto>f::L1 ; @f::L1
if (!(i && j)) ; => { switch { neq 32 *i #0 } '1>f::L2 else>f::L0 } ; @f::L2 ; { switch { neq 32 *j #0 } '1>f::L1 else>f::L0 } ; @f::L0 ; goto>f::L1 ; @f::L1
if (i || j && n) ; => { switch { neq 32 *i #0 } '1>f::L0 else>f::L2 } ; @f::L2 ; { switch { neq 32 *j #0 } '1>f::L3 else>f::L1 } ; @f::L3 ; { switch { neq 32 *f::n #0 } '1>f::L0 else>f::L1 } ; @f::L0 ; goto>f::L1 ; @f::L1
if (n != 0 && 10 / n > 3) i = 2; => { switch { neq 32 *f::n #0 } '1>f::L2 else>f::L1 } ; @f::L2 ; { switch { s_gt 32 { s_div 32 32 #10 *f::n } #3 } '1>f::L0 else>f::L1 } ; @f::L0 ; { store &i with #2 } ; goto>f::L1 ; @f::L1";

// Branches with `else`, and branches that leave.
static BRANCHES: &str =
    r"if (i) j = 1; else j = 2; => { switch { neq 32 *i #0 } '1>f::L0 else>f::L1 } ; @f::L0 ; { store &j with #1 } ; goto>f::L2 ; @f::L1 ; { store &j with #2 } ; @f::L2
if (i) if (j) u = 1; else u = 2; => { switch { neq 32 *i #0 } '1>f::L0 else>f::L1 } ; @f::L0 ; { switch { neq 32 *j #0 } '1>f::L2 else>f::L3 } ; @f::L2 ; { store &u with #1 } ; goto>f::L4 ; @f::L3 ; { store &u with #2 } ; @f::L4 ; goto>f::L1 ; @f::L1
if (i) return 1; else return 2; => { switch { neq 32 *i #0 } '1>f::L0 else>f::L1 } ; @f::L0 ; { return #1 } ; goto>f::L2 ; @f::L1 ; { return #2 } ; @f::L2";

// Loops, and ways out of them and on in them.
static LOOPS: &str =
    r"while (i) i--; => @f::L0 ; { switch { neq 32 *i #0 } '1>f::L1 else>f::L2 } ; @f::L1 ; { store &i with { sub 32 *i #1 '1 } } ; goto>f::L0 ; @f::L2
while (i < 10 && j) i++; => @f::L0 ; { switch { s_lt 32 *i #10 } '1>f::L3 else>f::L2 } ; @f::L3 ; { switch { neq 32 *j #0 } '1>f::L1 else>f::L2 } ; @f::L1 ; { store &i with { add 32 *i #1 '0 } } ; goto>f::L0 ; @f::L2
while (i) { if (j) break; if (n) continue; i = 0; } => @f::L0 ; { switch { neq 32 *i #0 } '1>f::L1 else>f::L2 } ; @f::L1 ; { switch { neq 32 *j #0 } '1>f::L3 else>f::L4 } ; @f::L3 ; goto>f::L2 ; goto>f::L4 ; @f::L4 ; { switch { neq 32 *f::n #0 } '1>f::L5 else>f::L6 } ; @f::L5 ; goto>f::L0 ; goto>f::L6 ; @f::L6 ; { store &i with #0 } ; goto>f::L0 ; @f::L2
do i--; while (i); => @f::L0 ; { store &i with { sub 32 *i #1 '1 } } ; @f::L1 ; { switch { neq 32 *i #0 } '1>f::L0 else>f::L2 } ; @f::L2
do { if (i) continue; break; } while (j < n); => @f::L0 ; { switch { neq 32 *i #0 } '1>f::L3 else>f::L4 } ; @f::L3 ; goto>f::L1 ; goto>f::L4 ; @f::L4 ; goto>f::L2 ; @f::L1 ; { switch { s_lt 32 *j *f::n } '1>f::L0 else>f::L2 } ; @f::L2
for (;;) ; => @f::L0 ; goto>f::L1 ; @f::L1 ; @f::L2 ; goto>f::L0 ; @f::L3
for (i = 0; i < 3; i++) j += i; => { store &i with #0 } ; @f::L0 ; { switch { s_lt 32 *i #3 } '1>f::L1 else>f::L3 } ; @f::L1 ; { store &j with { add 32 *j *i '0 } } ; @f::L2 ; { store &i with { add 32 *i #1 '0 } } ; goto>f::L0 ; @f::L3
for (i = 0; ; i++) { if (j) break; continue; } => { store &i with #0 } ; @f::L0 ; goto>f::L1 ; @f::L1 ; { switch { neq 32 *j #0 } '1>f::L4 else>f::L5 } ; @f::L4 ; goto>f::L3 ; goto>f::L5 ; @f::L5 ; goto>f::L2 ; @f::L2 ; { store &i with { add 32 *i #1 '0 } } ; goto>f::L0 ; @f::L3";

// Switches: cases, defaults, ways from one into the next, and what they hold.
static SWITCHES: &str = r"switch (i) { } => { switch *i else>f::L0 } ; @f::L0
switch (i) { case 1: j = 1; break; case 2: j = 2; default: j = 3; } => { switch *i #1>f::L0 #2>f::L1 else>f::L2 } ; @f::L0 ; { store &j with #1 } ; goto>f::L3 ; @f::L1 ; { store &j with #2 } ; @f::L2 ; { store &j with #3 } ; @f::L3
switch (i) { default: j = 1; case 3: j = 2; break; case -2: ; } => { switch *i #3>f::L1 #-2>f::L2 else>f::L0 } ; @f::L0 ; { store &j with #1 } ; @f::L1 ; { store &j with #2 } ; goto>f::L3 ; @f::L2 ; @f::L3
switch (u) { case 1: case -1: case 2u: ; } => { switch *u #1u>f::L0 #4294967295u>f::L1 #2u>f::L2 else>f::L3 } ; @f::L0 ; @f::L1 ; @f::L2 ; @f::L3
switch (c) { case 300: j = 1; } => { switch { s_ext 8 32 *c%8 } #300>f::L0 else>f::L1 } ; @f::L0 ; { store &j with #1 } ; @f::L1
switch (i) { case 1: switch (j) { case 1: break; default: u = 1; } break; case 2: u = 2; } => { switch *i #1>f::L0 #2>f::L1 else>f::L2 } ; @f::L0 ; { switch *j #1>f::L3 else>f::L4 } ; @f::L3 ; goto>f::L5 ; @f::L4 ; { store &u with #1 } ; @f::L5 ; goto>f::L2 ; @f::L1 ; { store &u with #2 } ; @f::L2
while (i) switch (j) { case 1: continue; case 2: break; default: while (u) break; } => @f::L0 ; { switch { neq 32 *i #0 } '1>f::L1 else>f::L2 } ; @f::L1 ; { switch *j #1>f::L3 #2>f::L4 else>f::L5 } ; @f::L3 ; goto>f::L0 ; @f::L4 ; goto>f::L6 ; @f::L5 ; @f::L7 ; { switch { neq 32 *u #0 } '1>f::L8 else>f::L9 } ; @f::L8 ; goto>f::L9 ; goto>f::L7 ; @f::L9 ; @f::L6 ; goto>f::L0 ; @f::L2";

#[test]
fn each_way_through_is_lowered_by_the_tables(rt: HostRuntime) -> Result<(), Fail> {
    let alloc = rt.alloc();
    for table in [CONDITIONS, BRANCHES, LOOPS, SWITCHES] {
        for row in table.lines() {
            assert!(rt; is_lowered(alloc, row)?, "{row}");
        }
    }
    Ok(())
}

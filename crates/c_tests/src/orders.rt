//! What is told first.

use crate::answers::stands;
use std::test::Fail;

// Refusals that are known.
const KNOWN: &str =
    r#"int f(void); int g(void){int x=f(); return x;} int f(void){int x=g(); return x;} int main(void){int x=f(); return x;} @ cycle g f g
int main(void){return y;} @ unknown y
int f(void){return 0;} @ root main
int main(void){int a; int a; return 0;} @ twice a
int main(void){break; return 0;} @ wrong 1 16
int main(void){int *p; p=(int *)5; return 0;} @ wrong 1 26"#;

#[test]
fn refusals_that_are_known_are_told(rt: HostRuntime) -> Result<(), Fail> {
    let alloc = rt.alloc();
    for row in KNOWN.lines() {
        assert!(rt; stands(alloc, row)?, "{row}");
    }
    Ok(())
}

// Texts with two faults.
const ORDER: &str = r#"int main(void) { int x; x = y + *x; return 0; } @ unknown y
int main(void) { int x; x = *x + y; return 0; } @ wrong 1 29
int main(void) { int a[0]; y = 1; return 0; } @ wrong 1 24
int main(void) { int x; x = y; int a[0]; return 0; } @ unknown y
int f(int a); char f(int b, int b) { return 0; } int main(void) { return 0; } @ twice b
int main(void) { g(y); return 0; } @ unknown g
int f(void) { return 0; } int main(void) { f(y); return 0; } @ wrong 1 44
int f(void); int main(void) { f(y); return 0; } @ unknown f
int main(void) { int x; x(y); return 0; } @ wrong 1 25
int f(int a) { return a; } int main(void) { f(y); return 0; } @ unknown y
int main(void) { z = y; return 0; } @ unknown z
int main(void) { z += y; return 0; } @ unknown z
int main(void) { int a[2]; a[y] = z; return 0; } @ unknown y
int main(void) { int *p; (p)[p] = y; return 0; } @ wrong 1 26
int main(void) { int a; int a = y; return 0; } @ twice a
int main(void) { int a = y; int a; return 0; } @ unknown y
void v(void) { return y; } int main(void) { return 0; } @ wrong 1 16
int main(void) { if (y) x = 1; return 0; } @ unknown y
int main(void) { do x = 1; while (y); return 0; } @ unknown x
int main(void) { for (; y; x++) z = 1; return 0; } @ unknown y
int main(void) { for (; ; x++) z = 1; return 0; } @ unknown x
int main(void) { for (i = 0; y; x++) z = 1; return 0; } @ unknown i
int f(void) { int x = f(); return x; } int main(void) { return y; } @ unknown y"#;

#[test]
fn the_first_fault_in_the_text_is_told(rt: HostRuntime) -> Result<(), Fail> {
    let alloc = rt.alloc();
    for row in ORDER.lines() {
        assert!(rt; stands(alloc, row)?, "{row}");
    }
    Ok(())
}

// Recursion comes after the text, and the root after recursion.
const CYCLES: &str = r#"int main(void) { int x = main(); return x; } @ cycle main main
int f(void); int g(void) { f(); return 0; } int f(void) { g(); return 0; } int main(void) { return f(); } @ cycle g f g
int f(int n) { return f(n); } int main(void) { return f(1); } @ cycle f f
void u(void) { u(); } int main(void) { return 0; } @ cycle u u
int b(void); int c(void); int a(void) { return b(); } int b(void) { return c(); } int c(void) { return a(); } int main(void) { return 0; } @ cycle a b c a
int b(void); int a(void) { return b(); } int b(void) { int x = b(); return x; } int main(void) { return a(); } @ cycle b b
int f(void) { while (0) { switch (1) { case 1: { int x = f(); } } } return 0; } int main(void) { return 0; } @ cycle f f
int f(void) { int x; for (; 0; x = f()) ; return 0; } int main(void) { return 0; } @ cycle f f
int d(void) { return 0; } int b(void) { return d(); } int c(void) { return d(); } int main(void) { b(); c(); return d(); } @ ok
int f(void) { return 0; } @ root main
int f(void) { return 0; } int main; @ root main
int main(void); int f(void) { return 0; } @ root main
int f(void) { return f(); } @ cycle f f
int main(int a, char *p) { return *p + a; } @ ok"#;

#[test]
fn recursion_and_the_root_come_last(rt: HostRuntime) -> Result<(), Fail> {
    let alloc = rt.alloc();
    for row in CYCLES.lines() {
        assert!(rt; stands(alloc, row)?, "{row}");
    }
    Ok(())
}

// Programs with each construct.
const GOOD: &str =
    r#"static const int x = -3, y; short a[3] = {1, 2}; unsigned char c; int main(void) { x = a[1] + c; return x - y; } @ ok
int main(void) { unsigned u = 0xffffffffu; char c = '\n'; short s = 077; u = u + c * s; c = (char)u; u = (unsigned short)s; return c; } @ ok
int sum(int *p, int n) { int s = 0; for (int i = 0; i < n && !(i == 9); i++) s += p[i]; return s; } int main(void) { int a[3] = {1, 2, 3}; return sum(a, 3); } @ ok
void set(short *p, short v) { *p = v; } int main(void) { short s; short t[2]; set(&s, 1); set(t, s); set(t + 1, t[0]); set(&t[1], -1); return s; } @ ok
int max(int a, int b) { if (a > b) return a; else return b; } int main(void) { int m; m = max(1, 2); m = m >> 1 | 4 & ~m; return m % 3; } @ ok"#;

#[test]
fn programs_pass(rt: HostRuntime) -> Result<(), Fail> {
    let alloc = rt.alloc();
    for row in GOOD.lines() {
        assert!(rt; stands(alloc, row)?, "{row}");
    }
    Ok(())
}

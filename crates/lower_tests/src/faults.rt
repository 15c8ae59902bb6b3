//! Texts of C that are refused: each fault, by each command, and of two the one that is told first.

use crate::answers::{file_of, lines_of, part, told};
use std::alloc::{AllocError, Global};
use std::test::Fail;

// A text, where a dollar ends a line, and after ` @ ` the code and the line of its fault.
static TEXTS: &str = r##"int x = = 1; @ 2 fault 90 syntax 1 9;
int main(void){return 0; @ 2 fault 90 syntax 1 25;
int main(void){/* return 0;} @ 2 fault 90 syntax 1 16;
int main(void){else ;} @ 2 fault 90 syntax 1 16;
int main(void){if (1) int x;} @ 2 fault 90 syntax 1 23;
int main(void){return 1.5;} @ 2 fault 90 syntax 1 23;
int main(void){return 12ab;} @ 2 fault 90 syntax 1 23;
int main(void){return 08;} @ 2 fault 90 syntax 1 23;
int main(void){return 'ab';} @ 2 fault 90 syntax 1 23;
int main(void){return "a";} @ 2 fault 90 syntax 1 23;
int main(void)$$  {$ return @;$} @ 2 fault 90 syntax 4 9;
int main(void)$// {$ /* $ */ { return 0 } @ 2 fault 90 syntax 4 16;
int x int y; @ 2 fault 90 syntax 1 7;
int main(void){return 0;}} @ 2 fault 90 syntax 1 26;
int main(void){return 4294967296;} @ 2 fault 91 number 1 23;
int main(void){return 2147483648;} @ 2 fault 91 number 1 23;
int main(void){return 0x100000000;} @ 2 fault 91 number 1 23;
int main(void){return 4294967296u;} @ 2 fault 91 number 1 23;
int main(void){return$040000000000;} @ 2 fault 91 number 2 1;
int main(void){goto x;} @ 2 fault 92 profile 1 16 "goto";
int main(void){x = a && b;} @ 2 fault 92 profile 1 22 "&&";
int main(void){x = f() + 1;} @ 2 fault 92 profile 1 24 "+";
int main(void){x = 1 + f();} @ 2 fault 92 profile 1 25 "(";
int main(void){if (f()) ;} @ 2 fault 92 profile 1 21 "(";
int main(void){x = y++;} @ 2 fault 92 profile 1 21 "++";
int main(void){x = 1, y = 2;} @ 2 fault 92 profile 1 21 ",";
int main(void){x;} @ 2 fault 92 profile 1 17 ";";
int main(void){x = 1 (2);} @ 2 fault 92 profile 1 22 "(";
int main(void){(f)();} @ 2 fault 92 profile 1 19 "(";
int main(void){f()();} @ 2 fault 92 profile 1 19 "(";
int main(void){a[1](2);} @ 2 fault 92 profile 1 20 "(";
int main(void){x = (y)(1);} @ 2 fault 92 profile 1 23 "(";
int main(void){switch (1) {case 1 (: ;}} @ 2 fault 92 profile 1 35 "(";
int f(const void); @ 2 fault 92 profile 1 13 "void";
int f(void const); @ 2 fault 92 profile 1 12 "const";
int main(void){return 1 ? 2 : 3;} @ 2 fault 92 profile 1 25 "?";
int main(void){return sizeof(int);} @ 2 fault 92 profile 1 23 "sizeof";
int main(void){int **p;} @ 2 fault 92 profile 1 21 "*";
int *p; @ 2 fault 92 profile 1 5 "*";
int x = y; @ 2 fault 92 profile 1 9 "y";
int a[n]; @ 2 fault 92 profile 1 7 "n";
long x; @ 2 fault 92 profile 1 1 "long";
struct s { int x; }; @ 2 fault 92 profile 1 1 "struct";
typedef int t; @ 2 fault 92 profile 1 1 "typedef";
#include <x> @ 2 fault 92 profile 1 1 "#";
int main(void){int abcdefghijklmnopqrstuvwxyz123;} @ 2 fault 92 profile 1 20 "abcdefghijklmnopqrstuvwxyz123";
int main(void){static int x;} @ 2 fault 92 profile 1 16 "static";
int a[8193]; @ 2 fault 93 limit elements 8193;
int a[8000]; int f(void) { int b[193]; } @ 2 fault 93 limit elements 8193;
int main(void){return -+-+-+-+-+-1;} @ 2 fault 93 limit depth 11;
int main(void){return ((((((((((((((((((((((((((((((((((((((((((((((((((((((((((((((((( @ 2 fault 93 limit parens 65;
int main(void){{{{{{{{{{{{{{{{{{{{{{{{{{{{{{{{;}}}}}}}}}}}}}}}}}}}}}}}}}}}}}}}return 0;} @ 2 fault 93 limit nesting 33;
int main(void){{{{{{{{{{{{{{{{{{{{{{{{{{{{{{{{{ @ 2 fault 93 limit nesting 33;"##;

// Units that are read, and the first fault of their checks.
static CHECKS: &str = r#"int main(void){return y;} @ 2 fault 94 name "y";
int main(void){y = 1; return 0;} @ 2 fault 94 name "y";
int main(void){f(); return 0;} @ 2 fault 94 name "f";
int f(void); int main(void){return f();} @ 2 fault 94 name "f";
int main(void){{int y; y = 1;} return y;} @ 2 fault 94 name "y";
int main(void){return x;} int x; @ 2 fault 94 name "x";
int main(void){int a; int a; return 0;} @ 2 fault 95 duplicate "a";
int main(int a){int a; return 0;} @ 2 fault 95 duplicate "a";
int x; int x; int main(void){return 0;} @ 2 fault 95 duplicate "x";
int f(void){return 0;} int f(void){return 0;} int main(void){return 0;} @ 2 fault 95 duplicate "f";
int main; int main(void){return 0;} @ 2 fault 95 duplicate "main";
int f(int a, int a); int main(void){return 0;} @ 2 fault 95 duplicate "a";
int main(void){break; return 0;} @ 2 fault 96 type 1 16;
int main(void){if (1) continue; return 0;} @ 2 fault 96 type 1 23;
int main(void){switch (1) {case 1: ; case 1: ;} return 0;} @ 2 fault 96 type 1 38;
int main(void){switch (1u) {case -1: ; case 4294967295u: ;} return 0;} @ 2 fault 96 type 1 40;
int main(void){switch (1) {default: ; default: ;} return 0;} @ 2 fault 96 type 1 39;
int main(void){int *p; p = 0; return 0;} @ 2 fault 96 type 1 28;
int main(void){int *p; p=(int *)5; return 0;} @ 2 fault 96 type 1 26;
int main(void){int *p; char *q; p = q; return 0;} @ 2 fault 96 type 1 37;
int main(void){int a[2]; a = 1; return 0;} @ 2 fault 96 type 1 26;
int main(void){int *p; int x; x = 1 + p * 2; return 0;} @ 2 fault 96 type 1 39;
int main(void)${$ int *p;$ return !p;$} @ 2 fault 96 type 4 9;
int main(void){int a[0]; return 0;} @ 2 fault 96 type 1 22;
int a[1] = {1, 2}; int main(void){return 0;} @ 2 fault 96 type 1 16;
void main(void){return 1;} @ 2 fault 96 type 1 17;
int main(void){return;} @ 2 fault 96 type 1 16;
void v(void){} int main(void){int x = v(); return x;} @ 2 fault 96 type 1 39;
int f(int a){return a;} int main(void){return f();} @ 2 fault 96 type 1 47;
int f(int a); char f(int a); int main(void){return 0;} @ 2 fault 96 type 1 15;
int f(void); int g(void){int x=f(); return x;} int f(void){int x=g(); return x;} int main(void){int x=f(); return x;} @ 2 fault 97 recursion "g" "f" "g";
int main(void){return main();} @ 2 fault 97 recursion "main" "main";
void f(void){f();} int main(void){return 0;} @ 2 fault 97 recursion "f" "f";
int b(void); int c(void); int a(void){return b();} int b(void){return c();} int c(void){b(); return 0;} int main(void){return 0;} @ 2 fault 97 recursion "b" "c" "b";
int f(void){return 0;} @ 2 fault 98 root "main";
int main; @ 2 fault 98 root "main";
int main(void); @ 2 fault 98 root "main";
 @ 2 fault 98 root "main";
// nothing @ 2 fault 98 root "main";"#;

// Two faults, of which one is told.
static FIRST: &str = r#"int main(void){x = y; return 0 1;} @ 2 fault 90 syntax 1 32;
int main(void){x = 1; return 4294967296;} int x = = @ 2 fault 91 number 1 30;
int main(void){x = 4294967296; goto y;} @ 2 fault 91 number 1 20;
int main(void){goto y; x = 4294967296;} @ 2 fault 92 profile 1 16 "goto";
int a[8193]; long x; @ 2 fault 93 limit elements 8193;
long x; int a[8193]; @ 2 fault 92 profile 1 1 "long";
int main(void){return y;} } @ 2 fault 90 syntax 1 27;
int main(void){break; return y;} @ 2 fault 96 type 1 16;
int main(void){y = 1; break;} @ 2 fault 94 name "y";
int main(void){int a; int a; y = 1;} @ 2 fault 95 duplicate "a";
int main(void){y = 1; int a; int a;} @ 2 fault 94 name "y";
int main(void){int a; a = *a; int a;} @ 2 fault 96 type 1 27;
int main(void){int a; int a; a = *a;} @ 2 fault 95 duplicate "a";
int main(void){int x; x = y + *x; return 0;} @ 2 fault 94 name "y";
int main(void){int x; x = *x + y; return 0;} @ 2 fault 96 type 1 27;
int f(void){return f();} int main(void){return y;} @ 2 fault 94 name "y";
int f(void){return f();} int g(void){break;} @ 2 fault 96 type 1 38;
int f(void){return f();} int g; int g; @ 2 fault 95 duplicate "g";
int f(void){return f();} @ 2 fault 97 recursion "f" "f";
int f(void){return y;} @ 2 fault 94 name "y";
int f(void){return 0;} int f; @ 2 fault 95 duplicate "f";
int x; int x; long y; @ 2 fault 92 profile 1 15 "long";"#;

// What answers the words where `a.c` has the text of a row.
fn answer_of(alloc: Global, words: &str, row: &str) -> Result<String, AllocError> {
    let unit = lines_of(alloc, part(row, 0), b'$')?;
    told(alloc, words, file_of(alloc, "a.c", &unit)?)
}

#[test]
fn each_command_tells_the_same_departure(rt: HostRuntime) -> Result<(), Fail> {
    let alloc = rt.alloc();
    for row in TEXTS.lines() {
        for words in ["analyse a.c", "run a.c", "lower a.c", "print a.c"] {
            let found = answer_of(alloc, words, row)?;
            assert_eq!(rt; found.as_str(), part(row, 1), "{words} {row}");
        }
    }
    Ok(())
}

#[test]
fn each_command_but_print_tells_the_same_fault_of_the_checks(rt: HostRuntime) -> Result<(), Fail> {
    let alloc = rt.alloc();
    for row in CHECKS.lines() {
        for words in ["analyse a.c", "run a.c", "lower a.c"] {
            let found = answer_of(alloc, words, row)?;
            assert_eq!(rt; found.as_str(), part(row, 1), "{words} {row}");
        }
        let printed = answer_of(alloc, "print a.c", row)?;
        assert!(rt; printed.as_str().starts_with("0 "), "{row}");
    }
    Ok(())
}

#[test]
fn of_two_faults_the_first_is_told(rt: HostRuntime) -> Result<(), Fail> {
    let alloc = rt.alloc();
    for row in FIRST.lines() {
        for words in ["analyse a.c", "run a.c", "lower a.c"] {
            let found = answer_of(alloc, words, row)?;
            assert_eq!(rt; found.as_str(), part(row, 1), "{words} {row}");
        }
    }
    Ok(())
}

// The text as often as the count says.
fn repeated(alloc: Global, text: &str, count: usize) -> Result<Vec<u8>, AllocError> {
    let mut all = Vec::new(alloc);
    for _ in 0..count {
        all.extend_from_slice(text.as_bytes())?;
    }
    Ok(all)
}

#[test]
fn units_have_limits(rt: HostRuntime) -> Result<(), Fail> {
    let alloc = rt.alloc();
    let cases = [
        ("int f(){}", 256, "2 fault 95 duplicate \"f\";"),
        ("int f(){}", 257, "2 fault 93 limit functions 257;"),
        ("int x;", 256, "2 fault 95 duplicate \"x\";"),
        ("int x;", 257, "2 fault 93 limit frames 257;"),
        (" ", 1_048_576, "2 fault 98 root \"main\";"),
        (" ", 1_048_577, "2 fault 93 limit bytes 1048577;"),
    ];
    for (text, count, due) in cases {
        let unit = repeated(alloc, text, count)?;
        for words in ["analyse a.c", "run a.c", "lower a.c"] {
            let found = told(alloc, words, file_of(alloc, "a.c", &unit)?)?;
            assert_eq!(rt; found.as_str(), due, "{words} {text} {count}");
        }
    }
    Ok(())
}

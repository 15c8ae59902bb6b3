//! Corners of the grammar: where declarations and calls may stand, and `const` beside `void`.

use crate::answers::{field, text_of, told};
use c_text::read;
use std::test::Fail;

/// The parts of a text, as `text_of` puts them together, and what is told of it. A declaration is no
/// statement, so it may stand in a block of the last nesting; with `(` the grammar of C99 goes on after
/// every expression; and in `(void)` no `const` stands. Worked out by hand.
const ROWS: &str = r#"int f(){ ~ 31#{ ~ int x; ~ 31#} ~ } @ ok
int f(){ ~ 31#{ ~ int x=1;const short*p,a[2]={1,}; ~ 31#} ~ } @ ok
int f(){ ~ 29#{ ~ switch(1){int x;} ~ 29#} ~ } @ ok
int f(){ ~ 31#{ ~ ; ~ 31#} ~ } @ limit nesting 33
int f(){ ~ 31#{ ~ int x;; ~ 31#} ~ } @ limit nesting 33
int f(){ ~ 29#{ ~ switch(1){int x;case 1:;} ~ 29#} ~ } @ limit nesting 33
int f(){ ~ 31#if(1) ~ int x;} @ syntax 1 164
int f(){ ~ 31#{ ~ static int x; ~ 31#} ~ } @ outside 1 40 static
int f(){ ~ 31#{ ~ int x} @ syntax 1 45
int f(){ ~ 31#{ ~ else; ~ 31#} ~ } @ syntax 1 40
int f(){(f)();} @ outside 1 12 (
int f(){f()();} @ outside 1 12 (
int f(){a[1](2);} @ outside 1 13 (
int f(){x=(y)(1);} @ outside 1 14 (
int f(){x=1(;} @ outside 1 12 (
int f(){int x=1(;} @ outside 1 16 (
int f(){switch(1){case 1(:;}} @ outside 1 25 (
int f(){x++(1);} @ outside 1 12 (
int f(){return-a(1);} @ outside 1 17 (
int f(){if(a[1](2));} @ outside 1 16 (
int x=1(; @ outside 1 8 (
int a[2(]; @ outside 1 8 (
int a[1]={1(}; @ outside 1 12 (
int f(){x=(int){1};} @ syntax 1 16
int f(const void); @ outside 1 13 void
int f(const const void){} @ outside 1 19 void
int f(void const){} @ outside 1 12 const
int f(void const*p){} @ outside 1 12 const
int f(const); @ syntax 1 12
int f(const int x,char const*const y); @ ok
const void f(void); @ ok
void const f(); @ ok
int f(int static x){} @ outside 1 11 static"#;

#[test]
fn corners_are_told_as_they_are_due(rt: HostRuntime) -> Result<(), Fail> {
    let alloc = rt.alloc();
    for row in ROWS.lines() {
        let text = text_of(alloc, field(row, 0))?;
        let found = told(alloc, &read(alloc, text.as_bytes()))?;
        assert_eq!(rt; found.as_slice(), field(row, 1).as_bytes(), "{row}");
    }
    Ok(())
}

//! Texts at limits and past them, and texts that are long or deep.

use crate::answers::{field, push_times, text_of, told};
use c_text::{CTextFault, read};
use std::alloc::{AllocError, Global};
use std::test::Fail;

/// The parts of a text, as `text_of` puts them together, and what is told of it. Counted by hand.
const ROWS: &str = r#"int f(){x= ~ 10#-  ~ 1;} @ ok
int f(){x= ~ 11#-  ~ 1;} @ limit depth 11
int f(){x= ~ 10#~ ~ 1;} @ ok
int f(){x= ~ 11#+  ~ 1;} @ limit depth 11
int f(){x= ~ 11#! ~ 1;} @ limit depth 11
int f(){x= ~ 10#* ~ p;} @ ok
int f(){x= ~ 11#* ~ p;} @ limit depth 11
int f(){x= ~ 10#&  ~ p;} @ ok
int f(){x= ~ 11#&  ~ p;} @ limit depth 11
int f(){x= ~ 10#(int) ~ 1;} @ ok
int f(){x= ~ 11#(int) ~ 1;} @ limit depth 11
int f(){x= ~ 11#(char*) ~ p;} @ limit depth 11
int f(){x=1 ~ 10#+1 ~ ;} @ ok
int f(){x=1 ~ 11#+1 ~ ;} @ limit depth 11
int f(){x=1 ~ 11#*1 ~ ;} @ limit depth 11
int f(){x=1 ~ 11#<<1 ~ ;} @ limit depth 11
int f(){x=1 ~ 11#<1 ~ ;} @ limit depth 11
int f(){x=1 ~ 11#==1 ~ ;} @ limit depth 11
int f(){x=1 ~ 11#&1 ~ ;} @ limit depth 11
int f(){x=1 ~ 11#^1 ~ ;} @ limit depth 11
int f(){x=1 ~ 11#|1 ~ ;} @ limit depth 11
int f(){x= ~ 10#1-( ~ 1 ~ 10#) ~ ;} @ ok
int f(){x= ~ 11#1-( ~ 1 ~ 11#) ~ ;} @ limit depth 11
int f(){x= ~ 10#a[ ~ 1 ~ 10#] ~ ;} @ ok
int f(){x= ~ 11#a[ ~ 1 ~ 11#] ~ ;} @ limit depth 11
int f(){x=a ~ 10#[1] ~ ;} @ ok
int f(){x=a ~ 11#[1] ~ ;} @ limit depth 11
int f(){ ~ 10#a[ ~ 1 ~ 10#] ~ =1;} @ ok
int f(){ ~ 11#a[ ~ 1 ~ 11#] ~ =1;} @ limit depth 11
int f(){ ~ 10#* ~ p=1;} @ ok
int f(){ ~ 11#* ~ p=1;} @ limit depth 11
int f(){if(1 ~ 10#&&1 ~ );} @ ok
int f(){if(1 ~ 11#&&1 ~ );} @ limit depth 11
int f(){if(1 ~ 11#||1 ~ );} @ limit depth 11
int f(){if( ~ 10#! ~ 1);} @ ok
int f(){if( ~ 11#! ~ 1);} @ limit depth 11
int f(){if( ~ 5#!( ~ 1 ~ 5#&&1) ~ );} @ ok
int f(){if( ~ 5#!( ~ 1+1 ~ 5#&&1) ~ );} @ limit depth 11
int f(){x=1+1*1+ ~ 8#-  ~ 1;} @ ok
int f(){x=1+1*1+ ~ 9#-  ~ 1;} @ ok
int f(){x=1+1*1+ ~ 10#-  ~ 1;} @ limit depth 11
int f(){x= ~ 9#-  ~ a[1];} @ ok
int f(){x= ~ 10#-  ~ a[1];} @ limit depth 11
int f(){x= ~ 9#-  ~ (1+1);} @ ok
int f(){x= ~ 10#-  ~ (1+1);} @ limit depth 11
int f(){x= ~ 10#-( ~ 1 ~ 10#) ~ ;} @ ok
int f(){x=g( ~ 10#-  ~ 1, ~ 10#-  ~ 1);} @ ok
int f(){x=g( ~ 11#-  ~ 1);} @ limit depth 11
int f(){g( ~ 11#-  ~ 1);} @ limit depth 11
int f(){x+= ~ 10#-  ~ 1;} @ ok
int f(){x+= ~ 11#-  ~ 1;} @ limit depth 11
int f(){++ ~ 10#* ~ p;} @ ok
int f(){++ ~ 11#* ~ p;} @ limit depth 11
int f(){( ~ 10#* ~ p)++;} @ ok
int f(){return  ~ 11#-  ~ 1;} @ limit depth 11
int f(){int x= ~ 10#-  ~ 1;} @ ok
int f(){int x= ~ 11#-  ~ 1;} @ limit depth 11
int f(){while( ~ 11#-  ~ 1);} @ limit depth 11
int f(){do;while( ~ 11#-  ~ 1);} @ limit depth 11
int f(){for(;; ~ 1#x= ~ 11#-  ~ 1);} @ limit depth 11
int f(){for(; ~ 11#-  ~ 1;);} @ limit depth 11
int f(){switch( ~ 11#-  ~ 1){}} @ limit depth 11
int f(){x= ~ 64#( ~ 1 ~ 64#) ~ ;} @ ok
int f(){x= ~ 65#( ~ 1 ~ 65#) ~ ;} @ limit parens 65
int f(){x= ~ 64#( ~ 1+(1) ~ 64#) ~ ;} @ limit parens 65
int f(){x= ~ 63#( ~ 1+(1) ~ 63#) ~ ;} @ ok
int f(){x= ~ 64#( ~ (int)1 ~ 64#) ~ ;} @ limit parens 65
int f(){x= ~ 63#( ~ (int)1 ~ 63#) ~ ;} @ ok
int f(){x= ~ 64#( ~ a[1] ~ 64#) ~ ;} @ ok
int f(){x=g( ~ 63#( ~ 1 ~ 63#) ~ );} @ ok
int f(){x=g( ~ 64#( ~ 1 ~ 64#) ~ );} @ limit parens 65
int f(){g(1, ~ 63#( ~ 1 ~ 63#) ~ );} @ ok
int f(){g(1, ~ 64#( ~ 1 ~ 64#) ~ );} @ limit parens 65
int f(){ ~ 64#( ~ a ~ 64#) ~ =1;} @ ok
int f(){ ~ 65#( ~ a ~ 65#) ~ =1;} @ limit parens 65
int f(){++ ~ 64#( ~ a ~ 64#) ~ ;} @ ok
int f(){++ ~ 65#( ~ a ~ 65#) ~ ;} @ limit parens 65
int f(){x+= ~ 64#( ~ 1 ~ 64#) ~ ;} @ ok
int f(){x+= ~ 65#( ~ 1 ~ 65#) ~ ;} @ limit parens 65
int f(){int x= ~ 64#( ~ 1 ~ 64#) ~ ;} @ ok
int f(){int x= ~ 65#( ~ 1 ~ 65#) ~ ;} @ limit parens 65
int f(){return ~ 64#( ~ 1 ~ 64#) ~ ;} @ ok
int f(){return ~ 65#( ~ 1 ~ 65#) ~ ;} @ limit parens 65
int f(){if( ~ 63#( ~ 1 ~ 63#) ~ );} @ ok
int f(){if( ~ 64#( ~ 1 ~ 64#) ~ );} @ limit parens 65
int f(){while( ~ 63#( ~ 1&&1 ~ 63#) ~ );} @ ok
int f(){while( ~ 64#( ~ 1 ~ 64#) ~ );} @ limit parens 65
int f(){do;while( ~ 63#( ~ 1 ~ 63#) ~ );} @ ok
int f(){do;while( ~ 64#( ~ 1 ~ 64#) ~ );} @ limit parens 65
int f(){switch( ~ 63#( ~ 1 ~ 63#) ~ ){}} @ ok
int f(){switch( ~ 64#( ~ 1 ~ 64#) ~ ){}} @ limit parens 65
int f(){for(x= ~ 63#( ~ 1 ~ 63#) ~ ;;);} @ ok
int f(){for(x= ~ 64#( ~ 1 ~ 64#) ~ ;;);} @ limit parens 65
int f(){for(; ~ 63#( ~ 1 ~ 63#) ~ ;);} @ ok
int f(){for(; ~ 64#( ~ 1 ~ 64#) ~ ;);} @ limit parens 65
int f(){for(;;g( ~ 62#( ~ 1 ~ 62#) ~ ));} @ ok
int f(){for(;;g( ~ 63#( ~ 1 ~ 63#) ~ ));} @ limit parens 65
int f(){ ~ 31#{ ~ 31#} ~ } @ ok
int f(){ ~ 31#{ ~ ; ~ 31#} ~ } @ limit nesting 33
int f(){ ~ 32#{ ~ 32#} ~ } @ limit nesting 33
int f(){ ~ 31#{ ~ int x; ~ 31#} ~ } @ ok
int f(){ ~ 30#{ ~ int x; ~ 30#} ~ } @ ok
int f(){ ~ 30#if(1) ~ ;} @ ok
int f(){ ~ 31#if(1) ~ ;} @ limit nesting 33
int f(){ ~ 30#while(1) ~ ;} @ ok
int f(){ ~ 31#while(1) ~ ;} @ limit nesting 33
int f(){ ~ 30#for(;;) ~ ;} @ ok
int f(){ ~ 31#for(;;) ~ ;} @ limit nesting 33
int f(){ ~ 30#do  ~ ; ~ 30#while(1); ~ } @ ok
int f(){ ~ 31#do  ~ ; ~ 31#while(1); ~ } @ limit nesting 33
int f(){ ~ 30#if(1);else  ~ ;} @ ok
int f(){ ~ 31#if(1);else  ~ ;} @ limit nesting 33
int f(){ ~ 15#switch(1){ ~ ; ~ 15#} ~ } @ ok
int f(){ ~ 15#switch(1){ ~ {} ~ 15#} ~ } @ ok
int f(){ ~ 15#switch(1){ ~ {;} ~ 15#} ~ } @ limit nesting 33
int f(){ ~ 15#switch(1){ ~ switch(1){} ~ 15#} ~ } @ limit nesting 33
int f(){ ~ 30#{ ~ switch(1){} ~ 30#} ~ } @ limit nesting 33
int f(){ ~ 29#{ ~ switch(1){} ~ 29#} ~ } @ ok
int f(){ ~ 29#{ ~ switch(1){case 1:} ~ 29#} ~ } @ limit nesting 33
int f(){ ~ 31#{ ~ 31#} ~ 31#{ ~ 31#} ~ } @ ok
256#int f(){} @ ok
257#int f(){} @ limit functions 257
257#int f(); @ ok
256#int f(){} ~ int f(int a){} @ limit functions 257
256#int x; @ ok
257#int x; @ limit frames 257
255#int x; ~ int y[3]; @ ok
256#int x; ~ int y[3]; @ limit frames 257
int x ~ 255#,x ~ ; @ ok
int x ~ 256#,x ~ ; @ limit frames 257
255#int x; ~ int f(int a){} @ ok
256#int x; ~ int f(int a); @ ok
256#int x; ~ int f(int a){} @ limit frames 257
254#int x; ~ int f(int a,int b){} @ ok
255#int x; ~ int f(int a,int b){} @ limit frames 257
int f(){ ~ 256#int x; ~ } @ ok
int f(){ ~ 257#int x; ~ } @ limit frames 257
int f(){ ~ 257#int *p; ~ } @ limit frames 257
int f(){ ~ 257#int p[1]; ~ } @ limit frames 257
int f(){ ~ 256#f(); ~ } @ ok
int f(){ ~ 257#f(); ~ } @ limit frames 257
void f(){ ~ 257#f(); ~ } @ ok
int g(){ ~ 257#f(); ~ } @ ok
int f();void f();int g(){ ~ 257#f(); ~ } @ ok
void f();int f();int g(){ ~ 257#f(); ~ } @ limit frames 257
int f(),g();int h(){ ~ 257#x=f(); ~ } @ limit frames 257
int g(){ ~ 257#f(); ~ }int f();int h(){ ~ 256#f(); ~ } @ ok
int f(){ ~ 128#int x=f(); ~ } @ ok
int f(){ ~ 129#int x=f(); ~ } @ limit frames 257
int f(){ ~ 100#for(f();;f()) ~ ;} @ limit nesting 33
int f(){ ~ 128#for(f();;f()); ~ } @ ok
int f(){ ~ 129#for(f();;f()); ~ } @ limit frames 257
int f(){ ~ 257#return f(); ~ } @ limit frames 257
int a[8192]; @ ok
int a[8193]; @ limit elements 8193
int a[4294967295u]; @ limit elements 8193
int a[8191];char b[1]; @ ok
int a[8191],b[2]; @ limit elements 8193
int a[8000];int f(){int b[192];} @ ok
int a[8000];int f(){int b[193];} @ limit elements 8193
int f(){for(int a[8193];;);} @ limit elements 8193
int a[0];int b[8192]; @ ok
int a['a'];int b[8095]; @ ok
int a['a'];int b[8096]; @ limit elements 8193
int f(){x= ~ 100000#( @ limit parens 65
int f(){x= ~ 100000#-  @ limit depth 11
int f(){x= ~ 100000#(int) @ limit depth 11
int f(){x= ~ 100000#a[ @ limit depth 11
int f(){x=1 ~ 100000#+1 @ limit depth 11
int f(){x=a ~ 100000#[1] @ limit depth 11
int f(){if ~ 100000#( @ limit parens 65
int f(){if( ~ 100000#! @ limit depth 11
int f() ~ 100000#{ @ limit nesting 33
int f(){ ~ 100000#if(1) @ limit nesting 33
int f(){ ~ 100000#if(1);else  @ limit nesting 33
int f(){ ~ 100000#do{ @ limit nesting 33
int f(){ ~ 100000#switch(1){ @ limit nesting 33
int f(){ ~ 100000#; ~ } @ ok
int f(){ ~ 100000#{} ~ } @ ok
int f(){ ~ 100000#x=1; ~ } @ ok
int f(){ ~ 100000#if(1);else; ~ } @ ok
int f(){switch(1){ ~ 100000#case 1: ~ ;}} @ ok
void f(){f(1 ~ 100000#,1 ~ );} @ ok
int a[1]={1 ~ 100000#,1 ~ }; @ ok
int f(int ~ 100000#,int ~ ); @ ok
int f() ~ 100000#,f() ~ ; @ ok
100000#( @ syntax 1 1
100000#{ @ syntax 1 1
100000#const  @ syntax 1 600001
100000#const  ~ int x; @ ok"#;

#[test]
fn limits_are_told_where_they_are_passed(rt: HostRuntime) -> Result<(), Fail> {
    let alloc = rt.alloc();
    for row in ROWS.lines() {
        let text = text_of(alloc, field(row, 0))?;
        let found = told(alloc, &read(alloc, text.as_bytes()))?;
        assert_eq!(rt; found.as_slice(), field(row, 1).as_bytes(), "{row}");
    }
    Ok(())
}

// Texts before and after a name, with the column of the name, where a name of 28 bytes fits.
const NAMES: &str = r#"int  @ ; @ 5
int  @ (){} @ 5
int f(int  @ ); @ 11
int f(){int  @ ;} @ 13
int f(){int* @ ;} @ 13
int f(){ @ =1;} @ 9
int f(){x= @ ;} @ 11
int f(){x=1+ @ ;} @ 13
int f(){ @ (1);} @ 9
int f(){return  @ ;} @ 16"#;

fn with_name(alloc: Global, row: &str, byte: &str, count: usize) -> Result<String, AllocError> {
    let mut text = String::from_str(alloc, field(row, 0))?;
    push_times(&mut text, byte, count)?;
    text.push_str(field(row, 1))?;
    Ok(text)
}

#[test]
fn a_long_name_is_told_whole(rt: HostRuntime) -> Result<(), Fail> {
    let alloc = rt.alloc();
    for row in NAMES.lines() {
        let short = with_name(alloc, row, "n", 28)?;
        assert!(rt; read(alloc, short.as_bytes()).is_ok(), "{row}");
        for count in [29, 100_000] {
            let text = with_name(alloc, row, "n", count)?;
            let mut name = String::new(alloc);
            push_times(&mut name, "n", count)?;
            let Err(CTextFault::OutOfProfile(place, word)) = read(alloc, text.as_bytes()) else {
                panic!(rt; "{row} {count}");
            };
            let column = format!(in alloc; "{}", place.column)?;
            assert_eq!(rt; column.as_str(), field(row, 2), "{row} {count}");
            assert_eq!(rt; word.bytes(), name.as_bytes(), "{row} {count}");
        }
    }
    Ok(())
}

// What stands after 6,000 declarations of functions that give a value, before 257 calls of the last of
// them, and what is told.
const AGAIN: &str = r#" @ limit frames 257
void n5999(); @ ok
void n0(); @ limit frames 257
void n5999();int n5999(); @ limit frames 257
int n5999();void n5999(); @ ok"#;

// A declaration of each of 6,000 functions, where the word says what it gives.
fn declared(alloc: Global, word: &str) -> Result<String, AllocError> {
    let mut text = String::new(alloc);
    for number in 0..6_000 {
        let one = format!(in alloc; "{word} n{number}();")?;
        text.push_str(one.as_str())?;
    }
    Ok(text)
}

#[test]
fn the_latest_of_6000_declarations_is_found(rt: HostRuntime) -> Result<(), Fail> {
    let alloc = rt.alloc();
    for row in AGAIN.lines() {
        let mut text = declared(alloc, "int")?;
        text.push_str(field(row, 0))?;
        text.push_str("int f(){")?;
        push_times(&mut text, "n5999();", 257)?;
        text.push_str("}")?;
        let found = told(alloc, &read(alloc, text.as_bytes()))?;
        assert_eq!(rt; found.as_slice(), field(row, 1).as_bytes(), "{row}");
    }
    Ok(())
}

#[test]
fn each_of_6000_functions_is_called(rt: HostRuntime) -> Result<(), Fail> {
    let alloc = rt.alloc();
    let mut text = declared(alloc, "void")?;
    text.push_str("int f(){")?;
    for number in 0..6_000 {
        let call = format!(in alloc; "n{number}();")?;
        text.push_str(call.as_str())?;
    }
    text.push_str("}")?;
    let found = told(alloc, &read(alloc, text.as_bytes()))?;
    assert_eq!(rt; found.as_slice(), b"ok".as_slice());
    Ok(())
}

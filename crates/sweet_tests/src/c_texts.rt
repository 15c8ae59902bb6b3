//! Texts of C, as `print` tells them.

use crate::tables::hold;
use std::test::Fail;

// A text, and the code and what is told, with `;` in place of the line feed at the end. What is due was worked out
// by hand.
const TEXTS: &str = r#"print a.c
a.c raw $0

int main(void){return 0x10;} => 0 int main ( void ) { return 0x10 ; };
int main(void){return 4294967296;} => 2 fault 91 number 1 23;
int main(void){goto x;} => 2 fault 92 profile 1 16 "goto";
int main(void){int *p; p=(int *)5; return 0;} => 0 int main ( void ) { int * p ; p = ( int * ) 5 ; return 0 ; };
 => 0 ;
/* nothing */ // at all => 0 ;
int x;/**/int y; => 0 int x ; int y ;;
char c='a',d=' ';short s[2]={- 1,'\'',}; => 0 char c = 'a' , d = ' ' ; short s [ 2 ] = { - 1 , '\'' , } ;;
int f(int a){a<<=2;a++;return(a)+ +a;} => 0 int f ( int a ) { a <<= 2 ; a ++ ; return ( a ) + + a ; };
int x = ; => 2 fault 90 syntax 1 9;
int x => 2 fault 90 syntax 1 6;
int x; } => 2 fault 90 syntax 1 8;
int x; /* y => 2 fault 90 syntax 1 8;
int x = 2147483648; => 2 fault 91 number 1 9;
2147483648 => 2 fault 91 number 1 1;
int x = sizeof(int); => 2 fault 92 profile 1 9 "sizeof";
long x; => 2 fault 92 profile 1 1 "long";
int abcdefghijklmnopqrstuvwxyz123; => 2 fault 92 profile 1 5 "abcdefghijklmnopqrstuvwxyz123";
int f(){return 1+f();} => 2 fault 92 profile 1 19 "(";
int f(){return (int)'"' ? 1 : 0;} => 2 fault 92 profile 1 25 "?";
int x = 'ab'; => 2 fault 90 syntax 1 9;
int a[8192]; int b[1]; => 2 fault 93 limit elements 8193;
int f(){return -+-+-+-+-+-1;} => 2 fault 93 limit depth 11;
int f(){return ((((((((((((((((((((((((((((((((((((((((((((((((((((((((((((((((( => 2 fault 93 limit parens 65;
int f(){{{{{{{{{{{{{{{{{{{{{{{{{{{{{{{{{{{{{{{ => 2 fault 93 limit nesting 33;"#;

#[test]
fn texts_of_c_are_printed_or_refused(rt: HostRuntime) -> Result<(), Fail> {
    hold(rt.alloc(), TEXTS)
}

// What stands in a unit, and how often; and how many spaces.
const LIMITS: &str = r#"print a.c
a.c times $1 $0

int f(){} | 257 => 2 fault 93 limit functions 257;
int f(){} | 256 => 0 ..
int x; | 257 => 2 fault 93 limit frames 257;
int x; | 256 => 0 ..


print a.c
a.c fill $0 space

1048576 => 0 ;
1048577 => 2 fault 93 limit bytes 1048577;"#;

#[test]
fn functions_frames_and_bytes_have_limits(rt: HostRuntime) -> Result<(), Fail> {
    hold(rt.alloc(), LIMITS)
}

// Words and the name of the file, which is a unit of C.
const NAMES: &str = r#"$0
$1 raw int x;

print .c | .c => 0 ..
print -- -.c | -.c => 0 ..
print a.c.alf | a.c.alf => 2 ..
print a.C | a.C => 2 ..
print c | c => 2 ..
analyse a.c | a.c => 2 ..
analyse a.C | a.C => 2 ..
run a.c | a.c => 2 ..
lower a.c | a.c => 2 ..
lower a.C | a.C => 1 .."#;

#[test]
fn the_name_of_a_file_tells_its_language(rt: HostRuntime) -> Result<(), Fail> {
    hold(rt.alloc(), NAMES)
}

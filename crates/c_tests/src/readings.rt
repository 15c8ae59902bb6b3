//! Texts, and what is read of them.

use crate::answers::{field, printed, told};
use c_text::read;
use std::test::Fail;

/// A text in each line, and after ` @ ` what is told of it. Worked out by hand from C99 and the profile.
const ROWS: &str = r#"int f ( void ) { return 0 ; } @ ok
 @ ok
int x ; int y = - 3 ; short a [ 3 ] = { 1 , 2 , } ; @ ok
static const unsigned char c = 'a' , d ; @ ok
int f ( int , short * p , char x [ ] ) ; @ ok
int f ( ) { int i , * p , a [ 2 ] ; p = a ; p ++ ; -- i ; a [ 0 ] += 1 ; return * p ; } @ ok
int f ( int n ) { for ( int i = 0 ; i < n && ! ( n == 3 ) ; i ++ ) { if ( n ) continue ; else break ; } } @ ok
void g ( int n ) { switch ( n ) { case 1 : case - 2 : g ( 1 ) ; break ; default : ; } do { } while ( n ) ; } @ ok
int f ( int * p ) { return * ( short * ) p + ( int ) 1 ; } @ ok
int f ( ) { x = f ( ) + 1 ; } @ outside 1 23 +
int f ( ) { x = 1 + f ( ) ; } @ outside 1 23 (
int f ( ) { if ( f ( ) ) ; } @ outside 1 20 (
int f ( ) { x = a && b ; } @ outside 1 19 &&
int f ( ) { x = y ++ ; } @ outside 1 19 ++
int f ( ) { x ; } @ outside 1 15 ;
int * p ; @ outside 1 5 *
int x = y ; @ outside 1 9 y
int a [ n ] ; @ outside 1 9 n
int f ( ) { x = = 1 ; } @ syntax 1 17
int x y ; @ syntax 1 7
int f ( ) { else ; } @ syntax 1 13
int f ( ) { if ( 1 ) int x ; } @ syntax 1 22
int f ( ) { x : ; } @ syntax 1 15
int f ( ) { goto x ; } @ outside 1 13 goto
int f ( ) { return sizeof x ; } @ outside 1 20 sizeof
int f ( ) { return x ? 1 : 2 ; } @ outside 1 22 ?
int x = 2147483648 ; @ number 1 9
int x = 0xffffffff ; @ ok
int x = 0x100000000 ; @ number 1 9
int x = 08 ; @ syntax 1 9
int x = "a" ; @ syntax 1 9
int f ( ) { return 0 ; @ syntax 1 23
int f ( int ) { } @ outside 1 15 {
int a [ ] = { 1 } ; @ outside 1 9 ]
int a [ 1 ] = { } ; @ syntax 1 17
int abcdefghijklmnopqrstuvwxyz12 ; @ ok
int abcdefghijklmnopqrstuvwxyz123 ; @ outside 1 5 abcdefghijklmnopqrstuvwxyz123
int a [ 8192 ] ; @ ok
int a [ 8193 ] ; @ limit elements 8193
int f ( ) { return - - - - - - - - - - 1 ; } @ ok
int f ( ) { return - - - - - - - - - - - 1 ; } @ limit depth 11
int f ( ) { /* c */ x = 1 ; // d @ syntax 1 33
int f ( ) { return ((((((((((((((((((((((((((((((((((((((((((((((((((((((((((((((((1)))))))))))))))))))))))))))))))))))))))))))))))))))))))))))))))) ; } @ ok
int f ( ) { return (((((((((((((((((((((((((((((((((((((((((((((((((((((((((((((((((1))))))))))))))))))))))))))))))))))))))))))))))))))))))))))))))))) ; } @ limit parens 65
int f ( ) { {{{{{{{{{{{{{{{{{{{{{{{{{{{{{{{}}}}}}}}}}}}}}}}}}}}}}}}}}}}}}} } @ ok
int f ( ) { {{{{{{{{{{{{{{{{{{{{{{{{{{{{{{{;}}}}}}}}}}}}}}}}}}}}}}}}}}}}}}} } @ limit nesting 33"#;

/// More of them, without white space where none is needed: what stands where it may not, what is left out,
/// each declarator and each statement.
const FORMS: &str = r#"int f(){x=f()+1;} @ outside 1 14 +
int f(){x=1+f();} @ outside 1 14 (
int f(){if(f());} @ outside 1 13 (
int f(){x=a&&b;} @ outside 1 12 &&
int f(){x=a||b;} @ outside 1 12 ||
int f(){x=y++;} @ outside 1 12 ++
int f(){x=--y;} @ outside 1 11 --
int f(){x;} @ outside 1 10 ;
int f(){f;} @ outside 1 10 ;
int f(){x=y=1;} @ outside 1 12 =
int f(){x=y+=1;} @ outside 1 12 +=
int f(){x=1,y=2;} @ outside 1 12 ,
int *p; @ outside 1 5 *
int *f(){} @ outside 1 5 *
void *f(); @ outside 1 6 *
void x; @ outside 1 7 ;
int x=y; @ outside 1 7 y
int x=1+1; @ outside 1 8 +
int x=-y; @ outside 1 8 y
int x=--1; @ outside 1 7 --
int x=(1); @ outside 1 7 (
int x={1}; @ outside 1 7 {
int a[n]; @ outside 1 7 n
int a[-1]; @ outside 1 7 -
int a[1+1]; @ outside 1 8 +
int a[2][2]; @ outside 1 9 [
int a[2]={1+1}; @ outside 1 12 +
int a[2]={{1}}; @ outside 1 11 {
int a[2]={x}; @ outside 1 11 x
int a[2]=1; @ outside 1 10 1
int a[]={1}; @ outside 1 7 ]
int a[1]={}; @ syntax 1 11
int a[1]={,}; @ syntax 1 11
int a[1]={[0]=1}; @ syntax 1 11
int a[1]={.a=1}; @ outside 1 11 .
int a[1]={1,,}; @ syntax 1 13
int f(){int a[2]={x};} @ outside 1 19 x
int f(){int a[]={1};} @ outside 1 15 ]
int f(){int*a[2];} @ outside 1 14 [
int f(){int**p;} @ outside 1 13 *
int f(){int*p();} @ outside 1 14 (
int f(){int g();} @ outside 1 14 (
int f(){int x={1};} @ outside 1 15 {
int f(){int x=1,y=x,*p=&x;} @ ok
int f(){int x=f()+1;} @ outside 1 18 +
int f(){int x=g(),y=2;} @ ok
int f(){static int x;} @ outside 1 9 static
int f(){int static x;} @ outside 1 13 static
int f(){void x;} @ outside 1 9 void
int f(){const x;} @ syntax 1 15
int f(){const int const x;} @ ok
int f(int x[3]){} @ outside 1 13 3
int f(int x[]){} @ ok
int f(int[],int*,int*x){} @ outside 1 24 {
int f(int[],int*,int*x); @ ok
int f(int*const const x,short const*y){} @ ok
int f(int**x){} @ outside 1 11 *
int f(int*x[]){} @ outside 1 12 [
int f(int x()){} @ outside 1 12 (
int f(int){} @ outside 1 11 {
int f(int x,int){} @ outside 1 17 {
int f(void){} @ ok
int f(const void){} @ outside 1 13 void
int f(void x){} @ outside 1 12 x
int f(void*x){} @ outside 1 11 *
int f(int x,void){} @ outside 1 13 void
int f(void,int x){} @ outside 1 11 ,
int f(static int x){} @ outside 1 7 static
int f(x){} @ syntax 1 7
int f(,){} @ syntax 1 7
int f(int x,){} @ syntax 1 13
int f(int x){}; @ syntax 1 15
int f(),g(int),x,y[2]; @ ok
int f(),g(){} @ syntax 1 12
int x,f(){} @ syntax 1 10
void f(),g(void); @ ok
void f(),x; @ outside 1 11 ;
int f()=1; @ syntax 1 8
f(){} @ syntax 1 1
x; @ syntax 1 1
int; @ syntax 1 4
; @ syntax 1 1
int x @ syntax 1 6
int x y; @ syntax 1 7
int x,; @ syntax 1 7
int f @ syntax 1 6
int f( @ syntax 1 7
int f() @ syntax 1 8
int f(){ @ syntax 1 9
int f(){int @ syntax 1 12
} @ syntax 1 1
int int x; @ syntax 1 5
char int x; @ syntax 1 6
short char x; @ syntax 1 7
signed unsigned x; @ syntax 1 8
unsigned unsigned x; @ syntax 1 10
void int x; @ syntax 1 6
int void f(); @ syntax 1 5
unsigned void f(); @ syntax 1 10
static static int x; @ syntax 1 8
static int static x; @ syntax 1 12
static const short unsigned const int x; @ ok
int unsigned static short x; @ ok
char signed x;signed y;unsigned const z;short int w; @ ok
unsigned char x;char unsigned y;int signed short z; @ ok
const void static f(); @ ok
long x; @ outside 1 1 long
int long x; @ outside 1 5 long
float x; @ outside 1 1 float
struct s x; @ outside 1 1 struct
typedef int t; @ outside 1 1 typedef
extern int x; @ outside 1 1 extern
volatile int x; @ outside 1 1 volatile
inline int f(){} @ outside 1 1 inline
_Bool x; @ outside 1 1 _Bool
int f(){goto x;} @ outside 1 9 goto
int f(){x:x=1;} @ syntax 1 10
int f(){x=sizeof x;} @ outside 1 11 sizeof
int f(){x=a?1:2;} @ outside 1 12 ?
int f(){x=a.b;} @ outside 1 12 .
int f(){x=a->b;} @ outside 1 12 ->
int f(int x,...){} @ outside 1 13 ...
#define x @ outside 1 1 #
int x ## y; @ outside 1 7 ##
int a<:2:>; @ outside 1 6 <:
int f()<%%> @ outside 1 8 <%
%:define x @ outside 1 1 %:
int x %:%: y; @ outside 1 7 %:%:
int f(){x==1;} @ outside 1 10 ==
int f(){x= =1;} @ syntax 1 12
int f(){a+b=1;} @ outside 1 10 +
int f(){(a+b)=1;} @ ok
int f(){-a=1;} @ ok
int f(){-a++;} @ outside 1 11 ++
int f(){++a++;} @ outside 1 12 ++
int f(){(-a)++;--a[1];++-a;} @ ok
int f(){++a=1;} @ outside 1 12 =
int f(){a++=1;} @ outside 1 12 =
int f(){(int)a=1;} @ outside 1 10 int
int f(){((int)a)=1;} @ ok
int f(){++(int)a;} @ syntax 1 12
int f(){5=3;*p=1;a[1][2]=3;!x=1;} @ ok
int f(){f()=1;} @ outside 1 12 =
int f(){f()();} @ outside 1 12 (
int f(){f(1)[2]=1;} @ outside 1 13 [
int f(){(f)();} @ outside 1 12 (
int f(){f(,1);} @ syntax 1 11
int f(){f(1,);} @ syntax 1 13
int f(){f(g());} @ outside 1 12 (
int f(){f(a=1);} @ outside 1 12 =
int f(){f(a&&b);} @ outside 1 12 &&
int f(){f((a,b));} @ outside 1 13 ,
int f(){x=a[f()];} @ outside 1 14 (
int f(){x=a[b=1];} @ outside 1 14 =
int f(){x=a[];} @ syntax 1 13
int f(){x=(int)1;x=(short*)p;x=(const unsigned char)-1;} @ ok
int f(){x=(char*const)p;} @ ok
int f(){x=(int**)p;} @ outside 1 16 *
int f(){x=(int[2])p;} @ outside 1 15 [
int f(){x=(void)p;} @ outside 1 12 void
int f(){x=(void*)p;} @ outside 1 12 void
int f(){x=(static int)p;} @ syntax 1 12
int f(){x=(int)f();} @ outside 1 17 (
int f(){x=();} @ syntax 1 12
int f(){x=(1;} @ syntax 1 13
int f(){if(a=1);} @ outside 1 13 =
int f(){if(a&&b||!c&&!(d||e));} @ ok
int f(){if((a&&b)+1);} @ outside 1 18 +
int f(){if(-(a&&b));} @ outside 1 15 &&
int f(){if(a+(b&&c));} @ outside 1 16 &&
int f(){if((a&&b)[1]);} @ outside 1 18 [
int f(){if(!(a&&b)==1);} @ outside 1 19 ==
int f(){if(a&&b==c);} @ ok
int f(){if(1==a&&b);} @ ok
int f(){switch(a&&b){}} @ outside 1 17 &&
int f(){return a||b;} @ outside 1 17 ||
int f(){return f()+1;} @ outside 1 19 +
int f(){return f();} @ ok
int f(){return (f());} @ outside 1 18 (
int f(){return a=1;} @ outside 1 17 =
int f(){return a,b;} @ outside 1 17 ,
int f(){return;} @ ok
int f(){if()x=1;} @ syntax 1 12
int f(){if(1)int x;} @ syntax 1 14
int f(){if(1)} @ syntax 1 14
int f(){else;} @ syntax 1 9
int f(){if(1);else;else;} @ syntax 1 20
int f(){if(1)if(2);else;else;} @ ok
int f(){while(1)int x;} @ syntax 1 17
int f(){do;} @ syntax 1 12
int f(){do;while(1)} @ syntax 1 20
int f(){do x=1;while(x<3);} @ ok
int f(){for(;;)} @ syntax 1 16
int f(){for(;)} @ syntax 1 14
int f(){for(int i=0,j=1;i<j;i++)continue;} @ ok
int f(){for(i=0,j=0;;);} @ outside 1 16 ,
int f(){for(i;;);} @ outside 1 14 ;
int f(){for(;;i);} @ outside 1 16 )
int f(){for(;i=1;);} @ outside 1 15 =
int f(){for(f();f();f());} @ outside 1 18 (
int f(){for(f();1;f());} @ ok
int f(){for(static int i;;);} @ outside 1 13 static
int f(){for(i=0;i<3;i=i+1)f();} @ ok
int f(){switch(1);} @ outside 1 18 ;
int f(){switch(1)case 1:;} @ outside 1 18 case
int f(){switch(1)x=1;} @ outside 1 18 x
int f(){switch(1)int x;} @ syntax 1 18
int f(){switch(1){case 1:}} @ syntax 1 26
int f(){switch(1){case 1:int x;}} @ syntax 1 26
int f(){switch(1){case 1:case -2:default:;int x;{}x=1;case'a':break;}} @ ok
int f(){switch(1){case x:;}} @ outside 1 24 x
int f(){switch(1){case 1+1:;}} @ outside 1 25 +
int f(){switch(1){case 1:{case 2:;}}} @ outside 1 27 case
int f(){switch(1){if(1)case 2:;}} @ outside 1 24 case
int f(){switch(1){case:;}} @ syntax 1 23
int f(){switch(1){default 1:;}} @ syntax 1 27
int f(){case 1:;} @ outside 1 9 case
int f(){default:;} @ outside 1 9 default
int f(){break;continue;} @ ok
int f(){break 1;} @ syntax 1 15
int f(){;;{};{;{}}} @ ok
int f(){{int x;}int y;} @ ok
int f(){int x}; @ syntax 1 14
int x=2147483647,y=2147483648u,z=0xffffffff,w=037777777777; @ ok
int x=2147483648; @ number 1 7
int x=4294967296u; @ number 1 7
int x=-2147483648; @ number 1 8
int x y 4294967296; @ syntax 1 7
int x 4294967296; @ number 1 7
int x 0x100000000; @ number 1 7
4294967296 @ number 1 1
int x abcdefghijklmnopqrstuvwxyz123; @ outside 1 7 abcdefghijklmnopqrstuvwxyz123
int x=12ab; @ syntax 1 7
int x=08; @ syntax 1 7
int x=0x; @ syntax 1 7
int x=1.5; @ syntax 1 7
int x=10L; @ syntax 1 7
int x=0xe+1; @ syntax 1 7
int x="a"; @ syntax 1 7
int x='ab'; @ syntax 1 7
int x='\x41'; @ syntax 1 7
int x=''; @ syntax 1 7
int x='a @ syntax 1 7
int x=L'a'; @ syntax 1 7
int $; @ syntax 1 5
int x\ @ syntax 1 6
int x;/* y @ syntax 1 7
int x;/*/ y @ syntax 1 7
int x;// y @ ok
int x;/**/int y;/***/ @ ok
int/*a*/x/*=*/=/* */1/*;*/;//; @ ok
/*x*/ @ ok
//x @ ok
int f(){x=a+++b;} @ outside 1 12 ++
int f(){x=a---b;} @ outside 1 12 --
int f(){x=a+ ++b;} @ outside 1 14 ++
int f(){x=a- -b+ +c;} @ ok
int f(){x=1*a/2%b+c-d<<e>>f;x=f<g>h<=i>=j==k!=l&m^n|o;} @ ok
int f(){x*=1;x/=1;x%=1;x+=1;x-=1;x<<=1;x>>=1;x&=1;x^=1;x|=1;} @ ok
int f(){x+=f();} @ outside 1 13 (
int f(){*p++;} @ outside 1 11 ++
int f(){(*p)++;*p=*q;p[1]--;} @ ok
int f(){x=&a[1];x=*&y;x=&*p;} @ ok
int f(){&x=1;~x=1;} @ ok"#;

#[test]
fn texts_mean_what_they_are_due_to(rt: HostRuntime) -> Result<(), Fail> {
    let alloc = rt.alloc();
    for row in ROWS.lines().chain(FORMS.lines()) {
        let found = told(alloc, &read(alloc, field(row, 0).as_bytes()))?;
        assert_eq!(rt; found.as_slice(), field(row, 1).as_bytes(), "{row}");
    }
    Ok(())
}

#[test]
fn what_is_printed_is_read_back(rt: HostRuntime) -> Result<(), Fail> {
    let alloc = rt.alloc();
    for row in ROWS.lines().chain(FORMS.lines()) {
        let once = printed(alloc, field(row, 0).as_bytes())?;
        if !once.is_empty() {
            let twice = printed(alloc, &once)?;
            assert_eq!(rt; once.as_slice(), twice.as_slice(), "{row}");
        }
    }
    Ok(())
}

// What stands between tokens: white space, and comments of both kinds with what begins and ends others.
const SPACES: [&str; 8] = [
    " ",
    "\n",
    "\t\r\n",
    "/**/",
    "/* goto x; // \n ' */",
    "//\n",
    "// goto x; /* \" \n",
    "/***/ //*/\n\t/*/ x /*/",
];

#[test]
fn comments_stand_everywhere(rt: HostRuntime) -> Result<(), Fail> {
    let alloc = rt.alloc();
    for row in ROWS.lines() {
        let text = field(row, 0);
        let due = printed(alloc, text.as_bytes())?;
        for space in SPACES {
            let mut spaced = String::from_str(alloc, space)?;
            for token in text.split(' ') {
                spaced.push_str(token)?;
                spaced.push_str(space)?;
            }
            let found = printed(alloc, spaced.as_bytes())?;
            assert_eq!(rt; found.as_slice(), due.as_slice(), "{row}");
        }
    }
    Ok(())
}

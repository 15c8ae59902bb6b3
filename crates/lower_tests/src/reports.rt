//! What commands tell of units of C, their inputs and their costs, and words and reads that fail.

use crate::answers::{file_of, part, three_files, told, words_of};
use flow_base::{MemoryShelf, SureSink};
use std::test::Fail;
use sweet_cli::run;

// The words, the unit, the inputs, the costs, and what is told.
static ANALYSES: &str =
    r#"analyse a.c @ int main(void){int i=0; while(i<10) i=i+1; return i;} @  @  @ 0 facts 2;node 0 0 0 "main":entry;node 1 0 1 "main":0;node 2 1 1 "main":1;node 3 1 1 "main":2;node 4 0 1 "main":3;scope 0 - 0 call;scope 1 0 2 loop;loop 1 11 11;count 1 3 10 10;total 0 1 1;total 1 1 1;total 2 11 11;total 3 10 10;total 4 1 1;count-bound 23;path-bound 23 least;end;
analyse a.c --turns 24 @ int main(void){int i=0; while(i<10) i=i+1; return i;} @  @  @ 0 facts 2;node 0 0 0 "main":entry;node 1 0 1 "main":0;node 2 1 1 "main":1;node 3 1 1 "main":2;node 4 0 1 "main":3;scope 0 - 0 call;scope 1 0 2 loop;loop 1 11 11;count 1 3 10 10;total 0 1 1;total 1 1 1;total 2 11 11;total 3 10 10;total 4 1 1;count-bound 23;path-bound 23 least;end;
analyse a.c --turns 23 @ int main(void){int i=0; while(i<10) i=i+1; return i;} @  @  @ 3 unbounded 0 "main":entry;
analyse a.c --inputs i.toml @ int n; int main(void){int i=0; while(i<n) i=i+1; return i;} @ [[input]];frame="n";offset=0;size=32;low=0;high=10 @  @ 0 facts 2;node 0 0 0 "main":entry;node 1 0 1 "main":0;node 2 1 1 "main":1;node 3 1 1 "main":2;node 4 0 1 "main":3;scope 0 - 0 call;scope 1 0 2 loop;loop 1 1 11;count 1 3 0 10;total 0 1 1;total 1 1 1;total 2 1 11;total 3 0 10;total 4 1 1;count-bound 23;path-bound 23 least;end;
analyse a.c --turns 10 @ int main(void){for(;;);} @  @  @ 3 unbounded 1 "main":0;
analyse a.c --inputs i.toml --merge none @ int x; int main(void){int s=0; if(x<5) s=1; if(x>=5) s=s+2; return s;} @ [[input]];frame="x";offset=0;size=32;low=0;high=9 @  @ 0 facts 2;node 0 0 0 "main":entry;node 1 0 1 "main":0;node 2 0 1 "main":1;node 3 0 1 "main":2;node 4 0 1 "main":3;node 5 0 1 "main":4;scope 0 - 0 call;total 0 1 1;total 1 1 1;total 2 0 1;total 3 1 1;total 4 0 1;total 5 1 1;pair 0 2 4;count-bound 5;path-bound 4 least;end;
analyse a.c --inputs i.toml --merge none --pivots 1 @ int x; int main(void){int s=0; if(x<5) s=1; if(x>=5) s=s+2; return s;} @ [[input]];frame="x";offset=0;size=32;low=0;high=9 @  @ 0 facts 2;node 0 0 0 "main":entry;node 1 0 1 "main":0;node 2 0 1 "main":1;node 3 0 1 "main":2;node 4 0 1 "main":3;node 5 0 1 "main":4;scope 0 - 0 call;total 0 1 1;total 1 1 1;total 2 0 1;total 3 1 1;total 4 0 1;total 5 1 1;pair 0 2 4;count-bound 5;path-bound 4 stopped;end;
analyse a.c @ int main(void){int i; int j; int s=0; for(i=0;i<10;i=i+1) for(j=0;j<i;j=j+1) s=s+1; return s;} @  @  @ 0 facts 2;node 0 0 0 "main":entry;node 1 0 1 "main":0;node 2 1 1 "main":1;node 3 1 1 "main":2;node 4 2 1 "main":3;node 5 2 1 "main":4;node 6 2 1 "main":5;node 7 1 1 "main":6;node 8 0 1 "main":7;scope 0 - 0 call;scope 1 0 2 loop;scope 2 1 4 loop;loop 1 11 11;loop 2 1 10;count 1 3 10 10;count 1 7 10 10;count 2 5 0 9;count 2 6 0 9;total 0 1 1;total 1 1 1;total 2 11 11;total 3 10 10;total 4 55 55;total 5 45 45;total 6 45 45;total 7 10 10;total 8 1 1;count-bound 178;path-bound 178 least;end;
analyse a.c --inputs i.toml @ int a; int main(void){int i=a; while(i<5) i=i+1; return i;} @ [[input]];frame="a";offset=0;size=32;low=-5;high=5 @  @ 0 facts 2;node 0 0 0 "main":entry;node 1 0 1 "main":0;node 2 1 1 "main":1;node 3 1 1 "main":2;node 4 0 1 "main":3;scope 0 - 0 call;scope 1 0 2 loop;loop 1 1 11;count 1 3 0 10;total 0 1 1;total 1 1 1;total 2 1 11;total 3 0 10;total 4 1 1;count-bound 23;path-bound 23 least;end;
analyse a.c --turns 600 @ int main(void){unsigned char i=0; while(i<=255) i=i+1; return 0;} @  @  @ 3 unbounded 1 "main":1;
analyse a.c --inputs i.toml @ int k; int main(void){int i=k*3; while(i!=30) i=i+3; return i;} @ [[input]];frame="k";offset=0;size=32;low=0;high=3 @  @ 0 facts 2;node 0 0 0 "main":entry;node 1 0 1 "main":0;node 2 1 1 "main":1;node 3 1 1 "main":2;node 4 0 1 "main":3;scope 0 - 0 call;scope 1 0 2 loop;loop 1 8 11;count 1 3 7 10;total 0 1 1;total 1 1 1;total 2 8 11;total 3 7 10;total 4 1 1;count-bound 23;path-bound 23 least;end;
analyse a.c --inputs i.toml @ int d; int main(void){int x=100/d; return x;} @ [[input]];frame="d";offset=0;size=32;low=-2;high=2 @  @ 0 facts 2;node 0 0 0 "main":entry;node 1 0 1 "main":0;scope 0 - 0 call;total 0 1 1;total 1 1 1;alarm 1 divide;count-bound 1;path-bound 1 least;end;
analyse a.c @ int main(void){int x; return x;} @  @  @ 0 facts 2;node 0 0 0 "main":entry;node 1 0 1 "main":0;scope 0 - 0 call;total 0 1 1;total 1 1 1;alarm 1 uninit;count-bound 1;path-bound 1 least;end;
analyse a.c --inputs i.toml @ int a[4]; int k; int main(void){a[k]=7; if(a[2]>5) return 1; return 0;} @ [[input]];frame="k";offset=0;size=32;low=0;high=3 @  @ 0 facts 2;node 0 0 0 "main":entry;node 1 0 1 "main":0;node 2 0 1 "main":1;node 3 0 1 "main":3;scope 0 - 0 call;total 0 1 1;total 1 1 1;total 2 0 1;total 3 0 1;pair 0 2 3;count-bound 3;path-bound 2 least;end;
analyse a.c --inputs i.toml @ int c; int a[2]; int b[4]; int main(void){int *p; if(c) p=a; else p=b; p[2]=1; return b[2];} @ [[input]];frame="c";offset=0;size=32;low=0;high=1 @  @ 0 facts 2;node 0 0 0 "main":entry;node 1 0 1 "main":0;node 2 0 1 "main":1;node 3 0 1 "main":2;node 4 0 1 "main":3;scope 0 - 0 call;total 0 1 1;total 1 1 1;total 2 0 1;total 3 0 1;total 4 1 1;pair 0 2 3;alarm 4 bounds;count-bound 4;path-bound 3 least;end;
analyse a.c @ int f(void); int g(void){int x=f(); return x;} int f(void){int x=g(); return x;} int main(void){int x=f(); return x;} @  @  @ 2 fault 97 recursion "g" "f" "g";
analyse a.c --inputs i.toml @ int x; int main(void){switch(x){case 3: return 1; default: return 2;}} @ [[input]];frame="x";offset=0;size=32;low=3;high=3 @  @ 0 facts 2;node 0 0 0 "main":entry;node 1 0 1 "main":0;node 2 0 1 "main":1;node 3 0 1 "main":2;scope 0 - 0 call;dead 3;total 0 1 1;total 1 1 1;total 2 1 1;count-bound 2;path-bound 2 least;end;
analyse a.c --inputs i.toml @ int a[10]; int main(void) { int i; int j; int key; for (i = 1; i < 10; i = i + 1) { key = a[i]; j = i - 1; while (j >= 0 && a[j] > key) { a[j + 1] = a[j]; j = j - 1; } a[j + 1] = key; } return a[0]; } @ [[input]];frame="a";offset=0;size=32;count=10;low=-100;high=100 @  @ 0 facts 2;node 0 0 0 "main":entry;node 1 0 1 "main":0;node 2 1 1 "main":1;node 3 1 1 "main":2;node 4 2 1 "main":3;node 5 2 1 "main":4;node 6 2 1 "main":5;node 7 1 1 "main":6;node 8 1 1 "main":7;node 9 0 1 "main":8;scope 0 - 0 call;scope 1 0 2 loop;scope 2 1 4 loop;loop 1 10 10;loop 2 1 10;count 1 3 9 9;count 1 7 9 9;count 1 8 9 9;count 2 5 1 9;count 2 6 0 9;total 0 1 1;total 1 1 1;total 2 10 10;total 3 9 9;total 4 9 54;total 5 9 45;total 6 0 45;total 7 9 9;total 8 9 9;total 9 1 1;count-bound 183;path-bound 183 least;end;
analyse a.c @ int main(void){return 4294967296;} @  @  @ 2 fault 91 number 1 23;
analyse a.c @ int main(void){return y;} @  @  @ 2 fault 94 name "y";
analyse a.c @ int f(void){return 0;} @  @  @ 2 fault 98 root "main";
analyse a.c @ int w=258; int main(void){unsigned char *p; p=(unsigned char *)&w; return p[0]*256+p[1];} @  @  @ 0 facts 2;node 0 0 0 "main":entry;node 1 0 1 "main":0;scope 0 - 0 call;total 0 1 1;total 1 1 1;count-bound 1;path-bound 1 least;end;
print a.c @ int main(void){int *p; p=(int *)5; return 0;} @  @  @ 0 int main ( void ) { int * p ; p = ( int * ) 5 ; return 0 ; };
lower a.c @ int main(void){int *p; p=(int *)5; return 0;} @  @  @ 2 fault 96 type 1 26;
analyse a.c --root f @ int f(void){return 0;} @  @  @ 0 facts 2;node 0 0 0 "f":entry;node 1 0 1 "f":0;scope 0 - 0 call;total 0 1 1;total 1 1 1;count-bound 1;path-bound 1 least;end;
analyse a.c --costs c.toml @ int f(int x){return x;} int main(void){int a=f(1); return a;} @  @ default=2;[[cost]];function="f";block=0;cost=7 @ 0 facts 2;node 0 0 0 "main":entry;node 1 0 2 "main":0;node 2 0 2 "main":1;node 3 1 0 "main".0"f":entry;node 4 1 7 "main".0"f":0;scope 0 - 0 call;scope 1 0 3 call;total 0 1 1;total 1 1 1;total 2 1 1;total 3 1 1;total 4 1 1;count-bound 11;path-bound 11 least;end;"#;

// Runs: how they end, with values and with faults.
static RUNS: &str =
    r#"run a.c @ int main(void){int i=0; while(i<10) i=i+1; return i;} @  @  @ 0 returned 10;turns 24;cost 23;
run a.c --turns 23 @ int main(void){int i=0; while(i<10) i=i+1; return i;} @  @  @ 3 unbounded 0 "main":entry;
run a.c @ int main(void){{{{{{{{{{{{{{{{{{{{{{{{{{{{{{{{int x;}}}}}}}}}}}}}}}}}}}}}}}}}}}}}}}return 0;} @  @  @ 0 returned 0;turns 2;cost 1;
run a.c --inputs i.toml @ int d; int main(void){int x=100/d; return x;} @ [[input]];frame="d";offset=0;size=32;low=0;high=0 @  @ 0 stopped divide "main":0;turns 2;cost 1;
run a.c @ int d; int main(void){int x=1; if(d!=0 && 10/d>3) x=2; return x;} @  @  @ 0 returned 1;global "d" 0;turns 3;cost 2;
run a.c @ int w=258; int main(void){unsigned char *p; p=(unsigned char *)&w; return p[0]*256+p[1];} @  @  @ 0 returned 513;global "w" 258;turns 2;cost 1;
run a.c --turns 10 @ int main(void){for(;;);} @  @  @ 3 unbounded 1 "main":0;
run a.c @ void main(void){} @  @  @ 0 returned;turns 2;cost 1;
run a.c @ int main(void){} @  @  @ 0 returned 0;turns 2;cost 1;
run a.c @ char main(void){return 200;} @  @  @ 0 returned -56;turns 2;cost 1;
run a.c @ int main(void){int x; return x;} @  @  @ 0 stopped uninit "main":0;turns 2;cost 1;
run a.c @ int a[3]; int k=3; int main(void){return a[k];} @  @  @ 0 stopped bounds "main":0;turns 2;cost 1;
run a.c @ int a[3]; int k=-1; int main(void){a[k]=1; return 0;} @  @  @ 0 stopped bounds "main":0;turns 2;cost 1;
run a.c @ int a[2]; int b[2]; int main(void){int *p=a; int *q=b; return p==q;} @  @  @ 0 returned 0;turns 2;cost 1;
run a.c @ int a[2]; int b[2]; int main(void){int *p=a; int *q=b; return p<q;} @  @  @ 0 stopped pointers "main":0;turns 2;cost 1;
run a.c @ int a[2]; int b[2]; int main(void){int *p=a; int *q=b; return p-q;} @  @  @ 0 stopped pointers "main":0;turns 2;cost 1;
run a.c --inputs i.toml @ int main(int *p){return *p;} @ [[input]];frame="main::p";offset=0;size=32;low=5;high=9 @  @ 0 stopped kind "main":0;turns 2;cost 1;
run a.c --inputs i.toml @ int main(int n, char c){return n+c;} @ [[input]];frame="main::n";offset=0;size=32;low=40;high=50;[[input]];frame="main::c";offset=0;size=8;low=255;high=255 @  @ 0 returned 39;turns 2;cost 1;
run a.c @ int x=7; int f(int n){x=x/n; return x;} int main(void){int a=f(1); int b=f(0); return b;} @  @  @ 0 stopped divide "main".1"f":0;turns 7;cost 4;
run a.c @ int f(int x){return x;} int main(void){int a=f(1); a=f(a+1); return f(a+1);} @  @  @ 0 returned 3;turns 11;cost 7;
run a.c --root f @ int x; int f(void){x=-1; return x;} @  @  @ 0 returned -1;global "x" -1;turns 2;cost 1;
run a.c @ int x=1, y=-2; unsigned char b=200; int a[2]; unsigned short h=65535; int main(void){x=y*b; return h;} @  @  @ 0 returned 65535;global "x" -400;global "y" -2;global "b" -56;global "h" -1;turns 2;cost 1;
run a.c @ int main(void){int s=0; for(int i=0;i<3;i++){int t; if(i==0) t=5; s+=t;} return s;} @  @  @ 0 returned 15;turns 17;cost 16;"#;

// Inputs and costs that are refused, and what comes before them.
static TABLES: &str =
    r#"analyse a.c --inputs i.toml @ int n; int main(void){int i=0; while(i<n) i=i+1; return i;} @ [[input]];frame="n";offset=0;size=32;low=11;high=10 @  @ 2 fault 72 range inputs 0;
analyse a.c --inputs i.toml @ int n; int main(void){int i=0; while(i<n) i=i+1; return i;} @ [[input]];frame="m";offset=0;size=32;low=0;high=10 @  @ 2 fault 73 cell inputs 0;
analyse a.c --inputs i.toml @ int n; int main(void){int i=0; while(i<n) i=i+1; return i;} @ [[input]];frame="n";offset=0;size=32;lo=0;high=10 @  @ 2 fault 71 key inputs 0;
analyse a.c --inputs i.toml @ int n; int main(void){int i=0; while(i<n) i=i+1; return i;} @ [[ @  @ 2 fault 70 toml inputs;
run a.c --inputs i.toml @ int n; int main(void){int i=0; while(i<n) i=i+1; return i;} @ [[input]];frame="n";offset=0;size=32;low=11;high=10 @  @ 2 fault 72 range inputs 0;
run a.c --inputs i.toml @ int n; int main(void){int i=0; while(i<n) i=i+1; return i;} @ [[input]];frame="m";offset=0;size=32;low=0;high=10 @  @ 2 fault 73 cell inputs 0;
run a.c --inputs i.toml @ int n; int main(void){int i=0; while(i<n) i=i+1; return i;} @ [[input]];frame="n";offset=0;size=32;lo=0;high=10 @  @ 2 fault 71 key inputs 0;
run a.c --inputs i.toml @ int n; int main(void){int i=0; while(i<n) i=i+1; return i;} @ [[ @  @ 2 fault 70 toml inputs;
run a.c --inputs i.toml @ int n; int main(void){int i=0; return i;} @ [[input]];frame="main::i";offset=0;size=32;low=0;high=1 @  @ 2 fault 73 cell inputs 0;
run a.c --inputs i.toml @ int f(int n){return n;} int main(void){return f(1);} @ [[input]];frame="f::n";offset=0;size=32;low=0;high=1 @  @ 2 fault 73 cell inputs 0;
run a.c --inputs i.toml @ int f(int n){return n;} int main(void){return f(1);} @ [[input]];frame="main::$0";offset=0;size=32;low=0;high=1 @  @ 2 fault 73 cell inputs 0;
run a.c --inputs i.toml @ char c; int main(void){return c;} @ [[input]];frame="c";offset=0;size=32;low=0;high=1 @  @ 2 fault 73 cell inputs 0;
run a.c --inputs i.toml @ short t[3]; int main(void){return t[2];} @ [[input]];frame="t";offset=0;size=16;count=4;low=0;high=1 @  @ 2 fault 73 cell inputs 0;
run a.c --inputs i.toml @ short t[3]; int main(void){return t[2];} @ [[input]];frame="t";offset=0;size=16;count=3;low=-7;high=1 @  @ 0 returned -7;turns 2;cost 1;
run a.c --costs c.toml @ int main(void){return 1;} @  @ [[cost]];function="f";block=0;cost=1 @ 2 fault 73 cell costs 0;
run a.c --costs c.toml @ int main(void){return 1;} @  @ [[cost]];function="main";block=2;cost=1 @ 2 fault 73 cell costs 0;
run a.c --costs c.toml @ int main(void){return 1;} @  @ [[cost]];function="main";block=1;cost=9 @ 0 returned 1;turns 2;cost 1;
run a.c --costs c.toml @ int main(void){return 1;} @  @ default=-1 @ 2 fault 71 key costs -;
run a.c --costs c.toml --inputs i.toml @ int main(void){return 1;} @ [[ @ [[ @ 2 fault 70 toml inputs;
analyse a.c --costs c.toml --inputs i.toml @ int main(void){return 1;} @  @ [[ @ 2 fault 70 toml costs;
analyse a.c --inputs i.toml @ int main(void){return y;} @ [[ @  @ 2 fault 94 name "y";
run a.c --inputs i.toml @ int main(void){break;} @ [[ @  @ 2 fault 96 type 1 16;
run a.c --inputs i.toml --costs c.toml @ int f(void){return 1;} @ [[ @ [[ @ 2 fault 98 root "main";
analyse a.c --costs c.toml @ int main(void){return 1 @  @ [[ @ 2 fault 90 syntax 1 24;
analyse a.c --inputs i.toml --turns 1 @ int main(void){return 1;} @ [[ @  @ 2 fault 70 toml inputs;
analyse a.c --inputs i.toml @ void a(void){} void b(void){a();a();} void c(void){b();b();} void d(void){c();c();} void e(void){d();d();} void f(void){e();e();} void g(void){f();f();} void main(void){g();g();} @ [[ @  @ 2 fault 13 limit nodes 513;
run a.c @ void a(void){} void b(void){a();a();} void c(void){b();b();} void d(void){c();c();} void e(void){d();d();} void f(void){e();e();} void g(void){f();f();} void main(void){g();g();} @  @  @ 2 fault 13 limit nodes 513;"#;

#[test]
fn each_command_answers_for_a_unit(rt: HostRuntime) -> Result<(), Fail> {
    let alloc = rt.alloc();
    for table in [ANALYSES, RUNS, TABLES] {
        for row in table.lines() {
            let unit = part(row, 1).as_bytes();
            let files = three_files(alloc, unit, part(row, 2), part(row, 3))?;
            let found = told(alloc, part(row, 0), files)?;
            assert_eq!(rt; found.as_str(), part(row, 4), "{row}");
        }
    }
    Ok(())
}

// Words that are no command.
static USAGE: &str = "lower
lower a.alf
lower a.C
lower a.c.alf
lower c
lower a.c b.c
lower a.c --turns 5
lower a.c --inputs i.toml
lower a.c --costs c.toml
lower a.c --merge none
lower a.c --pivots 1
lower a.c --root
lower a.c --root f --root f
lower --root f
lower a.c --roots f
run a.c --merge none
analyse a.c --turns 0
analyse a.c --merge all
print a.c --root f";

#[test]
fn words_that_are_no_command_are_refused(rt: HostRuntime) -> Result<(), Fail> {
    let alloc = rt.alloc();
    for line in USAGE.lines() {
        let found = told(alloc, line, file_of(alloc, "a.c", b"int f(){}")?)?;
        assert_eq!(rt; found.as_str(), "1 fault usage;", "{line}");
    }
    Ok(())
}

// Words that are one, with the name of the file.
static LOWERINGS: &str = "lower a.c --root f @ a.c
lower a.c --root=f @ a.c
lower --root f a.c @ a.c
lower --root=f -- a.c @ a.c
lower --root f .c @ .c
lower --root f -- -.c @ -.c
lower a/b.c --root f @ a/b.c
lower a.alf.c --root f @ a.alf.c";

#[test]
fn a_file_of_c_is_lowered_whatever_its_name(rt: HostRuntime) -> Result<(), Fail> {
    let alloc = rt.alloc();
    for row in LOWERINGS.lines() {
        let found = told(
            alloc,
            part(row, 0),
            file_of(alloc, part(row, 1), b"int f(){}")?,
        )?;
        assert!(rt; found.as_str().starts_with("0 { alf "), "{row}");
    }
    Ok(())
}

// The words, the number of the read that is to fail, and what is told.
static READS: &str = "lower b.c @ 9 @ 5 fault read program
lower a.c @ 0 @ 5 fault read program
lower b.c --root f @ 9 @ 5 fault read program
analyse a.c @ 0 @ 5 fault read program
run a.c @ 0 @ 5 fault read program
run b.c --inputs no.toml --costs no.toml @ 9 @ 5 fault read program
analyse a.c --inputs i.toml --costs c.toml @ 1 @ 5 fault read inputs
analyse a.c --inputs no.toml --costs no.toml @ 9 @ 5 fault read inputs
run a.c --inputs i.toml --costs c.toml @ 2 @ 5 fault read costs
run a.c --costs c.toml @ 1 @ 5 fault read costs
run a.c --inputs no.toml --root g @ 9 @ 2 fault 98 root \"g\"
lower a.alf @ 0 @ 1 fault usage";

#[test]
fn a_read_that_fails_is_told_in_its_turn(rt: HostRuntime) -> Result<(), Fail> {
    let alloc = rt.alloc();
    for row in READS.lines() {
        let words = words_of(alloc, part(row, 0))?;
        let mut failing = Vec::new(alloc);
        if let Ok(number) = part(row, 1).parse::<u64>() {
            failing.push(number)?;
        }
        let files = three_files(alloc, b"int main(){}", "", "")?;
        let mut shelf = MemoryShelf::new(files, failing);
        let mut out = SureSink::new(alloc);
        let code = run(alloc, &words, &mut shelf, &mut out).code();
        let (due, text) = part(row, 2).split_once(' ').unwrap_or(("", ""));
        let wanted = format!(in alloc; "{text}\n")?;
        assert_eq!(rt; format!(in alloc; "{code}")?.as_str(), due, "{row}");
        assert_eq!(rt; out.bytes(), wanted.as_bytes(), "{row}");
    }
    Ok(())
}

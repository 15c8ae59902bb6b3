//! Small programs as ALF, each as it comes out of a program of C.

// The name of each, in a line of its own, the program of C in the next, and then the one of ALF. An empty line stands
// between two.
static PROGRAMS: &str = r#"a loop of ten turns
int main(void){int i=0; while(i<10) i=i+1; return i;}
{ alf { macro_defs } { least_addr_unit 8 } little_endian { exports { frefs } { lrefs } } { imports { frefs } { lrefs
} } { decls } { inits } { funcs
{ func { label 32 { lref 32 "main" } { dec_unsigned 32 0 } } { arg_decls } { scope { decls
{ alloc 32 "main::i" 32 } } { inits } { stmts
{ store { addr 32 { fref 32 "main::i" } { dec_unsigned 32 0 } } with { dec_signed 32 0 } }
{ label 32 { lref 32 "main::L0" } { dec_unsigned 32 0 } }
{ switch { s_lt 32 { load 32 { addr 32 { fref 32 "main::i" } { dec_unsigned 32 0 } } } { dec_signed 32 10 } } {
target { dec_unsigned 1 1 } { label 32 { lref 32 "main::L1" } { dec_unsigned 32 0 } } } { default { label 32 { lref
32 "main::L2" } { dec_unsigned 32 0 } } } }
{ label 32 { lref 32 "main::L1" } { dec_unsigned 32 0 } }
{ store { addr 32 { fref 32 "main::i" } { dec_unsigned 32 0 } } with { add 32 { load 32 { addr 32 { fref 32 "main::i"
} { dec_unsigned 32 0 } } } { dec_signed 32 1 } { dec_unsigned 1 0 } } }
{ jump { label 32 { lref 32 "main::L0" } { dec_unsigned 32 0 } } leaving 0 }
{ label 32 { lref 32 "main::L2" } { dec_unsigned 32 0 } }
{ return { load 32 { addr 32 { fref 32 "main::i" } { dec_unsigned 32 0 } } } }
{ return { dec_signed 32 0 } } } } } } }

a loop bounded by an input
int n; int main(void){int i=0; while(i<n) i=i+1; return i;}
{ alf { macro_defs } { least_addr_unit 8 } little_endian { exports { frefs { fref 32 "n" } } { lrefs } } { imports {
frefs } { lrefs } } { decls
{ alloc 32 "n" 32 } } { inits
{ init { ref "n" { dec_unsigned 32 0 } } { dec_signed 32 0 } } } { funcs
{ func { label 32 { lref 32 "main" } { dec_unsigned 32 0 } } { arg_decls } { scope { decls
{ alloc 32 "main::i" 32 } } { inits } { stmts
{ store { addr 32 { fref 32 "main::i" } { dec_unsigned 32 0 } } with { dec_signed 32 0 } }
{ label 32 { lref 32 "main::L0" } { dec_unsigned 32 0 } }
{ switch { s_lt 32 { load 32 { addr 32 { fref 32 "main::i" } { dec_unsigned 32 0 } } } { load 32 { addr 32 { fref 32
"n" } { dec_unsigned 32 0 } } } } { target { dec_unsigned 1 1 } { label 32 { lref 32 "main::L1" } { dec_unsigned 32 0
} } } { default { label 32 { lref 32 "main::L2" } { dec_unsigned 32 0 } } } }
{ label 32 { lref 32 "main::L1" } { dec_unsigned 32 0 } }
{ store { addr 32 { fref 32 "main::i" } { dec_unsigned 32 0 } } with { add 32 { load 32 { addr 32 { fref 32 "main::i"
} { dec_unsigned 32 0 } } } { dec_signed 32 1 } { dec_unsigned 1 0 } } }
{ jump { label 32 { lref 32 "main::L0" } { dec_unsigned 32 0 } } leaving 0 }
{ label 32 { lref 32 "main::L2" } { dec_unsigned 32 0 } }
{ return { load 32 { addr 32 { fref 32 "main::i" } { dec_unsigned 32 0 } } } }
{ return { dec_signed 32 0 } } } } } } }

a loop without an end
int main(void){for(;;);}
{ alf { macro_defs } { least_addr_unit 8 } little_endian { exports { frefs } { lrefs } } { imports { frefs } { lrefs
} } { decls } { inits } { funcs
{ func { label 32 { lref 32 "main" } { dec_unsigned 32 0 } } { arg_decls } { scope { decls } { inits } { stmts
{ label 32 { lref 32 "main::L0" } { dec_unsigned 32 0 } }
{ jump { label 32 { lref 32 "main::L1" } { dec_unsigned 32 0 } } leaving 0 }
{ label 32 { lref 32 "main::L1" } { dec_unsigned 32 0 } }
{ label 32 { lref 32 "main::L2" } { dec_unsigned 32 0 } }
{ jump { label 32 { lref 32 "main::L0" } { dec_unsigned 32 0 } } leaving 0 }
{ label 32 { lref 32 "main::L3" } { dec_unsigned 32 0 } }
{ return { dec_signed 32 0 } } } } } } }

two tests that exclude each other
int x; int main(void){int s=0; if(x<5) s=1; if(x>=5) s=s+2; return s;}
{ alf { macro_defs } { least_addr_unit 8 } little_endian { exports { frefs { fref 32 "x" } } { lrefs } } { imports {
frefs } { lrefs } } { decls
{ alloc 32 "x" 32 } } { inits
{ init { ref "x" { dec_unsigned 32 0 } } { dec_signed 32 0 } } } { funcs
{ func { label 32 { lref 32 "main" } { dec_unsigned 32 0 } } { arg_decls } { scope { decls
{ alloc 32 "main::s" 32 } } { inits } { stmts
{ store { addr 32 { fref 32 "main::s" } { dec_unsigned 32 0 } } with { dec_signed 32 0 } }
{ switch { s_lt 32 { load 32 { addr 32 { fref 32 "x" } { dec_unsigned 32 0 } } } { dec_signed 32 5 } } { target {
dec_unsigned 1 1 } { label 32 { lref 32 "main::L0" } { dec_unsigned 32 0 } } } { default { label 32 { lref 32
"main::L1" } { dec_unsigned 32 0 } } } }
{ label 32 { lref 32 "main::L0" } { dec_unsigned 32 0 } }
{ store { addr 32 { fref 32 "main::s" } { dec_unsigned 32 0 } } with { dec_signed 32 1 } }
{ jump { label 32 { lref 32 "main::L1" } { dec_unsigned 32 0 } } leaving 0 }
{ label 32 { lref 32 "main::L1" } { dec_unsigned 32 0 } }
{ switch { s_ge 32 { load 32 { addr 32 { fref 32 "x" } { dec_unsigned 32 0 } } } { dec_signed 32 5 } } { target {
dec_unsigned 1 1 } { label 32 { lref 32 "main::L2" } { dec_unsigned 32 0 } } } { default { label 32 { lref 32
"main::L3" } { dec_unsigned 32 0 } } } }
{ label 32 { lref 32 "main::L2" } { dec_unsigned 32 0 } }
{ store { addr 32 { fref 32 "main::s" } { dec_unsigned 32 0 } } with { add 32 { load 32 { addr 32 { fref 32 "main::s"
} { dec_unsigned 32 0 } } } { dec_signed 32 2 } { dec_unsigned 1 0 } } }
{ jump { label 32 { lref 32 "main::L3" } { dec_unsigned 32 0 } } leaving 0 }
{ label 32 { lref 32 "main::L3" } { dec_unsigned 32 0 } }
{ return { load 32 { addr 32 { fref 32 "main::s" } { dec_unsigned 32 0 } } } }
{ return { dec_signed 32 0 } } } } } } }

a triangle of two loops
int main(void){int i; int j; int s=0; for(i=0;i<10;i=i+1) for(j=0;j<i;j=j+1) s=s+1; return s;}
{ alf { macro_defs } { least_addr_unit 8 } little_endian { exports { frefs } { lrefs } } { imports { frefs } { lrefs
} } { decls } { inits } { funcs
{ func { label 32 { lref 32 "main" } { dec_unsigned 32 0 } } { arg_decls } { scope { decls
{ alloc 32 "main::i" 32 }
{ alloc 32 "main::j" 32 }
{ alloc 32 "main::s" 32 } } { inits } { stmts
{ store { addr 32 { fref 32 "main::s" } { dec_unsigned 32 0 } } with { dec_signed 32 0 } }
{ store { addr 32 { fref 32 "main::i" } { dec_unsigned 32 0 } } with { dec_signed 32 0 } }
{ label 32 { lref 32 "main::L0" } { dec_unsigned 32 0 } }
{ switch { s_lt 32 { load 32 { addr 32 { fref 32 "main::i" } { dec_unsigned 32 0 } } } { dec_signed 32 10 } } {
target { dec_unsigned 1 1 } { label 32 { lref 32 "main::L1" } { dec_unsigned 32 0 } } } { default { label 32 { lref
32 "main::L3" } { dec_unsigned 32 0 } } } }
{ label 32 { lref 32 "main::L1" } { dec_unsigned 32 0 } }
{ store { addr 32 { fref 32 "main::j" } { dec_unsigned 32 0 } } with { dec_signed 32 0 } }
{ label 32 { lref 32 "main::L4" } { dec_unsigned 32 0 } }
{ switch { s_lt 32 { load 32 { addr 32 { fref 32 "main::j" } { dec_unsigned 32 0 } } } { load 32 { addr 32 { fref 32
"main::i" } { dec_unsigned 32 0 } } } } { target { dec_unsigned 1 1 } { label 32 { lref 32 "main::L5" } {
dec_unsigned 32 0 } } } { default { label 32 { lref 32 "main::L7" } { dec_unsigned 32 0 } } } }
{ label 32 { lref 32 "main::L5" } { dec_unsigned 32 0 } }
{ store { addr 32 { fref 32 "main::s" } { dec_unsigned 32 0 } } with { add 32 { load 32 { addr 32 { fref 32 "main::s"
} { dec_unsigned 32 0 } } } { dec_signed 32 1 } { dec_unsigned 1 0 } } }
{ label 32 { lref 32 "main::L6" } { dec_unsigned 32 0 } }
{ store { addr 32 { fref 32 "main::j" } { dec_unsigned 32 0 } } with { add 32 { load 32 { addr 32 { fref 32 "main::j"
} { dec_unsigned 32 0 } } } { dec_signed 32 1 } { dec_unsigned 1 0 } } }
{ jump { label 32 { lref 32 "main::L4" } { dec_unsigned 32 0 } } leaving 0 }
{ label 32 { lref 32 "main::L7" } { dec_unsigned 32 0 } }
{ label 32 { lref 32 "main::L2" } { dec_unsigned 32 0 } }
{ store { addr 32 { fref 32 "main::i" } { dec_unsigned 32 0 } } with { add 32 { load 32 { addr 32 { fref 32 "main::i"
} { dec_unsigned 32 0 } } } { dec_signed 32 1 } { dec_unsigned 1 0 } } }
{ jump { label 32 { lref 32 "main::L0" } { dec_unsigned 32 0 } } leaving 0 }
{ label 32 { lref 32 "main::L3" } { dec_unsigned 32 0 } }
{ return { load 32 { addr 32 { fref 32 "main::s" } { dec_unsigned 32 0 } } } }
{ return { dec_signed 32 0 } } } } } } }

a counter that starts at an input
int a; int main(void){int i=a; while(i<5) i=i+1; return i;}
{ alf { macro_defs } { least_addr_unit 8 } little_endian { exports { frefs { fref 32 "a" } } { lrefs } } { imports {
frefs } { lrefs } } { decls
{ alloc 32 "a" 32 } } { inits
{ init { ref "a" { dec_unsigned 32 0 } } { dec_signed 32 0 } } } { funcs
{ func { label 32 { lref 32 "main" } { dec_unsigned 32 0 } } { arg_decls } { scope { decls
{ alloc 32 "main::i" 32 } } { inits } { stmts
{ store { addr 32 { fref 32 "main::i" } { dec_unsigned 32 0 } } with { load 32 { addr 32 { fref 32 "a" } {
dec_unsigned 32 0 } } } }
{ label 32 { lref 32 "main::L0" } { dec_unsigned 32 0 } }
{ switch { s_lt 32 { load 32 { addr 32 { fref 32 "main::i" } { dec_unsigned 32 0 } } } { dec_signed 32 5 } } { target
{ dec_unsigned 1 1 } { label 32 { lref 32 "main::L1" } { dec_unsigned 32 0 } } } { default { label 32 { lref 32
"main::L2" } { dec_unsigned 32 0 } } } }
{ label 32 { lref 32 "main::L1" } { dec_unsigned 32 0 } }
{ store { addr 32 { fref 32 "main::i" } { dec_unsigned 32 0 } } with { add 32 { load 32 { addr 32 { fref 32 "main::i"
} { dec_unsigned 32 0 } } } { dec_signed 32 1 } { dec_unsigned 1 0 } } }
{ jump { label 32 { lref 32 "main::L0" } { dec_unsigned 32 0 } } leaving 0 }
{ label 32 { lref 32 "main::L2" } { dec_unsigned 32 0 } }
{ return { load 32 { addr 32 { fref 32 "main::i" } { dec_unsigned 32 0 } } } }
{ return { dec_signed 32 0 } } } } } } }

an unsigned char never passes 255
int main(void){unsigned char i=0; while(i<=255) i=i+1; return 0;}
{ alf { macro_defs } { least_addr_unit 8 } little_endian { exports { frefs } { lrefs } } { imports { frefs } { lrefs
} } { decls } { inits } { funcs
{ func { label 32 { lref 32 "main" } { dec_unsigned 32 0 } } { arg_decls } { scope { decls
{ alloc 32 "main::i" 8 } } { inits } { stmts
{ store { addr 32 { fref 32 "main::i" } { dec_unsigned 32 0 } } with { trunc 32 8 { dec_signed 32 0 } } }
{ label 32 { lref 32 "main::L0" } { dec_unsigned 32 0 } }
{ switch { s_le 32 { z_ext 8 32 { load 8 { addr 32 { fref 32 "main::i" } { dec_unsigned 32 0 } } } } { dec_signed 32
255 } } { target { dec_unsigned 1 1 } { label 32 { lref 32 "main::L1" } { dec_unsigned 32 0 } } } { default { label
32 { lref 32 "main::L2" } { dec_unsigned 32 0 } } } }
{ label 32 { lref 32 "main::L1" } { dec_unsigned 32 0 } }
{ store { addr 32 { fref 32 "main::i" } { dec_unsigned 32 0 } } with { trunc 32 8 { add 32 { z_ext 8 32 { load 8 {
addr 32 { fref 32 "main::i" } { dec_unsigned 32 0 } } } } { dec_signed 32 1 } { dec_unsigned 1 0 } } } }
{ jump { label 32 { lref 32 "main::L0" } { dec_unsigned 32 0 } } leaving 0 }
{ label 32 { lref 32 "main::L2" } { dec_unsigned 32 0 } }
{ return { dec_signed 32 0 } }
{ return { dec_signed 32 0 } } } } } } }

steps of three
int k; int main(void){int i=k*3; while(i!=30) i=i+3; return i;}
{ alf { macro_defs } { least_addr_unit 8 } little_endian { exports { frefs { fref 32 "k" } } { lrefs } } { imports {
frefs } { lrefs } } { decls
{ alloc 32 "k" 32 } } { inits
{ init { ref "k" { dec_unsigned 32 0 } } { dec_signed 32 0 } } } { funcs
{ func { label 32 { lref 32 "main" } { dec_unsigned 32 0 } } { arg_decls } { scope { decls
{ alloc 32 "main::i" 32 } } { inits } { stmts
{ store { addr 32 { fref 32 "main::i" } { dec_unsigned 32 0 } } with { trunc 64 32 { s_mul 32 32 { load 32 { addr 32
{ fref 32 "k" } { dec_unsigned 32 0 } } } { dec_signed 32 3 } } } }
{ label 32 { lref 32 "main::L0" } { dec_unsigned 32 0 } }
{ switch { neq 32 { load 32 { addr 32 { fref 32 "main::i" } { dec_unsigned 32 0 } } } { dec_signed 32 30 } } { target
{ dec_unsigned 1 1 } { label 32 { lref 32 "main::L1" } { dec_unsigned 32 0 } } } { default { label 32 { lref 32
"main::L2" } { dec_unsigned 32 0 } } } }
{ label 32 { lref 32 "main::L1" } { dec_unsigned 32 0 } }
{ store { addr 32 { fref 32 "main::i" } { dec_unsigned 32 0 } } with { add 32 { load 32 { addr 32 { fref 32 "main::i"
} { dec_unsigned 32 0 } } } { dec_signed 32 3 } { dec_unsigned 1 0 } } }
{ jump { label 32 { lref 32 "main::L0" } { dec_unsigned 32 0 } } leaving 0 }
{ label 32 { lref 32 "main::L2" } { dec_unsigned 32 0 } }
{ return { load 32 { addr 32 { fref 32 "main::i" } { dec_unsigned 32 0 } } } }
{ return { dec_signed 32 0 } } } } } } }

a division by an input
int d; int main(void){int x=100/d; return x;}
{ alf { macro_defs } { least_addr_unit 8 } little_endian { exports { frefs { fref 32 "d" } } { lrefs } } { imports {
frefs } { lrefs } } { decls
{ alloc 32 "d" 32 } } { inits
{ init { ref "d" { dec_unsigned 32 0 } } { dec_signed 32 0 } } } { funcs
{ func { label 32 { lref 32 "main" } { dec_unsigned 32 0 } } { arg_decls } { scope { decls
{ alloc 32 "main::x" 32 } } { inits } { stmts
{ store { addr 32 { fref 32 "main::x" } { dec_unsigned 32 0 } } with { s_div 32 32 { dec_signed 32 100 } { load 32 {
addr 32 { fref 32 "d" } { dec_unsigned 32 0 } } } } }
{ return { load 32 { addr 32 { fref 32 "main::x" } { dec_unsigned 32 0 } } } }
{ return { dec_signed 32 0 } } } } } } }

a local without a value
int main(void){int x; return x;}
{ alf { macro_defs } { least_addr_unit 8 } little_endian { exports { frefs } { lrefs } } { imports { frefs } { lrefs
} } { decls } { inits } { funcs
{ func { label 32 { lref 32 "main" } { dec_unsigned 32 0 } } { arg_decls } { scope { decls
{ alloc 32 "main::x" 32 } } { inits } { stmts
{ return { load 32 { addr 32 { fref 32 "main::x" } { dec_unsigned 32 0 } } } }
{ return { dec_signed 32 0 } } } } } } }

a store at one of four places
int a[4]; int k; int main(void){a[k]=7; if(a[2]>5) return 1; return 0;}
{ alf { macro_defs } { least_addr_unit 8 } little_endian { exports { frefs { fref 32 "k" } } { lrefs } } { imports {
frefs } { lrefs } } { decls
{ alloc 32 "a" 128 }
{ alloc 32 "k" 32 } } { inits
{ init { ref "a" { dec_unsigned 32 0 } } { dec_signed 32 0 } }
{ init { ref "a" { dec_unsigned 32 4 } } { dec_signed 32 0 } }
{ init { ref "a" { dec_unsigned 32 8 } } { dec_signed 32 0 } }
{ init { ref "a" { dec_unsigned 32 12 } } { dec_signed 32 0 } }
{ init { ref "k" { dec_unsigned 32 0 } } { dec_signed 32 0 } } } { funcs
{ func { label 32 { lref 32 "main" } { dec_unsigned 32 0 } } { arg_decls } { scope { decls } { inits } { stmts
{ store { add 32 { addr 32 { fref 32 "a" } { dec_unsigned 32 0 } } { trunc 64 32 { s_mul 32 32 { load 32 { addr 32 {
fref 32 "k" } { dec_unsigned 32 0 } } } { dec_signed 32 4 } } } { dec_unsigned 1 0 } } with { dec_signed 32 7 } }
{ switch { s_gt 32 { load 32 { add 32 { addr 32 { fref 32 "a" } { dec_unsigned 32 0 } } { trunc 64 32 { s_mul 32 32 {
dec_signed 32 2 } { dec_signed 32 4 } } } { dec_unsigned 1 0 } } } { dec_signed 32 5 } } { target { dec_unsigned 1 1
} { label 32 { lref 32 "main::L0" } { dec_unsigned 32 0 } } } { default { label 32 { lref 32 "main::L1" } {
dec_unsigned 32 0 } } } }
{ label 32 { lref 32 "main::L0" } { dec_unsigned 32 0 } }
{ return { dec_signed 32 1 } }
{ jump { label 32 { lref 32 "main::L1" } { dec_unsigned 32 0 } } leaving 0 }
{ label 32 { lref 32 "main::L1" } { dec_unsigned 32 0 } }
{ return { dec_signed 32 0 } }
{ return { dec_signed 32 0 } } } } } } }

a pointer to one of two arrays
int c; int a[2]; int b[4]; int main(void){int *p; if(c) p=a; else p=b; p[2]=1; return b[2];}
{ alf { macro_defs } { least_addr_unit 8 } little_endian { exports { frefs { fref 32 "c" } } { lrefs } } { imports {
frefs } { lrefs } } { decls
{ alloc 32 "c" 32 }
{ alloc 32 "a" 64 }
{ alloc 32 "b" 128 } } { inits
{ init { ref "c" { dec_unsigned 32 0 } } { dec_signed 32 0 } }
{ init { ref "a" { dec_unsigned 32 0 } } { dec_signed 32 0 } }
{ init { ref "a" { dec_unsigned 32 4 } } { dec_signed 32 0 } }
{ init { ref "b" { dec_unsigned 32 0 } } { dec_signed 32 0 } }
{ init { ref "b" { dec_unsigned 32 4 } } { dec_signed 32 0 } }
{ init { ref "b" { dec_unsigned 32 8 } } { dec_signed 32 0 } }
{ init { ref "b" { dec_unsigned 32 12 } } { dec_signed 32 0 } } } { funcs
{ func { label 32 { lref 32 "main" } { dec_unsigned 32 0 } } { arg_decls } { scope { decls
{ alloc 32 "main::p" 32 } } { inits } { stmts
{ switch { neq 32 { load 32 { addr 32 { fref 32 "c" } { dec_unsigned 32 0 } } } { dec_signed 32 0 } } { target {
dec_unsigned 1 1 } { label 32 { lref 32 "main::L0" } { dec_unsigned 32 0 } } } { default { label 32 { lref 32
"main::L1" } { dec_unsigned 32 0 } } } }
{ label 32 { lref 32 "main::L0" } { dec_unsigned 32 0 } }
{ store { addr 32 { fref 32 "main::p" } { dec_unsigned 32 0 } } with { addr 32 { fref 32 "a" } { dec_unsigned 32 0 }
} }
{ jump { label 32 { lref 32 "main::L2" } { dec_unsigned 32 0 } } leaving 0 }
{ label 32 { lref 32 "main::L1" } { dec_unsigned 32 0 } }
{ store { addr 32 { fref 32 "main::p" } { dec_unsigned 32 0 } } with { addr 32 { fref 32 "b" } { dec_unsigned 32 0 }
} }
{ label 32 { lref 32 "main::L2" } { dec_unsigned 32 0 } }
{ store { add 32 { load 32 { addr 32 { fref 32 "main::p" } { dec_unsigned 32 0 } } } { trunc 64 32 { s_mul 32 32 {
dec_signed 32 2 } { dec_signed 32 4 } } } { dec_unsigned 1 0 } } with { dec_signed 32 1 } }
{ return { load 32 { add 32 { addr 32 { fref 32 "b" } { dec_unsigned 32 0 } } { trunc 64 32 { s_mul 32 32 {
dec_signed 32 2 } { dec_signed 32 4 } } } { dec_unsigned 1 0 } } } }
{ return { dec_signed 32 0 } } } } } } }

a case that always comes
int x; int main(void){switch(x){case 3: return 1; default: return 2;}}
{ alf { macro_defs } { least_addr_unit 8 } little_endian { exports { frefs { fref 32 "x" } } { lrefs } } { imports {
frefs } { lrefs } } { decls
{ alloc 32 "x" 32 } } { inits
{ init { ref "x" { dec_unsigned 32 0 } } { dec_signed 32 0 } } } { funcs
{ func { label 32 { lref 32 "main" } { dec_unsigned 32 0 } } { arg_decls } { scope { decls } { inits } { stmts
{ switch { load 32 { addr 32 { fref 32 "x" } { dec_unsigned 32 0 } } } { target { dec_signed 32 3 } { label 32 { lref
32 "main::L0" } { dec_unsigned 32 0 } } } { default { label 32 { lref 32 "main::L1" } { dec_unsigned 32 0 } } } }
{ label 32 { lref 32 "main::L0" } { dec_unsigned 32 0 } }
{ return { dec_signed 32 1 } }
{ label 32 { lref 32 "main::L1" } { dec_unsigned 32 0 } }
{ return { dec_signed 32 2 } }
{ label 32 { lref 32 "main::L2" } { dec_unsigned 32 0 } }
{ return { dec_signed 32 0 } } } } } } }

insertion sort
int a[10]; int main(void) { int i; int j; int key; for (i = 1; i < 10; i = i + 1) { key = a[i]; j = i - 1; while (j >= 0 && a[j] > key) { a[j + 1] = a[j]; j = j - 1; } a[j + 1] = key; } return a[0]; }
{ alf { macro_defs } { least_addr_unit 8 } little_endian { exports { frefs } { lrefs } } { imports { frefs } { lrefs
} } { decls
{ alloc 32 "a" 320 } } { inits
{ init { ref "a" { dec_unsigned 32 0 } } { dec_signed 32 0 } }
{ init { ref "a" { dec_unsigned 32 4 } } { dec_signed 32 0 } }
{ init { ref "a" { dec_unsigned 32 8 } } { dec_signed 32 0 } }
{ init { ref "a" { dec_unsigned 32 12 } } { dec_signed 32 0 } }
{ init { ref "a" { dec_unsigned 32 16 } } { dec_signed 32 0 } }
{ init { ref "a" { dec_unsigned 32 20 } } { dec_signed 32 0 } }
{ init { ref "a" { dec_unsigned 32 24 } } { dec_signed 32 0 } }
{ init { ref "a" { dec_unsigned 32 28 } } { dec_signed 32 0 } }
{ init { ref "a" { dec_unsigned 32 32 } } { dec_signed 32 0 } }
{ init { ref "a" { dec_unsigned 32 36 } } { dec_signed 32 0 } } } { funcs
{ func { label 32 { lref 32 "main" } { dec_unsigned 32 0 } } { arg_decls } { scope { decls
{ alloc 32 "main::i" 32 }
{ alloc 32 "main::j" 32 }
{ alloc 32 "main::key" 32 } } { inits } { stmts
{ store { addr 32 { fref 32 "main::i" } { dec_unsigned 32 0 } } with { dec_signed 32 1 } }
{ label 32 { lref 32 "main::L0" } { dec_unsigned 32 0 } }
{ switch { s_lt 32 { load 32 { addr 32 { fref 32 "main::i" } { dec_unsigned 32 0 } } } { dec_signed 32 10 } } {
target { dec_unsigned 1 1 } { label 32 { lref 32 "main::L1" } { dec_unsigned 32 0 } } } { default { label 32 { lref
32 "main::L3" } { dec_unsigned 32 0 } } } }
{ label 32 { lref 32 "main::L1" } { dec_unsigned 32 0 } }
{ store { addr 32 { fref 32 "main::key" } { dec_unsigned 32 0 } } with { load 32 { add 32 { addr 32 { fref 32 "a" } {
dec_unsigned 32 0 } } { trunc 64 32 { s_mul 32 32 { load 32 { addr 32 { fref 32 "main::i" } { dec_unsigned 32 0 } } }
{ dec_signed 32 4 } } } { dec_unsigned 1 0 } } } }
{ store { addr 32 { fref 32 "main::j" } { dec_unsigned 32 0 } } with { sub 32 { load 32 { addr 32 { fref 32 "main::i"
} { dec_unsigned 32 0 } } } { dec_signed 32 1 } { dec_unsigned 1 1 } } }
{ label 32 { lref 32 "main::L4" } { dec_unsigned 32 0 } }
{ switch { s_ge 32 { load 32 { addr 32 { fref 32 "main::j" } { dec_unsigned 32 0 } } } { dec_signed 32 0 } } { target
{ dec_unsigned 1 1 } { label 32 { lref 32 "main::L7" } { dec_unsigned 32 0 } } } { default { label 32 { lref 32
"main::L6" } { dec_unsigned 32 0 } } } }
{ label 32 { lref 32 "main::L7" } { dec_unsigned 32 0 } }
{ switch { s_gt 32 { load 32 { add 32 { addr 32 { fref 32 "a" } { dec_unsigned 32 0 } } { trunc 64 32 { s_mul 32 32 {
load 32 { addr 32 { fref 32 "main::j" } { dec_unsigned 32 0 } } } { dec_signed 32 4 } } } { dec_unsigned 1 0 } } } {
load 32 { addr 32 { fref 32 "main::key" } { dec_unsigned 32 0 } } } } { target { dec_unsigned 1 1 } { label 32 { lref
32 "main::L5" } { dec_unsigned 32 0 } } } { default { label 32 { lref 32 "main::L6" } { dec_unsigned 32 0 } } } }
{ label 32 { lref 32 "main::L5" } { dec_unsigned 32 0 } }
{ store { add 32 { addr 32 { fref 32 "a" } { dec_unsigned 32 0 } } { trunc 64 32 { s_mul 32 32 { add 32 { load 32 {
addr 32 { fref 32 "main::j" } { dec_unsigned 32 0 } } } { dec_signed 32 1 } { dec_unsigned 1 0 } } { dec_signed 32 4
} } } { dec_unsigned 1 0 } } with { load 32 { add 32 { addr 32 { fref 32 "a" } { dec_unsigned 32 0 } } { trunc 64 32
{ s_mul 32 32 { load 32 { addr 32 { fref 32 "main::j" } { dec_unsigned 32 0 } } } { dec_signed 32 4 } } } {
dec_unsigned 1 0 } } } }
{ store { addr 32 { fref 32 "main::j" } { dec_unsigned 32 0 } } with { sub 32 { load 32 { addr 32 { fref 32 "main::j"
} { dec_unsigned 32 0 } } } { dec_signed 32 1 } { dec_unsigned 1 1 } } }
{ jump { label 32 { lref 32 "main::L4" } { dec_unsigned 32 0 } } leaving 0 }
{ label 32 { lref 32 "main::L6" } { dec_unsigned 32 0 } }
{ store { add 32 { addr 32 { fref 32 "a" } { dec_unsigned 32 0 } } { trunc 64 32 { s_mul 32 32 { add 32 { load 32 {
addr 32 { fref 32 "main::j" } { dec_unsigned 32 0 } } } { dec_signed 32 1 } { dec_unsigned 1 0 } } { dec_signed 32 4
} } } { dec_unsigned 1 0 } } with { load 32 { addr 32 { fref 32 "main::key" } { dec_unsigned 32 0 } } } }
{ label 32 { lref 32 "main::L2" } { dec_unsigned 32 0 } }
{ store { addr 32 { fref 32 "main::i" } { dec_unsigned 32 0 } } with { add 32 { load 32 { addr 32 { fref 32 "main::i"
} { dec_unsigned 32 0 } } } { dec_signed 32 1 } { dec_unsigned 1 0 } } }
{ jump { label 32 { lref 32 "main::L0" } { dec_unsigned 32 0 } } leaving 0 }
{ label 32 { lref 32 "main::L3" } { dec_unsigned 32 0 } }
{ return { load 32 { add 32 { addr 32 { fref 32 "a" } { dec_unsigned 32 0 } } { trunc 64 32 { s_mul 32 32 {
dec_signed 32 0 } { dec_signed 32 4 } } } { dec_unsigned 1 0 } } } }
{ return { dec_signed 32 0 } } } } } } }"#;

/// The program of this name. Empty where there is none.
pub fn program_named(name: &str) -> &'static str {
    for case in PROGRAMS.split("\n\n") {
        if case.split('\n').nth(0).unwrap_or("") == name {
            return case.splitn(3, '\n').nth(2).unwrap_or("");
        }
    }
    ""
}

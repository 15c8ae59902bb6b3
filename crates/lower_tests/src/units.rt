//! Whole units: functions, globals, declarations, calls and returns, and the programs that they are lowered to.

use crate::answers::{answer, file_of};
use crate::notation::program_of;
use std::test::Fail;

// Units, each in a line of its own, and the lines of its program after it. An empty line stands between two.
static UNITS: &str = r"int main(void){return 7;}
func main
  { return #7 }
  { return #0 }

void main(int n) { if (n) return; n = 1; }
func main
args main::n%32
  { switch { neq 32 *main::n #0 } '1>main::L0 else>main::L1 }
  @main::L0
  { return }
  goto>main::L1
  @main::L1
  { store &main::n with #1 }
  { return }

char main(int n) { return n; }
func main
args main::n%32
  { return { trunc 32 8 *main::n } }
  { return { trunc 32 8 #0 } }

short int main(int a, char b, unsigned short c, int *p, char *q, short r[]) { return *p; }
func main
args main::a%32 main::b%8 main::c%16 main::p%32 main::q%32 main::r%32
  { return { trunc 32 16 { load 32 *main::p } } }
  { return { trunc 32 16 #0 } }

int x = 5, y = -5, z = 'a', w = 2147483647, v = 0x80000000, u = -2147483647, t = 4294967295u; int main(void) { return 0; }
exports x y z w v u t
frames x%32 y%32 z%32 w%32 v%32 u%32 t%32
inits x+0=#5 y+0=#-5 z+0=#97 w+0=#2147483647 v+0=#-2147483648 u+0=#-2147483647 t+0=#-1
func main
  { return #0 }
  { return #0 }

char a = 127, b = 128, c = -128, d = 255, e = 256, f = '\n'; signed char g = -129; int main(void) { return 0; }
exports a b c d e f g
frames a%8 b%8 c%8 d%8 e%8 f%8 g%8
inits a+0=#127%8 b+0=#-128%8 c+0=#-128%8 d+0=#-1%8 e+0=#0%8 f+0=#10%8 g+0=#127%8
func main
  { return #0 }
  { return #0 }

int a[3] = {1, -2}; short b[2] = {40000, 3,}; unsigned char c[1] = {-1}; int main(void) { return 0; }
frames a%96 b%32 c%8
inits a+0=#1 a+4=#-2 a+8=#0 b+0=#-25536%16 b+2=#3%16 c+0=#255u%8
func main
  { return #0 }
  { return #0 }

int x, a[2], y = 1; static const char z; int main(void) { return 0; }
exports x y z
frames x%32 a%64 y%32 z%8
inits x+0=#0 a+0=#0 a+4=#0 y+0=#1 z+0=#0%8
func main
  { return #0 }
  { return #0 }

int f(void); int main(void) { return f(); } int x = 2; int f(void) { return x; }
exports x
frames x%32
inits x+0=#2
func main
locals main::$0%32
  { call @f result &main::$0 }
  { return *main::$0 }
  { return #0 }
func f
  { return *x }
  { return #0 }

int main(void) { int i; char c; short s; int *p; char *q; int a[3]; short b[3]; unsigned char d[5]; return 0; }
func main
locals main::i%32 main::c%8 main::s%16 main::p%32 main::q%32 main::a%96 main::b%48 main::d%40
  { return #0 }
  { return #0 }

int main(void) { int i = 1, j = i; char c = j; unsigned short h = -1; unsigned u = c; return u; }
func main
locals main::i%32 main::j%32 main::c%8 main::h%16 main::u%32
  { store &main::i with #1 }
  { store &main::j with *main::i }
  { store &main::c with { trunc 32 8 *main::j } }
  { store &main::h with { trunc 32 16 { neg 32 #1 } } }
  { store &main::u with { s_ext 8 32 *main::c%8 } }
  { return *main::u }
  { return #0 }

int main(void) { int a[3] = {7}; int *p = a, *q = &a[1]; return *q; }
func main
locals main::a%96 main::p%32 main::q%32
  { store &main::a with #7 }
  { store &main::a+4 with #0 }
  { store &main::a+8 with #0 }
  { store &main::p with &main::a }
  { store &main::q with { add 32 &main::a { trunc 64 32 { s_mul 32 32 #1 #4 } } '0 } }
  { return { load 32 *main::q } }
  { return #0 }

int x; int main(int y) { { int x = 1; int y = x; { char y = 2; x = y; } y = 3; } x = y; return 0; }
exports x
frames x%32
inits x+0=#0
func main
args main::y%32
locals main::x%32 main::y::1%32 main::y::2%8
  { store &main::x with #1 }
  { store &main::y::1 with *main::x }
  { store &main::y::2 with { trunc 32 8 #2 } }
  { store &main::x with { s_ext 8 32 *main::y::2%8 } }
  { store &main::y::1 with #3 }
  { store &x with *main::y }
  { return #0 }
  { return #0 }

int main(void) { int s = 0; for (int i = 0; i < 3; i++) { int i = 5; s += i; } for (int i = 1, j = i; j; j--) s++; return s; }
func main
locals main::s%32 main::i%32 main::i::1%32 main::i::2%32 main::j%32
  { store &main::s with #0 }
  { store &main::i with #0 }
  @main::L0
  { switch { s_lt 32 *main::i #3 } '1>main::L1 else>main::L3 }
  @main::L1
  { store &main::i::1 with #5 }
  { store &main::s with { add 32 *main::s *main::i::1 '0 } }
  @main::L2
  { store &main::i with { add 32 *main::i #1 '0 } }
  goto>main::L0
  @main::L3
  { store &main::i::2 with #1 }
  { store &main::j with *main::i::2 }
  @main::L4
  { switch { neq 32 *main::j #0 } '1>main::L5 else>main::L7 }
  @main::L5
  { store &main::s with { add 32 *main::s #1 '0 } }
  @main::L6
  { store &main::j with { sub 32 *main::j #1 '1 } }
  goto>main::L4
  @main::L7
  { return *main::s }
  { return #0 }

void v(void) { } int main(void) { v(); return 0; }
func v
  { return }
func main
  { call @v result }
  { return #0 }
  { return #0 }

int f(void) { return 1; } int main(void) { f(); return 0; }
func f
  { return #1 }
  { return #0 }
func main
locals main::$0%32
  { call @f result &main::$0 }
  { return #0 }
  { return #0 }

int f(int a) { return a; } int x; int main(void) { int y = f(1); x = f(y); y = f(x + 2); return f(-y); }
exports x
frames x%32
inits x+0=#0
func f
args f::a%32
  { return *f::a }
  { return #0 }
func main
locals main::y%32 main::$0%32 main::$1%32 main::$2%32 main::$3%32
  { call @f #1 result &main::$0 }
  { store &main::y with *main::$0 }
  { call @f *main::y result &main::$1 }
  { store &x with *main::$1 }
  { call @f { add 32 *x #2 '0 } result &main::$2 }
  { store &main::y with *main::$2 }
  { call @f { neg 32 *main::y } result &main::$3 }
  { return *main::$3 }
  { return #0 }

char f(char a, short b, unsigned char c, unsigned short d, int e, unsigned g) { return a; } int main(int n) { char x = f(n, n, n, n, n, n); short y = f(x, x, x, x, x, x); int z = f(y, 1, 2, 3, 4, 5u); return f('a', -1, 300, n << 1, y, y); }
func f
args f::a%8 f::b%16 f::c%8 f::d%16 f::e%32 f::g%32
  { return { trunc 32 8 { s_ext 8 32 *f::a%8 } } }
  { return { trunc 32 8 #0 } }
func main
args main::n%32
locals main::x%8 main::$0%8 main::y%16 main::$1%8 main::z%32 main::$2%8 main::$3%8
  { call @f { trunc 32 8 *main::n } { trunc 32 16 *main::n } { trunc 32 8 *main::n } { trunc 32 16 *main::n } *main::n *main::n result &main::$0 }
  { store &main::x with { trunc 32 8 { s_ext 8 32 *main::$0%8 } } }
  { call @f { trunc 32 8 { s_ext 8 32 *main::x%8 } } { trunc 32 16 { s_ext 8 32 *main::x%8 } } { trunc 32 8 { s_ext 8 32 *main::x%8 } } { trunc 32 16 { s_ext 8 32 *main::x%8 } } { s_ext 8 32 *main::x%8 } { s_ext 8 32 *main::x%8 } result &main::$1 }
  { store &main::y with { trunc 32 16 { s_ext 8 32 *main::$1%8 } } }
  { call @f { trunc 32 8 { s_ext 16 32 *main::y%16 } } { trunc 32 16 #1 } { trunc 32 8 #2 } { trunc 32 16 #3 } #4 #5u result &main::$2 }
  { store &main::z with { s_ext 8 32 *main::$2%8 } }
  { call @f { trunc 32 8 #97 } { trunc 32 16 { neg 32 #1 } } { trunc 32 8 #300 } { trunc 32 16 { l_shift 32 32 *main::n #1 } } { s_ext 16 32 *main::y%16 } { s_ext 16 32 *main::y%16 } result &main::$3 }
  { return { s_ext 8 32 *main::$3%8 } }
  { return #0 }

int f(int a) { return a; } int main(void) { int i; int j; for (i = f(1); i < 9; i = f(i)) { j = f(2); f(3); } return f(4); }
func f
args f::a%32
  { return *f::a }
  { return #0 }
func main
locals main::i%32 main::j%32 main::$0%32 main::$1%32 main::$2%32 main::$3%32 main::$4%32
  { call @f #1 result &main::$0 }
  { store &main::i with *main::$0 }
  @main::L0
  { switch { s_lt 32 *main::i #9 } '1>main::L1 else>main::L3 }
  @main::L1
  { call @f #2 result &main::$2 }
  { store &main::j with *main::$2 }
  { call @f #3 result &main::$3 }
  @main::L2
  { call @f *main::i result &main::$1 }
  { store &main::i with *main::$1 }
  goto>main::L0
  @main::L3
  { call @f #4 result &main::$4 }
  { return *main::$4 }
  { return #0 }

int f(int n) { while (n) n--; return n; } int g(int n) { if (n) return 1; return f(n); } int main(void) { return g(3); }
func f
args f::n%32
  @f::L0
  { switch { neq 32 *f::n #0 } '1>f::L1 else>f::L2 }
  @f::L1
  { store &f::n with { sub 32 *f::n #1 '1 } }
  goto>f::L0
  @f::L2
  { return *f::n }
  { return #0 }
func g
args g::n%32
locals g::$0%32
  { switch { neq 32 *g::n #0 } '1>g::L0 else>g::L1 }
  @g::L0
  { return #1 }
  goto>g::L1
  @g::L1
  { call @f *g::n result &g::$0 }
  { return *g::$0 }
  { return #0 }
func main
locals main::$0%32
  { call @g #3 result &main::$0 }
  { return *main::$0 }
  { return #0 }

int w=258; int main(void){unsigned char *p; p=(unsigned char *)&w; return p[0]*256+p[1];}
exports w
frames w%32
inits w+0=#258
func main
locals main::p%32
  { store &main::p with &w }
  { return { add 32 { trunc 64 32 { s_mul 32 32 { z_ext 8 32 { load 8 { add 32 *main::p #0 '0 } } } #256 } } { z_ext 8 32 { load 8 { add 32 *main::p #1 '0 } } } '0 } }
  { return #0 }

int count(short *p, int n) { int k = 0; while (n > 0 && *p) { k++; p++; n--; } return k; } int main(void) { short a[2]; return count(a, 2); }
func count
args count::p%32 count::n%32
locals count::k%32
  { store &count::k with #0 }
  @count::L0
  { switch { s_gt 32 *count::n #0 } '1>count::L3 else>count::L2 }
  @count::L3
  { switch { neq 32 { s_ext 16 32 { load 16 *count::p } } #0 } '1>count::L1 else>count::L2 }
  @count::L1
  { store &count::k with { add 32 *count::k #1 '0 } }
  { store &count::p with { add 32 *count::p { trunc 64 32 { s_mul 32 32 #1 #2 } } '0 } }
  { store &count::n with { sub 32 *count::n #1 '1 } }
  goto>count::L0
  @count::L2
  { return *count::k }
  { return #0 }
func main
locals main::a%32 main::$0%32
  { call @count &main::a #2 result &main::$0 }
  { return *main::$0 }
  { return #0 }";

#[test]
fn each_unit_is_lowered_by_the_tables(rt: HostRuntime) -> Result<(), Fail> {
    let alloc = rt.alloc();
    for row in UNITS.split("\n\n") {
        let (unit, _) = row.split_once('\n').unwrap_or(("", ""));
        let wanted = format!(in alloc; "0 {}", program_of(alloc, row)?)?;
        let found = answer(alloc, "lower a.c", file_of(alloc, "a.c", unit.as_bytes())?)?;
        assert_eq!(rt; found.as_str(), wanted.as_str(), "{unit}");
    }
    Ok(())
}

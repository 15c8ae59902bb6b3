//! Statements with expressions, and what each is lowered to.

use crate::answers::{answer, file_of};
use crate::notation::program_of;
use std::alloc::{AllocError, Global};
use std::test::Fail;

// What stands before a statement, and after it.
const BEFORE: &str =
    "char c; unsigned char b; short s; unsigned short h; int i; int j; unsigned u; unsigned v; int a[4]; short t[4]; char d[4]; int f(int n) { int *p; short *q; char *r; ";

const AFTER: &str = " return n; }";

// What these are lowered to.
const ITEMS_BEFORE: &str = "
exports c b s h i j u v
frames c%8 b%8 s%16 h%16 i%32 j%32 u%32 v%32 a%128 t%64 d%32
inits c+0=#0%8 b+0=#0u%8 s+0=#0%16 h+0=#0u%16 i+0=#0 j+0=#0 u+0=#0u v+0=#0u
inits a+0=#0 a+4=#0 a+8=#0 a+12=#0
inits t+0=#0%16 t+2=#0%16 t+4=#0%16 t+6=#0%16
inits d+0=#0%8 d+1=#0%8 d+2=#0%8 d+3=#0%8
func f
args f::n%32
locals f::p%32 f::q%32 f::r%32
";

const ITEMS_AFTER: &str = "  { return *f::n }
  { return #0 }";

/// Whether the statements are lowered to the items, in a function after declarations. A row has the
/// statements, ` => ` and the items, with ` ; ` between two of them, and `-` where there are none.
pub fn is_lowered(alloc: Global, row: &str) -> Result<bool, AllocError> {
    let (statements, items) = row.split_once(" => ").unwrap_or(("", ""));
    let unit = format!(in alloc; "{BEFORE}{statements}{AFTER}")?;
    let mut lines = String::from_str(alloc, ITEMS_BEFORE)?;
    for item in items.split(" ; ") {
        if item != "-" {
            lines.push_str("  ")?;
            lines.push_str(item)?;
            lines.push('\n')?;
        }
    }
    lines.push_str(ITEMS_AFTER)?;
    let wanted = format!(in alloc; "0 {}", program_of(alloc, lines.as_str())?)?;
    let files = file_of(alloc, "a.c", unit.as_bytes())?;
    let found = answer(alloc, "lower a.c --root f", files)?;
    Ok(found == wanted)
}

// Values of each type, stored in each type.
static CONVERSIONS: &str = r"i = j; => { store &i with *j }
i = c; => { store &i with { s_ext 8 32 *c%8 } }
i = b; => { store &i with { z_ext 8 32 *b%8 } }
i = s; => { store &i with { s_ext 16 32 *s%16 } }
i = h; => { store &i with { z_ext 16 32 *h%16 } }
u = c; => { store &u with { s_ext 8 32 *c%8 } }
c = i; => { store &c with { trunc 32 8 *i } }
b = c; => { store &b with { trunc 32 8 { s_ext 8 32 *c%8 } } }
h = s; => { store &h with { trunc 32 16 { s_ext 16 32 *s%16 } } }
n = i; => { store &f::n with *i }";

// Constants.
static CONSTANTS: &str = r"i = 5; => { store &i with #5 }
i = 017; => { store &i with #15 }
u = 0x80000000; => { store &u with #2147483648u }
u = 5u; => { store &u with #5u }
i = 'a'; => { store &i with #97 }
i = '\n'; => { store &i with #10 }
c = 200; => { store &c with { trunc 32 8 #200 } }
i = -2147483647; => { store &i with { neg 32 #2147483647 } }";

// Operators with one operand, and casts.
static UNARY: &str = r"i = -j; => { store &i with { neg 32 *j } }
u = ~b; => { store &u with { not 32 { z_ext 8 32 *b%8 } } }
i = +s; => { store &i with { s_ext 16 32 *s%16 } }
i = !j; => { store &i with { z_ext 1 32 { eq 32 *j #0 } } }
c = !u; => { store &c with { trunc 32 8 { z_ext 1 32 { eq 32 *u #0 } } } }
i = (char)j; => { store &i with { s_ext 8 32 { trunc 32 8 *j } } }
i = (unsigned char)j; => { store &i with { z_ext 8 32 { trunc 32 8 *j } } }
i = (short)u; => { store &i with { s_ext 16 32 { trunc 32 16 *u } } }
i = (int)u; => { store &i with *u }
u = (unsigned)c; => { store &u with { s_ext 8 32 *c%8 } }
c = (char)i; => { store &c with { trunc 32 8 { s_ext 8 32 { trunc 32 8 *i } } } }
i = (int)(char)(unsigned short)u; => { store &i with { s_ext 8 32 { trunc 32 8 { z_ext 16 32 { trunc 32 16 *u } } } } }";

// Arithmetic on each kind of operands, and what binds closer.
static BINARY: &str =
    r"i = c + b; => { store &i with { add 32 { s_ext 8 32 *c%8 } { z_ext 8 32 *b%8 } '0 } }
u = u + 1; => { store &u with { add 32 *u #1 '0 } }
i = i - j; => { store &i with { sub 32 *i *j '1 } }
i = i * j; => { store &i with { trunc 64 32 { s_mul 32 32 *i *j } } }
u = i * u; => { store &u with { trunc 64 32 { u_mul 32 32 *i *u } } }
i = i / j; => { store &i with { s_div 32 32 *i *j } }
i = i / 2u; => { store &i with { u_div 32 32 *i #2u } }
i = i % j; => { store &i with { s_mod 32 32 *i *j } }
u = 7 % u; => { store &u with { u_mod 32 32 #7 *u } }
i = i << j; => { store &i with { l_shift 32 32 *i *j } }
i = i >> u; => { store &i with { r_shift_a 32 32 *i *u } }
u = u >> i; => { store &u with { r_shift 32 32 *u *i } }
i = i & j; => { store &i with { and 32 *i *j } }
i = i ^ b; => { store &i with { xor 32 *i { z_ext 8 32 *b%8 } } }
i = i | 8; => { store &i with { or 32 *i #8 } }
i = (i & u) / 2; => { store &i with { u_div 32 32 { and 32 *i *u } #2 } }
i = !u / j; => { store &i with { s_div 32 32 { z_ext 1 32 { eq 32 *u #0 } } *j } }
i = i - j - 1; => { store &i with { sub 32 { sub 32 *i *j '1 } #1 '1 } }
i = i | j ^ n & 1; => { store &i with { or 32 *i { xor 32 *j { and 32 *f::n #1 } } } }
i = (char)(i + j); => { store &i with { s_ext 8 32 { trunc 32 8 { add 32 *i *j '0 } } } }";

// Comparisons as values.
static COMPARISONS: &str = r"i = i < j; => { store &i with { z_ext 1 32 { s_lt 32 *i *j } } }
i = i > j; => { store &i with { z_ext 1 32 { s_gt 32 *i *j } } }
i = i == j; => { store &i with { z_ext 1 32 { eq 32 *i *j } } }
i = i != j; => { store &i with { z_ext 1 32 { neq 32 *i *j } } }
i = u <= i; => { store &i with { z_ext 1 32 { u_le 32 *u *i } } }
i = u >= c; => { store &i with { z_ext 1 32 { u_ge 32 *u { s_ext 8 32 *c%8 } } } }
i = b < c; => { store &i with { z_ext 1 32 { s_lt 32 { z_ext 8 32 *b%8 } { s_ext 8 32 *c%8 } } } }
i = i < j == n > 1; => { store &i with { z_ext 1 32 { eq 32 { z_ext 1 32 { s_lt 32 *i *j } } { z_ext 1 32 { s_gt 32 *f::n #1 } } } } }
i = !(i == j); => { store &i with { z_ext 1 32 { eq 32 { z_ext 1 32 { eq 32 *i *j } } #0 } } }";

// Pointers, elements and casts to pointers.
static POINTERS: &str = r"p = a; => { store &f::p with &a }
p = &i; => { store &f::p with &i }
p = &a[0]; => { store &f::p with { add 32 &a { trunc 64 32 { s_mul 32 32 #0 #4 } } '0 } }
r = &d[n]; => { store &f::r with { add 32 &d *f::n '0 } }
p = &*p; => { store &f::p with *f::p }
p = p + 1; => { store &f::p with { add 32 *f::p { trunc 64 32 { s_mul 32 32 #1 #4 } } '0 } }
p = n + a; => { store &f::p with { add 32 { trunc 64 32 { s_mul 32 32 *f::n #4 } } &a '0 } }
r = 3 + d; => { store &f::r with { add 32 #3 &d '0 } }
p = p - 1; => { store &f::p with { sub 32 *f::p { trunc 64 32 { s_mul 32 32 #1 #4 } } '1 } }
r = r - n; => { store &f::r with { sub 32 *f::r *f::n '1 } }
p = p + u; => { store &f::p with { add 32 *f::p { trunc 64 32 { u_mul 32 32 *u #4 } } '0 } }
i = p - a; => { store &i with { s_div 32 32 { sub 32 *f::p &a '1 } #4 } }
i = r - d; => { store &i with { sub 32 *f::r &d '1 } }
i = p < a; => { store &i with { z_ext 1 32 { u_lt 32 *f::p &a } } }
i = a != p; => { store &i with { z_ext 1 32 { neq 32 &a *f::p } } }
i = *q; => { store &i with { s_ext 16 32 { load 16 *f::q } } }
i = a[j]; => { store &i with { load 32 { add 32 &a { trunc 64 32 { s_mul 32 32 *j #4 } } '0 } } }
i = t[1]; => { store &i with { s_ext 16 32 { load 16 { add 32 &t { trunc 64 32 { s_mul 32 32 #1 #2 } } '0 } } } }
i = d[j]; => { store &i with { s_ext 8 32 { load 8 { add 32 &d *j '0 } } } }
i = (p + 1)[2]; => { store &i with { load 32 { add 32 { add 32 *f::p { trunc 64 32 { s_mul 32 32 #1 #4 } } '0 } { trunc 64 32 { s_mul 32 32 #2 #4 } } '0 } } }
*q = i; => { store *f::q with { trunc 32 16 *i } }
a[n] = i; => { store { add 32 &a { trunc 64 32 { s_mul 32 32 *f::n #4 } } '0 } with *i }
d[1] = c; => { store { add 32 &d #1 '0 } with { trunc 32 8 { s_ext 8 32 *c%8 } } }
p = (int *)q; => { store &f::p with *f::q }
i = *(char *)p; => { store &i with { s_ext 8 32 { load 8 *f::p } } }";

// Assignments that change what they store in.
static CHANGES: &str = r"i += 1; => { store &i with { add 32 *i #1 '0 } }
i /= u; => { store &i with { u_div 32 32 *i *u } }
u >>= 1; => { store &u with { r_shift 32 32 *u #1 } }
c += 1; => { store &c with { trunc 32 8 { add 32 { s_ext 8 32 *c%8 } #1 '0 } } }
p += n; => { store &f::p with { add 32 *f::p { trunc 64 32 { s_mul 32 32 *f::n #4 } } '0 } }
q -= 1; => { store &f::q with { sub 32 *f::q { trunc 64 32 { s_mul 32 32 #1 #2 } } '1 } }
a[n] += i; => { store { add 32 &a { trunc 64 32 { s_mul 32 32 *f::n #4 } } '0 } with { add 32 { load 32 { add 32 &a { trunc 64 32 { s_mul 32 32 *f::n #4 } } '0 } } *i '0 } }
i++; => { store &i with { add 32 *i #1 '0 } }
--i; => { store &i with { sub 32 *i #1 '1 } }
h--; => { store &h with { trunc 32 16 { sub 32 { z_ext 16 32 *h%16 } #1 '1 } } }
p++; => { store &f::p with { add 32 *f::p { trunc 64 32 { s_mul 32 32 #1 #4 } } '0 } }
--q; => { store &f::q with { sub 32 *f::q { trunc 64 32 { s_mul 32 32 #1 #2 } } '1 } }
a[1]++; => { store { add 32 &a { trunc 64 32 { s_mul 32 32 #1 #4 } } '0 } with { add 32 { load 32 { add 32 &a { trunc 64 32 { s_mul 32 32 #1 #4 } } '0 } } #1 '0 } }
(*r)--; => { store *f::r with { trunc 32 8 { sub 32 { s_ext 8 32 { load 8 *f::r } } #1 '1 } } }";

// Returns, blocks and nothing.
static PLAIN: &str = r"; => -
{ ; { ; } } => -
return c; => { return { s_ext 8 32 *c%8 } }
return (char)n; => { return { s_ext 8 32 { trunc 32 8 *f::n } } }
{ return 1; i = 2; } => { return #1 } ; { store &i with #2 }
{ i = 1; { j = 2; } } u = 3; => { store &i with #1 } ; { store &j with #2 } ; { store &u with #3 }";

#[test]
fn each_statement_is_lowered_by_the_tables(rt: HostRuntime) -> Result<(), Fail> {
    let alloc = rt.alloc();
    for table in [
        CONVERSIONS,
        CONSTANTS,
        UNARY,
        BINARY,
        COMPARISONS,
        POINTERS,
        CHANGES,
        PLAIN,
    ] {
        for row in table.lines() {
            assert!(rt; is_lowered(alloc, row)?, "{row}");
        }
    }
    Ok(())
}

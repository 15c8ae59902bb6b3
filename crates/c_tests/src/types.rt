//! Types: each rule kept, and broken more than once.

use crate::answers::stands;
use std::test::Fail;

// Operands, and what is assigned.
const OPERANDS: &str = r#"int main(void) { int a[2]; a = 0; return 0; } @ wrong 1 28
int main(void) { int a[2]; int *p; p = &a; return 0; } @ wrong 1 40
int main(void) { int a[2]; (a)++; return 0; } @ wrong 1 28
int main(void) { int a[2]; int *p; p = a; p = &a[1]; p = a + 1; return 0; } @ ok
int main(void) { char a[2]; signed char *p; p = a; return 0; } @ ok
int main(void) { char a[2]; unsigned char *p; p = a; return 0; } @ wrong 1 51
int main(void) { int *p; int x; x = !p; return 0; } @ wrong 1 37
int main(void) { int *p; int x; x = ~p; return 0; } @ wrong 1 37
int main(void) { int *p; int x; x = -p; return 0; } @ wrong 1 37
int main(void) { int *p; int x; x = +p; return 0; } @ wrong 1 37
int main(void) { int *p; int x; x = p * 2; return 0; } @ wrong 1 37
int main(void) { int *p; int x; x = 2 / p; return 0; } @ wrong 1 37
int main(void) { int *p; int x; x = 1 + p % 2; return 0; } @ wrong 1 41
int main(void) { int *p; int x; x = p << 1; return 0; } @ wrong 1 37
int main(void) { int *p; int x; x = 1 >> p; return 0; } @ wrong 1 37
int main(void) { int *p; int x; x = p & 1; return 0; } @ wrong 1 37
int main(void) { int *p; int x; x = 1 ^ p; return 0; } @ wrong 1 37
int main(void) { int *p; int x; x = p | p; return 0; } @ wrong 1 37
int main(void) { int *p; int x; x = p[p]; return 0; } @ wrong 1 37
int main(void) { int a[2]; int x; x = a[a]; return 0; } @ wrong 1 39
int main(void) { int *p; if (p) ; return 0; } @ wrong 1 30
int main(void) { int *p; while (p) ; return 0; } @ wrong 1 33
int main(void) { int *p; do ; while ((p)); return 0; } @ wrong 1 38
int main(void) { int *p; for (; p; ) ; return 0; } @ wrong 1 33
int main(void) { int *p; if (1 && p) ; return 0; } @ wrong 1 35
int main(void) { int *p; if (p || 1) ; return 0; } @ wrong 1 30
int main(void) { int *p; if (1 && (0 || p)) ; return 0; } @ wrong 1 41
int main(void) { int *p; if (1 && !p) ; return 0; } @ wrong 1 35
int main(void) { int *p; switch (p) { } return 0; } @ wrong 1 34
int main(void) { int a[2]; switch (a) { } return 0; } @ wrong 1 36
int main(void) { int *p; int x; x = (int)p; return 0; } @ wrong 1 37
int main(void) { int a[2]; int x; x = 1 + (char)a; return 0; } @ wrong 1 43
int main(void) { int *p; int *q; int x; p = p + 1; p = 1 + p; p = p - 1; x = p - q; x = p < q; x = p == q; return 0; } @ ok
int main(void) { int *p; int *q; int *r; r = p + q; return 0; } @ wrong 1 46
int main(void) { int *p; int x; x = (p + 1) + p; return 0; } @ wrong 1 37
int main(void) { int *p; int x; x = 1 - p; return 0; } @ wrong 1 37
int main(void) { int *p; char *c; int x; x = p - c; return 0; } @ wrong 1 46
int main(void) { int *p; int x; x = p < 1; return 0; } @ wrong 1 37
int main(void) { int *p; int x; x = 0 == p; return 0; } @ wrong 1 37
int main(void) { int *p; char *c; int x; x = p == c; return 0; } @ wrong 1 46
int main(void) { int *p; unsigned *u; int x; x = p >= u; return 0; } @ wrong 1 50
int main(void) { short *s; int a[2]; int x; x = a != s; return 0; } @ wrong 1 49
int main(void) { int x; x = *x; return 0; } @ wrong 1 29
int main(void) { int x; x = 1 + *1; return 0; } @ wrong 1 33
int main(void) { int x; x = x[0]; return 0; } @ wrong 1 29
int main(void) { int x; x = 1 - (x)[0]; return 0; } @ wrong 1 33
int main(void) { int *p; p = &p; return 0; } @ wrong 1 30
int main(void) { int *p; p = &1; return 0; } @ wrong 1 30
int main(void) { int x; int *p; p = &x; p = &(x); p = &*p; p = &p[1]; return 0; } @ ok
int f(void) { return 0; } int main(void) { f = 1; return 0; } @ wrong 1 44
int f(void) { return 0; } int main(void) { int x; x = f; return 0; } @ wrong 1 55
int f(void) { return 0; } int main(void) { int x; x = 1 + f; return 0; } @ wrong 1 59"#;

#[test]
fn operands_fit_their_operators(rt: HostRuntime) -> Result<(), Fail> {
    let alloc = rt.alloc();
    for row in OPERANDS.lines() {
        assert!(rt; stands(alloc, row)?, "{row}");
    }
    Ok(())
}

// Calls, results, arrays, types of functions, labels and leaving.
const USES: &str =
    r#"int main(void) { int x; int *p; (x) = 1; *p = 1; p[1] = 2; p++; --p; p += 1; p -= 2; x <<= 1; return 0; } @ ok
int main(void) { int *p; int x; x = p; return 0; } @ wrong 1 37
int main(void) { int *p; p = 1; return 0; } @ wrong 1 30
int main(void) { int *p; char *c; p = c; return 0; } @ wrong 1 39
int main(void) { int *p; int x = p; return 0; } @ wrong 1 34
int main(void) { int *p = 0; return 0; } @ wrong 1 27
int main(void) { int *p; int a[2]; a[0] = (p); return 0; } @ wrong 1 43
int main(void) { int x; int *p; p = x + 1; return 0; } @ wrong 1 37
int main(void) { int *p; int x; x += p; return 0; } @ wrong 1 33
int main(void) { int *p; p *= 2; return 0; } @ wrong 1 26
int main(void) { int *p; int *q; p -= q; return 0; } @ wrong 1 34
int main(void) { int *p; p &= 1; return 0; } @ wrong 1 26
int main(void) { int x; x(); return 0; } @ wrong 1 25
int main(void) { int a[2]; a(1); return 0; } @ wrong 1 28
int f(void) { return 0; } int main(void) { int f; f(); return 0; } @ wrong 1 51
int f(void) { return 0; } int main(void) { f(1); return 0; } @ wrong 1 44
int f(int a) { return a; } int main(void) { int x = f(); return 0; } @ wrong 1 53
int f(int a) { return a; } int main(void) { f(1, 2); return 0; } @ wrong 1 45
int f(int a) { return a; } int main(void) { int *p; f(p); return 0; } @ wrong 1 55
int f(int a, int *p) { return a; } int main(void) { int x; f(1, x); return 0; } @ wrong 1 65
int f(int p[]) { return *p; } int main(void) { char *c; f(c); return 0; } @ wrong 1 59
void v(void) { } int main(void) { int x; x = v(); return 0; } @ wrong 1 46
void v(void) { } int main(void) { int x = v(); return 0; } @ wrong 1 43
void v(void) { } int main(void) { return v(); } @ wrong 1 42
void v(void) { } int main(void) { v(); return 0; } @ ok
void v(void) { return 1; } int main(void) { return 0; } @ wrong 1 16
int main(void) { if (1) return; return 0; } @ wrong 1 25
int main(void) { int *p; return p; } @ wrong 1 33
char f(int *p) { return p + 1; } int main(void) { return 0; } @ wrong 1 25
void v(void) { if (0) return; return v(); } int main(void) { return 0; } @ wrong 1 31
int main(void) { int a[0]; return 0; } @ wrong 1 24
int a[0x0]; int main(void) {  return 0; } @ wrong 1 7
int main(void) { int a[2] = {1, 2, 3}; return 0; } @ wrong 1 36
int a[1] = {1, -2}; int main(void) {  return 0; } @ wrong 1 16
int a[3] = {1, -2}; int main(void) {  return 0; } @ ok
int f(int a); char f(int a) { return 0; } int main(void) {  return 0; } @ wrong 1 15
int f(int a); int f(char a); int main(void) {  return 0; } @ wrong 1 15
int f(int a) { return a; } int f(int a, int b); int main(void) {  return 0; } @ wrong 1 28
void f(void); int f(void); int main(void) {  return 0; } @ wrong 1 15
char f(int *a); signed char f(int b[]); int main(void) {  return 0; } @ ok
int main(void) { switch (1) { case 1: ; case 1: ; } return 0; } @ wrong 1 41
int main(void) { switch (1) { case 97: ; case 'a': ; } return 0; } @ wrong 1 42
int main(void) { switch (1) { case 4294967295u: ; case -1: ; } return 0; } @ wrong 1 51
int main(void) { switch (1) { case -0: ; case 0: ; } return 0; } @ wrong 1 42
int main(void) { switch (1) { default: ; default: ; } return 0; } @ wrong 1 42
int main(void) { switch (1) { default: ; case 1: ; default: ; } return 0; } @ wrong 1 52
int main(void) { switch (1) { case 1: switch (2) { case 1: ; default: ; } default: ; } return 0; } @ ok
int main(void) { break; return 0; } @ wrong 1 18
int main(void) { if (1) break; return 0; } @ wrong 1 25
int main(void) { continue; return 0; } @ wrong 1 18
int main(void) { switch (1) { case 1: continue; } return 0; } @ wrong 1 39
int main(void) { switch (1) { case 1: break; } while (1) { break; } do continue; while (0); for (;;) { switch (1) { case 1: continue; } break; } return 0; } @ ok"#;

#[test]
fn what_is_fixed_by_its_place_fits_it(rt: HostRuntime) -> Result<(), Fail> {
    let alloc = rt.alloc();
    for row in USES.lines() {
        assert!(rt; stands(alloc, row)?, "{row}");
    }
    Ok(())
}

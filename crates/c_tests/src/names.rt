//! Names: which are known, and which stand twice.

use crate::answers::stands;
use std::test::Fail;

// A text in each line, and after ` @ ` what is told of it.
const NAMES: &str = r#"int main(void) { int a; { int a; a = 1; } a = 2; return 0; } @ ok
int main(void) { int x; int x1; x = x1; return 0; } @ ok
int main(void) { for (int i = 0; i < 2; i++) ; for (int i = 0; i < 2; i++) ; return 0; } @ ok
int main(void) { int i; for (int i = 0; i < 2; i++) { int i; i = 1; } i = 1; return 0; } @ ok
int main(void) { if (1) { int a; a = 1; } else { int a; a = 2; } return 0; } @ ok
int main(void) { int x = x; return 0; } @ ok
int f(void) { return 0; } int main(void) { int f; f = 1; return 0; } @ ok
int f(int); int f(int b) { return b; } int f(int c); int main(void) { f(1); return 0; } @ ok
int main(void) { int a; int a; return 0; } @ twice a
int main(void) { int a, b, a; return 0; } @ twice a
int main(void) { int a[2]; int *a; return 0; } @ twice a
int main(int a) { int a; return 0; } @ twice a
int main(int a) { { int a; a = 1; } return a; } @ ok
int f(int a, int a); int main(void) { return 0; } @ twice a
int f(int, int); int main(void) { return 0; } @ ok
int x; int x; int main(void) {  return 0; } @ twice x
int f; int f(void) { return 0; } int main(void) {  return 0; } @ twice f
int f(void) { return 0; } int f; int main(void) {  return 0; } @ twice f
int f(void) { return 0; } int f(void) { return 1; } int main(void) {  return 0; } @ twice f
int main(void) { for (int i = 0, i = 1; i < 2; i++) ; return 0; } @ twice i
int main(void) { switch (1) { case 1: ; int a; case 2: ; int a; } return 0; } @ twice a
int main(void) { int x = y; return 0; } @ unknown y
int main(void) { y = 1; return 0; } @ unknown y
int main(void) { { int y; y = 1; } y = 2; return 0; } @ unknown y
int main(void) { for (int i = 0; i < 2; i++) ; i = 1; return 0; } @ unknown i
int main(void) { g(); return 0; } @ unknown g
int main(void) { int y = x; int x; x = y; return 0; } @ unknown x
int f(void); int main(void) { f(); return 0; } @ unknown f
int f(void); int main(void) { f(); return 0; } int f(void) { return 0; } @ ok
int main(void) { f(); return 0; } int f(void) { return 0; } @ unknown f
int main(void) { x = 1; return 0; } int x; @ unknown x"#;

#[test]
fn a_name_is_declared_once_and_known_from_there_on(rt: HostRuntime) -> Result<(), Fail> {
    let alloc = rt.alloc();
    for row in NAMES.lines() {
        assert!(rt; stands(alloc, row)?, "{row}");
    }
    Ok(())
}

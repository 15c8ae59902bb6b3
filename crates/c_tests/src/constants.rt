//! Constants and their worth, from the ranges of `int` and `unsigned int`.

use crate::answers::field;
use c_tokens::{Cursor, Worth, worth_of};
use std::alloc::{AllocError, Global};
use std::test::Fail;

/// Texts of one token, and what each is worth.
const ROWS: &str = r#"0 @ int 0
00 @ int 0
7 @ int 7
10 @ int 10
2147483647 @ int 2147483647
2147483648 @ too large
4294967295 @ too large
99999999999999999999999999999999999999999 @ too large
2147483648u @ unsigned 2147483648
4294967295U @ unsigned 4294967295
4294967296u @ too large
0u @ unsigned 0
1U @ unsigned 1
017 @ int 15
017777777777 @ int 2147483647
020000000000 @ unsigned 2147483648
037777777777 @ unsigned 4294967295
040000000000 @ too large
0777777777777777777777777777777 @ too large
000000000000000000000000000000001 @ int 1
017u @ unsigned 15
0x0 @ int 0
0x1f @ int 31
0XAbC @ int 2748
0x7fffffff @ int 2147483647
0x80000000 @ unsigned 2147483648
0xFFFFFFFF @ unsigned 4294967295
0x100000000 @ too large
0x00000000000000000000000000001 @ int 1
0x1u @ unsigned 1
0xffffffffffffffffffffffffU @ too large
08 @ none
09 @ none
018 @ none
0x @ none
0xu @ none
0xg @ none
12ab @ none
1uu @ none
1u1 @ none
10L @ none
10UL @ none
1_ @ none
1.5 @ none
1. @ none
.5 @ none
1e5 @ none
0xe+1 @ none
99999999999999999999999999999999999999999x @ none
'a' @ int 97
' ' @ int 32
'~' @ int 126
'"' @ int 34
'\n' @ int 10
'\t' @ int 9
'\0' @ int 0
'\\' @ int 92
'\'' @ int 39
'ab' @ none
'\r' @ none
L'a' @ none
x @ none"#;

fn shown(alloc: Global, worth: Worth) -> Result<String, AllocError> {
    match worth {
        Worth::Int(value) => format!(in alloc; "int {value}"),
        Worth::UnsignedInt(value) => format!(in alloc; "unsigned {value}"),
        Worth::TooLarge => String::from_str(alloc, "too large"),
        Worth::NoConstant => String::from_str(alloc, "none"),
    }
}

#[test]
fn each_constant_has_its_worth(rt: HostRuntime) -> Result<(), Fail> {
    assert_eq!(rt; ROWS.lines().count(), 62);
    for row in ROWS.lines() {
        let text = field(row, 0);
        let Some(token) = Cursor::new(text.as_bytes()).next() else {
            panic!(rt; "{text} is no token");
        };
        assert_eq!(rt; token.text, text.as_bytes(), "{text}");
        let worth = shown(rt.alloc(), worth_of(token.kind, token.text))?;
        assert_eq!(rt; worth.as_str(), field(row, 1), "{text}");
    }
    Ok(())
}

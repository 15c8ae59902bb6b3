//! Ranges of tokens, and what is asked of expressions.

use c_reader::{cut, spans};
use c_unit::{Binary, CUnit, Expr, Span, Unary, print, range};
use std::test::Fail;

/// A text, and where its tokens begin and end.
const TEXT: &str = "int x; // y\n\tx = 'c' /* z */ + 10;";

static ENDS: [(usize, usize); 9] = [
    (0, 3),
    (4, 5),
    (5, 6),
    (13, 14),
    (15, 16),
    (17, 20),
    (29, 30),
    (31, 33),
    (33, 34),
];

#[test]
fn a_token_is_a_range_of_its_text(rt: HostRuntime) -> Result<(), Fail> {
    let tokens = cut(rt.alloc(), TEXT.as_bytes())?;
    let found = spans(rt.alloc(), tokens.as_slice())?;
    assert_eq!(rt; found.len(), 9);
    for (span, (start, end)) in found.iter().zip(ENDS.iter()) {
        assert_eq!(rt; span.start, *start);
        assert_eq!(rt; span.len, end.saturating_sub(*start), "at {start}");
    }
    Ok(())
}

#[test]
fn a_range_ends_with_its_text(rt: HostRuntime) -> Result<(), Fail> {
    let text = b"abc".as_slice();
    assert_eq!(rt; range(text, Span { start: 1, len: 1 }), b"b".as_slice());
    assert_eq!(rt; range(text, Span { start: 1, len: 9 }), b"bc".as_slice());
    assert_eq!(rt; range(text, Span { start: 9, len: 1 }), b"".as_slice());
    Ok(())
}

/// `(-a[b]) + c * d`, whose tokens are numbered from 0.
#[test]
fn parentheses_are_no_operators(rt: HostRuntime) -> Result<(), Fail> {
    let alloc = rt.alloc();
    let index = Expr::Index(
        Box::new(alloc, Expr::Name(2))?,
        3,
        Box::new(alloc, Expr::Name(4))?,
    );
    let minus = Expr::Unary(Unary::Minus, 1, Box::new(alloc, index)?);
    let left = Expr::Parentheses(0, Box::new(alloc, minus)?);
    let right = Expr::Binary(
        Binary::Multiply,
        9,
        Box::new(alloc, Expr::Name(8))?,
        Box::new(alloc, Expr::Name(10))?,
    );
    let sum = Expr::Binary(
        Binary::Add,
        7,
        Box::new(alloc, left)?,
        Box::new(alloc, right)?,
    );
    assert_eq!(rt; sum.first(), 0);
    assert!(rt; sum.is_within(3));
    assert!(rt; !sum.is_within(2));
    Ok(())
}

/// Texts, and their canonical texts.
static PRINTED: [(&str, &str); 4] = [
    ("", "\n"),
    (" // nothing\n", "\n"),
    (
        "int\tmain(void){return'a'+0x1F; /* x */}\n",
        "int main ( void ) { return 'a' + 0x1F ; }\n",
    ),
    ("x=-1;y=a+++b<<=2", "x = - 1 ; y = a ++ + b <<= 2\n"),
];

#[test]
fn tokens_are_printed_with_a_space_between(rt: HostRuntime) -> Result<(), Fail> {
    let alloc = rt.alloc();
    for (text, canonical) in &PRINTED {
        let tokens = cut(alloc, text.as_bytes())?;
        let unit = CUnit {
            text: text.as_bytes().to_vec(alloc)?,
            tokens: spans(alloc, tokens.as_slice())?,
            externals: Vec::new(alloc),
        };
        let out = print(alloc, &unit)?;
        assert_eq!(rt; out.as_slice(), canonical.as_bytes());
    }
    Ok(())
}

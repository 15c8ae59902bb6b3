//! Texts and their tokens, worked out by hand from the rules of C99.

use crate::answers::field;
use c_tokens::{Cursor, Kind, Token, is_keyword};
use flow_base::place_of;
use std::alloc::{AllocError, Global};
use std::test::Fail;

/// A letter for what a token is: `k` for a keyword, `q` and `u` for a literal and a comment that are
/// not closed.
fn letter(token: Token<'_>) -> u8 {
    match token.kind {
        Kind::White => b'w',
        Kind::Identifier => { if is_keyword(token.text) { b'k' } else { b'i' } }
        Kind::Number => b'n',
        Kind::Character => b'c',
        Kind::StringLiteral => b's',
        Kind::Punctuator => b'p',
        Kind::Other => b'o',
        Kind::OpenLiteral => b'q',
        Kind::OpenComment => b'u',
    }
}

/// The tokens of a text, each after the letter of what it is.
fn shown(alloc: Global, text: &[u8]) -> Result<Vec<u8>, Fail> {
    let mut out = Vec::new(alloc);
    let mut cursor = Cursor::new(text);
    for _ in text {
        let peeked = cursor.peek();
        let Some(token) = cursor.next() else {
            break;
        };
        if !out.is_empty() {
            out.push(b' ')?;
        }
        out.push(letter(token))?;
        out.push(b':')?;
        if let Some(same) = peeked {
            out.extend_from_slice(same.text)?;
        }
    }
    Ok(out)
}

/// The text, where each control picture stands for its control character, and `∅` for nothing.
fn with_controls(alloc: Global, text: &str) -> Result<String, AllocError> {
    let mut plain = String::new(alloc);
    for letter in text.chars() {
        if letter == '∅' {
            continue;
        }
        plain.push(match letter {
            '␀' => '\0',
            '␉' => '\t',
            '␊' => '\n',
            '␋' => '\u{b}',
            '␌' => '\u{c}',
            '␍' => '\r',
            other => other,
        })?;
    }
    Ok(plain)
}

/// Texts and their tokens, with control pictures for control characters.
const NAMES_AND_NUMBERS: &str = r#"∅ @ ∅
int x @ k:int i:x
ints Int _int int_ @ i:ints i:Int i:_int i:int_
a1_B2 _ __ @ i:a1_B2 i:_ i:__
0 12 0x1F 10u @ n:0 n:12 n:0x1F n:10u
12ab 08 0x 10L @ n:12ab n:08 n:0x n:10L
1.5 1. .5 1..2 @ n:1.5 n:1. n:.5 n:1..2
. 5 a.5 a.b @ p:. n:5 i:a n:.5 i:a p:. i:b
1+2 @ n:1 p:+ n:2
1e+2 1E-2 1e2+3 @ n:1e+2 n:1E-2 n:1e2 p:+ n:3
0xe+1 0xE-x @ n:0xe+1 n:0xE-x
0x1p+3 1P-2 @ n:0x1p+3 n:1P-2
1e++2 @ n:1e+ p:+ n:2
1ee+2 1e_+2 @ n:1ee+2 n:1e_ p:+ n:2
0xf+1 1_-1 @ n:0xf p:+ n:1 n:1_ p:- n:1
1'a' @ n:1 c:'a'
a"b" @ i:a s:"b"
.e+1 @ p:. i:e p:+ n:1
...5 @ p:... n:5
..5 @ p:. n:.5
a$b @ i:a o:$ i:b
@`\ @ o:@ o:` o:\"#;

const LITERALS: &str = r#"'a' ' ' '"' @ c:'a' c:' ' c:'"'
'\n' '\0' '\\' '\'' @ c:'\n' c:'\0' c:'\\' c:'\''
'ab' '\012' @ c:'ab' c:'\012'
'\x4' '\x4g' @ c:'\x4' c:'\x4g'
'\u00e4' '\U000000e4' @ c:'\u00e4' c:'\U000000e4'
'' @ q:''
'a @ q:'a
'a␊' @ q:'a q:'
'\ @ q:'\
'\q' @ q:'\q'
'\8' @ q:'\8'
'\x' @ q:'\x'
'\u00e' @ q:'\u00e'
'\U000000e' @ q:'\U000000e'
'\␊' @ q:'\ q:'
"" "a b" @ s:"" s:"a b"
"'" "\"" @ s:"'" s:"\""
"a @ q:"a
"a␊" @ q:"a q:"
"a\" @ q:"a\"
"/*" */ @ s:"/*" p:* p:/
'//' x @ c:'//' i:x
L'a' L"a" L"" @ c:L'a' s:L"a" s:L""
L 'a' @ i:L c:'a'
L'' @ i:L q:''
L'a @ i:L q:'a
l'a' LL'a' @ i:l c:'a' i:LL c:'a'
L/**/'a' @ i:L c:'a'
'a''b' @ c:'a' c:'b'
'\q b' /*c*/ d @ q:'\q b' /*c*/ d
'a'b 'a'1 @ c:'a' i:b c:'a' n:1"#;

const MARKS: &str = r#"[](){}.&*~?:;,# @ p:[ p:] p:( p:) p:{ p:} p:. p:& p:* p:~ p:? p:: p:; p:, p:#
+ - ! / % < > ^ | = @ p:+ p:- p:! p:/ p:% p:< p:> p:^ p:| p:=
-> ++ -- << >> <= @ p:-> p:++ p:-- p:<< p:>> p:<=
>= == != && || ## @ p:>= p:== p:!= p:&& p:|| p:##
*= /= %= += -= &= @ p:*= p:/= p:%= p:+= p:-= p:&=
^= |= <: :> <% %> @ p:^= p:|= p:<: p::> p:<% p:%>
%: ... <<= >>= %:%: @ p:%: p:... p:<<= p:>>= p:%:%:
a+++b a---b @ i:a p:++ p:+ i:b i:a p:-- p:- i:b
a+ ++b @ i:a p:+ p:++ i:b
<<<= >>>= <<== @ p:<< p:<= p:>> p:>= p:<<= p:=
=== !== =! @ p:== p:= p:!= p:= p:= p:!
&&& ||| @ p:&& p:& p:|| p:|
&&= ^^ ~= ~~ @ p:&& p:= p:^ p:^ p:~ p:= p:~ p:~
->> --> ->* @ p:-> p:> p:-- p:> p:-> p:*
.. .... ..... @ p:. p:. p:... p:. p:... p:. p:.
%:% %:%% %:%:: @ p:%: p:% p:%: p:% p:% p:%:%: p::
<::> <%%> <:= @ p:<: p::> p:<% p:%> p:<: p:=
%:= %>= :: ::> @ p:%: p:= p:%> p:= p:: p:: p:: p::>
### #% %# @ p:## p:# p:# p:% p:% p:#
x=-1 x=&y @ i:x p:= p:- n:1 i:x p:= p:& i:y
a[i]++; @ i:a p:[ i:i p:] p:++ p:;
if(a<b) @ k:if p:( i:a p:< i:b p:)"#;

const SPACES: &str = r#" ␉␍␊ @ ∅
a/**/b @ i:a i:b
/**/ @ ∅
/***/ /****/ a @ i:a
/* * / ** // */a @ i:a
/* /* */ a */ @ i:a p:* p:/
a/*b␊c*/d @ i:a i:d
a//b␊c @ i:a i:c
a//b @ i:a
// @ ∅
//\␊a @ i:a
// /*␊a // */␊b @ i:a i:b
a//b␍c␊d @ i:a i:d
a /=/**/b @ i:a p:/= i:b
a/ *b @ i:a p:/ p:* i:b
a/ /b @ i:a p:/ p:/ i:b
/* @ u:/*
a /*/ b @ i:a u:/*/ b
a /* b * / 'c @ i:a u:/* b * / 'c
1/**/2 +/**/+ @ n:1 n:2 p:+ p:+
/*'*/ a /*"*/ @ i:a
␋␌␀ @ o:␋ o:␌ o:␀"#;

#[test]
fn each_token_is_the_longest_at_its_place(rt: HostRuntime) -> Result<(), Fail> {
    let alloc = rt.alloc();
    let mut count = 0u32;
    for rows in [NAMES_AND_NUMBERS, LITERALS, MARKS, SPACES] {
        for row in rows.lines() {
            let text = with_controls(alloc, field(row, 0))?;
            let tokens = with_controls(alloc, field(row, 1))?;
            let told = shown(alloc, text.as_bytes())?;
            assert_eq!(rt; told.as_slice(), tokens.as_bytes(), "{row}");
            count = count.saturating_add(1);
        }
    }
    assert_eq!(rt; count, 97);
    Ok(())
}

#[test]
fn a_byte_outside_ascii_is_in_literals_and_comments_alone(rt: HostRuntime) -> Result<(), Fail> {
    let told = shown(rt.alloc(), b"\xff'\xe4' /*\xe4*/ \"\x80\"a\xc3")?;
    assert_eq!(rt;
        told.as_slice(),
        b"o:\xff c:'\xe4' s:\"\x80\" i:a o:\xc3".as_slice()
    );
    Ok(())
}

/// The keywords, and names that are none.
const WORDS: &str = "auto break case char const continue default do double else enum extern float
for goto if inline int long register restrict return short signed sizeof static struct switch
typedef union unsigned void volatile while _Bool _Complex _Imaginary
Auto autos aut asm bool main Int _bool whil e restricted gotoo L u U";

#[test]
fn the_37_keywords_are_told_from_names(rt: HostRuntime) -> Result<(), Fail> {
    let mut cursor = Cursor::new(WORDS.as_bytes());
    for n in 0..52u32 {
        let Some(token) = cursor.next() else {
            panic!(rt; "there are {n} words");
        };
        assert_eq!(rt; is_keyword(token.text), n < 37, "word {n}");
    }
    assert!(rt; cursor.next().is_none(), "there are more words");
    Ok(())
}

/// How many pairs of bytes are one punctuator.
#[test]
fn there_are_25_punctuators_of_two_bytes(rt: HostRuntime) -> Result<(), Fail> {
    let mut pairs = 0u32;
    for first in 33..127u8 {
        for second in 33..127u8 {
            let text = [first, second];
            if let Some(token) = Cursor::new(&text).next() {
                if token.kind == Kind::Punctuator && token.text.len() == 2 {
                    pairs = pairs.saturating_add(1);
                }
            }
        }
    }
    assert_eq!(rt; pairs, 25);
    Ok(())
}

/// Lines and columns of the tokens of a text, and of its end.
const LINES: &str = "ab c\n\td /*\n*/ e\r\n\n'f'";

static PLACES: [(u64, u64, u64); 6] = [
    (0, 1, 1),
    (3, 1, 4),
    (6, 2, 2),
    (14, 3, 4),
    (18, 5, 1),
    (21, 5, 4),
];

#[test]
fn a_token_tells_its_place(rt: HostRuntime) -> Result<(), Fail> {
    let text = LINES.as_bytes();
    let mut cursor = Cursor::new(text);
    for (offset, line, column) in &PLACES {
        let left = match cursor.next() {
            Some(token) => token.left,
            None => 0,
        };
        let place = place_of(text, left);
        assert_eq!(rt; place.offset, *offset);
        assert_eq!(rt; place.line, *line, "offset {offset}");
        assert_eq!(rt; place.column, *column, "offset {offset}");
    }
    Ok(())
}

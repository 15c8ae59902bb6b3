//! The words of a type, in any order.

ghost use Rattle.std.specs.Prelude.{◌≡◌};
ghost use Rattle.c_grammar.specs.Words.{takes_void, takes_const, takes_static, knows_static, with_base, with_sign};
ghost use Rattle.c_grammar.specs.Words.{with_void, with_char, with_short, with_int, with_type_word, with_static};
ghost use Rattle.c_grammar.specs.Words.{with_const, with_word, is_unsigned, int_of, char_of, short_of, unsaid_of};
ghost use Rattle.c_grammar.specs.Words.{outcome_of};

use crate::symbol::{Symbol, TypeWord};
use c_unit::{Integer, Outcome};

/// Where the words of a type stand.
#[derive(Clone, Copy, Debug, PartialEq, Eq)]
pub enum Setting {
    /// At file level, where `static` may stand and a function may give nothing.
    File,
    /// In a block, or in the first part of a `for`.
    Block,
    /// At the first parameter, which may be `void` alone, without `const`.
    FirstParameter,
    Parameter,
    Cast,
}

/// Which of `void`, `char`, `short` and `int` have been read.
#[derive(Clone, Copy, Debug, PartialEq, Eq)]
pub enum Base {
    Unsaid,
    Void,
    Char,
    Short,
    ShortInt,
    Int,
}

/// Which of `signed` and `unsigned` has been read.
#[derive(Clone, Copy, Debug, PartialEq, Eq)]
pub enum Sign {
    Unsaid,
    Signed,
    Unsigned,
}

/// The words of a type that have been read.
#[derive(Clone, Copy, Debug, PartialEq, Eq)]
pub struct Specifiers {
    pub base: Base,
    pub sign: Sign,
    pub is_static: bool,
    pub is_const: bool,
}

/// What one more word comes to.
#[derive(Clone, Copy, Debug, PartialEq, Eq)]
pub enum NextWord {
    Fits(Specifiers),
    /// C99 has the word here, and the profile has not.
    Outside,
    Wrong,
}

fn takes_void(setting: Setting, is_const: bool) -> bool
    ensures { result ≡ takes_void setting is_const }
{
    match setting {
        Setting::File => true,
        Setting::FirstParameter => !is_const,
        _ => false,
    }
}

// Whether `const` stands with such words: not with the `void` of an empty list of parameters.
fn takes_const(setting: Setting, base: Base) -> bool
    ensures { result ≡ takes_const setting base }
{
    match setting {
        Setting::FirstParameter => match base {
            Base::Void => false,
            _ => true,
        },
        _ => true,
    }
}

fn takes_static(setting: Setting) -> bool
    ensures { result ≡ takes_static setting }
{
    match setting {
        Setting::File => true,
        _ => false,
    }
}

// Whether C99 lets `static` stand here.
fn knows_static(setting: Setting) -> bool
    ensures { result ≡ knows_static setting }
{
    match setting {
        Setting::Cast => false,
        _ => true,
    }
}

fn with_base(words: Specifiers, base: Base) -> NextWord
    ensures { result ≡ with_base words base }
{
    NextWord::Fits(Specifiers {
        base,
        sign: words.sign,
        is_static: words.is_static,
        is_const: words.is_const,
    })
}

// `signed` or `unsigned`.
fn with_sign(words: Specifiers, sign: Sign) -> NextWord
    ensures { result ≡ with_sign words sign }
{
    match words.sign {
        Sign::Unsaid => match words.base {
            Base::Void => NextWord::Wrong,
            _ => NextWord::Fits(Specifiers {
                base: words.base,
                sign,
                is_static: words.is_static,
                is_const: words.is_const,
            }),
        },
        _ => NextWord::Wrong,
    }
}

fn with_void(setting: Setting, words: Specifiers) -> NextWord
    ensures { result ≡ with_void setting words }
{
    match words.base {
        Base::Unsaid => match words.sign {
            Sign::Unsaid => {
                if takes_void(setting, words.is_const) {
                    with_base(words, Base::Void)
                } else {
                    NextWord::Outside
                }
            }
            _ => NextWord::Wrong,
        },
        _ => NextWord::Wrong,
    }
}

fn with_char(words: Specifiers) -> NextWord
    ensures { result ≡ with_char words }
{
    match words.base {
        Base::Unsaid => with_base(words, Base::Char),
        _ => NextWord::Wrong,
    }
}

fn with_short(words: Specifiers) -> NextWord
    ensures { result ≡ with_short words }
{
    match words.base {
        Base::Unsaid => with_base(words, Base::Short),
        Base::Int => with_base(words, Base::ShortInt),
        _ => NextWord::Wrong,
    }
}

fn with_int(words: Specifiers) -> NextWord
    ensures { result ≡ with_int words }
{
    match words.base {
        Base::Unsaid => with_base(words, Base::Int),
        Base::Short => with_base(words, Base::ShortInt),
        _ => NextWord::Wrong,
    }
}

fn with_type_word(setting: Setting, words: Specifiers, word: TypeWord) -> NextWord
    ensures { result ≡ with_type_word setting words word }
{
    match word {
        TypeWord::Void => with_void(setting, words),
        TypeWord::Char => with_char(words),
        TypeWord::Short => with_short(words),
        TypeWord::Int => with_int(words),
        TypeWord::Signed => with_sign(words, Sign::Signed),
        TypeWord::Unsigned => with_sign(words, Sign::Unsigned),
    }
}

fn with_static(setting: Setting, words: Specifiers) -> NextWord
    ensures { result ≡ with_static setting words }
{
    if takes_static(setting) {
        if words.is_static {
            NextWord::Wrong
        } else {
            NextWord::Fits(Specifiers {
                base: words.base,
                sign: words.sign,
                is_static: true,
                is_const: words.is_const,
            })
        }
    } else if knows_static(setting) {
        NextWord::Outside
    } else {
        NextWord::Wrong
    }
}

fn with_const(setting: Setting, words: Specifiers) -> NextWord
    ensures { result ≡ with_const setting words }
{
    if takes_const(setting, words.base) {
        NextWord::Fits(Specifiers {
            base: words.base,
            sign: words.sign,
            is_static: words.is_static,
            is_const: true,
        })
    } else {
        NextWord::Outside
    }
}

/// What a further symbol after these words comes to.
pub fn with_word(setting: Setting, words: Specifiers, symbol: Symbol) -> NextWord
    ensures { result ≡ with_word setting words symbol }
{
    match symbol {
        Symbol::Type(word) => with_type_word(setting, words, word),
        Symbol::Const => with_const(setting, words),
        Symbol::Static => with_static(setting, words),
        _ => NextWord::Wrong,
    }
}

fn is_unsigned(sign: Sign) -> bool
    ensures { result ≡ is_unsigned sign }
{
    match sign {
        Sign::Unsigned => true,
        _ => false,
    }
}

// `int`, which need not be said where `signed` or `unsigned` is.
fn int_of(sign: Sign) -> Integer
    ensures { result ≡ int_of sign }
{
    if is_unsigned(sign) {
        Integer::UnsignedInt
    } else {
        Integer::Int
    }
}

fn char_of(sign: Sign) -> Integer
    ensures { result ≡ char_of sign }
{
    if is_unsigned(sign) {
        Integer::UnsignedChar
    } else {
        Integer::Char
    }
}

fn short_of(sign: Sign) -> Integer
    ensures { result ≡ short_of sign }
{
    if is_unsigned(sign) {
        Integer::UnsignedShort
    } else {
        Integer::Short
    }
}

fn unsaid_of(sign: Sign) -> Option<Outcome>
    ensures { result ≡ unsaid_of sign }
{
    match sign {
        Sign::Unsaid => None,
        _ => Some(Outcome::Integer(int_of(sign))),
    }
}

/// The type that the words are, if they are one.
pub fn outcome_of(words: Specifiers) -> Option<Outcome>
    ensures { result ≡ outcome_of words }
{
    match words.base {
        Base::Unsaid => unsaid_of(words.sign),
        Base::Void => Some(Outcome::Nothing),
        Base::Char => Some(Outcome::Integer(char_of(words.sign))),
        Base::Short => Some(Outcome::Integer(short_of(words.sign))),
        Base::ShortInt => Some(Outcome::Integer(short_of(words.sign))),
        Base::Int => Some(Outcome::Integer(int_of(words.sign))),
    }
}

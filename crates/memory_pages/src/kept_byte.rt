//! A byte as a slot keeps it.

ghost use Rattle.std.specs.Prelude.{◌≡◌, IsTrue, IfOk, Some};
ghost use Rattle.strided_rules.specs.Strides.{IsStride};
ghost use Rattle.memory_pages.specs.KeptBytes.{byte_of, eight, narrow_byte, IsKept};

use crate::byte::{Byte, same_byte};
use interval_congruence::Strided;
use std::alloc::{AllocError, Global};
use std::marker::Model;

/// Words of 8 bits by their low end, width and step, and the flags of the byte.
#[derive(Clone, Copy, Debug, PartialEq, Eq, Drop)]
struct Narrow {
    lo: i8,
    width: u8,
    step: u8,
    u: bool,
    p: bool,
}

/// The flags of a byte without words, words of 8 bits, or a byte with words of another size, in a room of its own.
#[derive(Debug, Drop)]
enum Form {
    Bare(bool, bool),
    Narrow(Narrow),
    Wide(Box<Byte>),
}

/// A byte, in 16 bytes of memory where its words, if there are some, have 8 bits.
#[derive(Debug, Drop)]
pub(crate) struct KeptByte {
    form: Form,
}

impl Model for KeptByte {
    ghost use Rattle.memory_pages.specs.declared.byte.Byte.{Byte};

    ghost Value = { Byte };

    ghost use Rattle.memory_pages.specs.KeptBytes.{byte_of, IsKept};

    ghost view = { λ kept. byte_of kept.form };

    ghost invariant = { λ kept. IsKept kept.form };
}

/// The words of 8 bits with this low end, width and step.
fn words_of(lo: i8, width: u8, step: u8) -> Strided
    requires { IsStride (eight lo width step) }
    ensures { result ≡ eight lo width step }
{
    if width == 0 && lo >= 0 {
        return Strided::one_word(8, lo as u64);
    }
    let low = lo as i128;
    Strided::norm(8, low, low + width as i128, step as i128)
}

/// The byte of words of 8 bits.
fn wide_byte(narrow: Narrow) -> Byte
    requires { IsStride (eight narrow.lo narrow.width narrow.step) }
    ensures { result ≡ narrow_byte narrow }
{
    Byte {
        value: Some(words_of(narrow.lo, narrow.width, narrow.step)),
        u: narrow.u,
        p: narrow.p,
    }
}

/// Words of 8 bits, and flags.
fn narrowed(words: Strided, u: bool, p: bool) -> Narrow
    requires { words.size ≡ 8 }
    ensures byte { narrow_byte result ≡ record { value = Some words; u = u; p = p } }
    ensures kept { IsStride (eight result.lo result.width result.step) }
{
    let _ = words.numbers();
    let lo = words.lo();
    Narrow {
        lo: lo as i8,
        width: (words.hi() - lo) as u8,
        step: words.step() as u8,
        u,
        p,
    }
}

/// The byte in a room of its own.
fn in_room(alloc: Global, byte: &Byte) -> Result<Form, AllocError>
    ensures byte { IfOk result (λ form. byte_of form ≡ byte.now) }
    ensures kept { IfOk result IsKept }
{
    match Box::new(alloc, *byte) {
        Ok(room) => Ok(Form::Wide(room)),
        Err(_) => Err(AllocError),
    }
}

/// The form of a byte.
fn form_of(alloc: Global, byte: &Byte) -> Result<Form, AllocError>
    ensures byte { IfOk result (λ form. byte_of form ≡ byte.now) }
    ensures kept { IfOk result IsKept }
{
    match byte.value {
        None => Ok(Form::Bare(byte.u, byte.p)),
        Some(words) => {
            if words.size() == 8 {
                Ok(Form::Narrow(narrowed(words, byte.u, byte.p)))
            } else {
                in_room(alloc, byte)
            }
        }
    }
}

/// A copy of the form.
fn copied(alloc: Global, form: &Form) -> Result<Form, AllocError>
    requires { IsKept form.now }
    ensures byte { IfOk result (λ copy. byte_of copy ≡ byte_of form.now) }
    ensures kept { IfOk result IsKept }
{
    match form {
        Form::Bare(u, p) => Ok(Form::Bare(*u, *p)),
        Form::Narrow(narrow) => Ok(Form::Narrow(*narrow)),
        Form::Wide(byte) => in_room(alloc, byte),
    }
}

/// Both are the same words and flags.
fn same_narrow(a: Narrow, b: Narrow) -> bool
    ensures { IsTrue result → a ≡ b }
{
    a == b
}

/// True only where both are forms of the same byte.
fn same_form(a: &Form, b: &Form) -> bool
    ensures { IsTrue result → byte_of a.now ≡ byte_of b.now }
{
    match (a, b) {
        (Form::Bare(u, p), Form::Bare(v, q)) => *u == *v && *p == *q,
        (Form::Narrow(first), Form::Narrow(second)) => same_narrow(*first, *second),
        (Form::Wide(first), Form::Wide(second)) => same_byte(**first, **second),
        _ => false,
    }
}

/// True only where the narrow words are these.
fn are_words(narrow: Narrow, words: Option<Strided>) -> bool
    ensures { IsTrue result → words ≡ Some (eight narrow.lo narrow.width narrow.step) }
{
    match words {
        None => false,
        Some(words) => {
            words.size() == 8
                && words.lo() == narrow.lo as i128
                && words.hi() == narrow.lo as i128 + narrow.width as i128
                && words.step() == narrow.step as i128
        }
    }
}

/// True only where it is the form of this byte.
fn is_form(form: &Form, byte: &Byte) -> bool
    ensures { IsTrue result → byte_of form.now ≡ byte.now }
{
    match form {
        Form::Bare(u, p) => *u == byte.u && *p == byte.p && byte.value.is_none(),
        Form::Narrow(narrow) => {
            narrow.u == byte.u && narrow.p == byte.p && are_words(*narrow, byte.value)
        }
        Form::Wide(own) => same_byte(**own, *byte),
    }
}

impl KeptByte {
    /// The byte, kept. Takes memory only where its words have not 8 bits.
    pub fn of(alloc: Global, byte: &Byte) -> Result<KeptByte, AllocError>
        ensures { IfOk result (λ kept. kept ≡ byte.now) }
    {
        let form = form_of(alloc, byte)?;
        Ok(KeptByte { form })
    }

    /// The byte.
    pub fn byte(&self) -> Byte
        ensures { result ≡ self.now }
    {
        match &self.form {
            Form::Bare(u, p) => Byte {
                value: None,
                u: *u,
                p: *p,
            },
            Form::Narrow(narrow) => wide_byte(*narrow),
            Form::Wide(byte) => **byte,
        }
    }

    /// A copy of it.
    pub fn copy(&self, alloc: Global) -> Result<KeptByte, AllocError>
        ensures { IfOk result (λ copy. copy ≡ self.now) }
    {
        let form = copied(alloc, &self.form)?;
        Ok(KeptByte { form })
    }

    /// True only where both are the same byte.
    pub fn is_same(&self, other: &KeptByte) -> bool
        ensures { IsTrue result → self.now ≡ other.now }
    {
        same_form(&self.form, &other.form)
    }

    /// True only where it is this byte.
    pub fn is(&self, byte: &Byte) -> bool
        ensures { IsTrue result → self.now ≡ byte.now }
    {
        is_form(&self.form, byte)
    }
}

//! The tokens of a text, as ranges of its bytes.

ghost use Rattle.std.specs.Prelude.{◌≡◌, take, drop};

/// A token of a text: how many bytes stand before it, and how many it has.
#[derive(Clone, Copy, Debug)]
pub struct Span {
    pub start: usize,
    pub len: usize,
}

/// The bytes of a range, as far as the text has them. Takes no memory.
pub fn range(text: &[u8], span: Span) -> &[u8]
    ensures { result.now ≡ take span.len (drop span.start text.now) }
{
    let start = span.start.min(text.len());
    let rest = &text[start..];
    let len = span.len.min(rest.len());
    &rest[..len]
}

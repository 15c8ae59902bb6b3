//! One byte.

ghost use Rattle.std.specs.Prelude.{◌≡◌, ◌↔◌, IsTrue};

use interval_congruence::Strided;

/// A byte: words of 8 bits, if there are some, and two flags. `u`: perhaps it has no store. `p`: perhaps its
/// newest store is of a pointer.
#[derive(Clone, Copy, Debug, Drop)]
pub struct Byte {
    pub value: Option<Strided>,
    pub u: bool,
    pub p: bool,
}

/// Both have the same words, or none.
fn same_words(a: Option<Strided>, b: Option<Strided>) -> bool
    ensures { IsTrue result ↔ a ≡ b }
{
    a == b
}

/// True only where both are the same byte.
pub(crate) fn same_byte(a: Byte, b: Byte) -> bool
    ensures { IsTrue result → a ≡ b }
{
    a.u == b.u && a.p == b.p && same_words(a.value, b.value)
}

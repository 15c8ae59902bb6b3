//! Lists: their loop is written once.

ghost use Rattle.std.specs.Prelude.{◌≡◌, Bool, true, map, None};
ghost use Rattle.grammar.specs.Form.{At};
ghost use Rattle.grammar.specs.Rule.{Rule, many};
ghost use Rattle.grammar.specs.Reading.{Reading, Reads};

use std::alloc::Global;

/// What stands in a list that a reader of type `R` reads: where the list goes on, and how one part
/// of it is read.
///
/// A part is a value, so that its rule may have arguments, as the word that each part begins with.
pub trait Part<R>: Sized {
    /// What is read.
    type Value: Drop;

    /// Why reading ended: the text departs, or memory ran out.
    type Error: Drop;

    /// What the reader and its errors stand for.
    ghost reading: { Reading R Self.Error };

    /// What is seen of a value.
    ghost Seen: { Type 0 };

    ghost view: { Self.Value → Seen };

    ghost goes_on: { Self → At reading.Token reading.Room → Bool };

    ghost rule: { Self → Rule reading.Token reading.Room reading.Fault true Seen };

    /// Whether the list goes on. Nothing is taken.
    fn begins(&self, reader: &R) -> bool
        ensures { result ≡ goes_on self.now (reading.position reader.now) };

    fn read(&self, reader: &mut R) -> Result<Self::Value, Self::Error>
        ensures { Reads reading (rule self.now) view result reader.old reader.new };

    /// Memory ran out.
    fn memory() -> Self::Error
        ensures { reading.fault_of result ≡ None };
}

/// Parts as long as the list goes on. Takes memory for the list.
pub fn many<R, P: Part<R>>(
    alloc: Global,
    part: &P,
    reader: &mut R,
) -> Result<Vec<P::Value>, P::Error>
    ensures { Reads P.reading (many (P.goes_on part.now) (P.rule part.now)) (λ x. map P.view x.items) result reader.old
        reader.new }
{
    let mut values = Vec::new(alloc);
    while part.begins(reader) {
        let value = part.read(reader)?;
        let Ok(()) = values.push(value) else {
            return Err(P::memory());
        };
    }
    Ok(values)
}

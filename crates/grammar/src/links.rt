ghost use Rattle.std.specs.Prelude.{◌≡◌, Bool, true};
ghost use Rattle.grammar.specs.Form.{At};
ghost use Rattle.grammar.specs.Rule.{Rule};
ghost use Rattle.grammar.specs.Reading.{Reading, Reads};
ghost use Rattle.grammar.specs.Chain.{grow};

/// What a chain consists of that a reader of type `R` reads: where it goes on, and how the next part
/// takes in the value so far.
pub trait Link<R>: Sized {
    /// What is made.
    type Value: Drop;

    /// Why reading ended: the text departs, or memory ran out.
    type Error: Drop;

    /// What the reader and its errors stand for.
    ghost reading: { Reading R Self.Error };

    /// What is seen of a value.
    ghost Seen: { Type 0 };

    ghost view: { Self.Value → Seen };

    ghost goes_on: { Self → Seen → At reading.Token reading.Room → Bool };

    ghost rule: { Self → Seen → Rule reading.Token reading.Room reading.Fault true Seen };

    /// Whether the chain goes on after this value. Nothing is taken.
    fn begins(&self, value: &Self::Value, reader: &R) -> bool
        ensures { result ≡ goes_on self.now (view value.now) (reading.position reader.now) };

    fn take(&self, value: Self::Value, reader: &mut R) -> Result<Self::Value, Self::Error>
        ensures { Reads reading (rule self.now (view value)) view result reader.old reader.new };
}

/// The value after as many parts as the chain goes on for.
pub fn grow<R, L: Link<R>>(link: &L, value: L::Value, reader: &mut R) -> Result<L::Value, L::Error>
    ensures { Reads L.reading (grow (L.goes_on link.now) (L.rule link.now) (L.view value)) L.view result reader.old
        reader.new }
{
    let mut value = value;
    while link.begins(&value, reader) {
        match link.take(value, reader) {
            Ok(next) => value = next,
            Err(error) => return Err(error),
        }
    }
    Ok(value)
}

//! What is counted while a text is read, and the calls that are counted.

ghost use Rattle.c_grammar.specs.Tokens.{one_function, some_frames, some_elements, declares};
ghost use Rattle.c_grammar.specs.Expressions.{call_frame};
ghost use Rattle.c_reader.specs.Reading.{Reads};

use crate::fault::Departure;
use crate::reader::Reader;
use c_unit::{MOST_ELEMENTS, MOST_FRAMES, MOST_FUNCTIONS};
use flow_base::Which;

impl<'a> Reader<'a> {
    /// Counts one more function that is defined.
    #[tactic(auto, unfolding(c_grammar::specs::Tokens::one_function))]
    pub fn one_function(&mut self) -> Result<(), Departure>
        ensures { Reads one_function (λ x. x) result self.old self.new }
    {
        if 1 <= self.functions {
            self.functions -= 1;
            Ok(())
        } else {
            Err(Departure::Limit(Which::Functions, MOST_FUNCTIONS + 1))
        }
    }

    /// Counts so many more frames: of variables, and of what calls give.
    #[tactic(auto, unfolding(c_grammar::specs::Tokens::some_frames))]
    pub fn some_frames(&mut self, count: u64) -> Result<(), Departure>
        ensures { Reads (some_frames count) (λ x. x) result self.old self.new }
    {
        if count <= self.frames {
            self.frames -= count;
            Ok(())
        } else {
            Err(Departure::Limit(Which::Frames, MOST_FRAMES + 1))
        }
    }

    /// Counts so many more elements of arrays.
    #[tactic(auto, unfolding(c_grammar::specs::Tokens::some_elements))]
    pub fn some_elements(&mut self, count: u32) -> Result<(), Departure>
        ensures { Reads (some_elements count) (λ x. x) result self.old self.new }
    {
        if u64::from(count) <= self.elements {
            self.elements -= u64::from(count);
            Ok(())
        } else {
            Err(Departure::Limit(Which::Elements, MOST_ELEMENTS + 1))
        }
    }

    /// The function with this name is declared.
    #[tactic(auto, unfolding(c_grammar::specs::Tokens::declares))]
    pub fn declares(&mut self, name: &'a [u8], gives: bool) -> Result<(), Departure>
        ensures { Reads (declares name.now gives) (λ x. x) result self.old self.new }
    {
        self.names.declare(name, gives)?;
        Ok(())
    }

    /// A call of a function that gives a value has a frame.
    #[tactic(auto, unfolding(c_grammar::specs::Expressions::call_frame))]
    pub fn call_frame(&mut self, name: &[u8]) -> Result<(), Departure>
        ensures { Reads (call_frame name.now) (λ x. x) result self.old self.new }
    {
        if self.names.gives_value(name) {
            self.some_frames(1)
        } else {
            Ok(())
        }
    }
}

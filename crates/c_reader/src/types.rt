//! Types, constants and arrays.

ghost use Rattle.std.specs.Prelude.{◌≡◌, ◌∷◌, IfOk};
ghost use Rattle.std.specs.Option.{option_map};
ghost use Rattle.grammar.specs.Rule.{maybe, many};
ghost use Rattle.c_grammar.specs.Types.{specifier, type_told, type_of, integer_told, integer_type, const_word, star};
ghost use Rattle.c_grammar.specs.Types.{pointer_to, pointer_stars, minus_sign, minus_constant, plain_constant};
ghost use Rattle.c_grammar.specs.Types.{signed_constant, assign_mark, comma_mark, after_constant, at_further, element};
ghost use Rattle.c_grammar.specs.Types.{further_element, at_list_comma, close_brace, elements, element_list, at_assign};
ghost use Rattle.c_grammar.specs.Types.{left_bracket, right_bracket, array_size, after_array, array};
ghost use Rattle.c_reader.specs.Reading.{position, Reads};

use crate::fault::{Departure, misfit};
use crate::parts::{Consts, Elements, Words};
use crate::reader::{Reader, begins_with};
use c_grammar::{Base, NextWord, Others, Setting, Sign, Specifiers, outcome_of, with_word};
use c_unit::{Constant, Integer, Outcome, Scalar, range};
use grammar::{grow, many};
use std::alloc::{AllocError, Global};

/// What might stand after a constant.
pub fn after_constant() -> Others
    ensures { result ≡ after_constant }
{
    Others::Rest {
        unary: true,
        comma: false,
    }
}

fn after_array(elements: &Option<Vec<Constant>>) -> Others
    ensures { result ≡ after_array (option_map (λ cs. cs.items) elements.now) }
{
    match elements {
        None => Others::Brackets,
        Some(_) => Others::Nothing,
    }
}

fn with_first(
    alloc: Global,
    first: Constant,
    others: &[Constant],
) -> Result<Vec<Constant>, AllocError>
    ensures { IfOk result (λ all. all.items ≡ first ∷ others.now) }
{
    let mut all = Vec::new(alloc);
    all.push(first)?;
    all.extend_from_slice(others)?;
    Ok(all)
}

impl<'a> Reader<'a> {
    /// A word of a type after these.
    #[tactic(auto, unfolding(c_grammar::specs::Types::specifier))]
    pub fn specifier(
        &mut self,
        setting: Setting,
        words: Specifiers,
    ) -> Result<Specifiers, Departure>
        ensures { Reads (specifier setting words) (λ x. x) result self.old self.new }
    {
        let token = self.token()?;
        match with_word(setting, words, token.symbol) {
            NextWord::Fits(words) => Ok(words),
            NextWord::Outside => Err(Departure::OutOfProfile(token.number)),
            NextWord::Wrong => Err(misfit(&token, Others::Nothing)),
        }
    }

    #[tactic(auto, unfolding(c_grammar::specs::Types::type_told))]
    fn type_told(&mut self, words: Specifiers) -> Result<Outcome, Departure>
        ensures { Reads (type_told words) (λ x. x) result self.old self.new }
    {
        match outcome_of(words) {
            Some(outcome) => Ok(outcome),
            None => Err(self.misfit_next(Others::Nothing)),
        }
    }

    /// The words of a type.
    #[tactic(auto, unfolding(c_grammar::specs::Types::type_of))]
    pub fn type_of(&mut self, setting: Setting) -> Result<Outcome, Departure>
        ensures { Reads (type_of setting) (λ x. x) result self.old self.new }
    {
        let none = Specifiers {
            base: Base::Unsaid,
            sign: Sign::Unsaid,
            is_static: false,
            is_const: false,
        };
        let first = self.specifier(setting, none)?;
        let words = grow(&Words { setting }, first, self)?;
        let outcome = self.type_told(words)?;
        Ok(outcome)
    }

    /// The type is an integer type.
    #[tactic(auto, unfolding(c_grammar::specs::Types::integer_told))]
    pub fn integer_told(&mut self, others: Others, outcome: Outcome) -> Result<Integer, Departure>
        ensures { Reads (integer_told others outcome) (λ x. x) result self.old self.new }
    {
        match outcome {
            Outcome::Integer(integer) => Ok(integer),
            Outcome::Nothing => Err(self.misfit_next(others)),
        }
    }

    /// A type of integers that may stand in this setting.
    #[tactic(auto, unfolding(c_grammar::specs::Types::integer_type))]
    pub fn integer_type(&mut self, setting: Setting) -> Result<Integer, Departure>
        ensures { Reads (integer_type setting) (λ x. x) result self.old self.new }
    {
        let outcome = self.type_of(setting)?;
        let integer = self.integer_told(Others::Nothing, outcome)?;
        Ok(integer)
    }

    /// The word `const`.
    #[tactic(auto, unfolding(c_grammar::specs::Types::const_word))]
    pub fn const_word(&mut self) -> Result<(), Departure>
        ensures { Reads const_word (λ x. x) result self.old self.new }
    {
        self.mark(b"const", Others::Nothing)?;
        Ok(())
    }

    /// A star, and `const` as often as it stands.
    #[tactic(auto, unfolding(c_grammar::specs::Types::star))]
    pub fn star(&mut self) -> Result<(), Departure>
        ensures { Reads star (λ x. x) result self.old self.new }
    {
        self.mark(b"*", Others::Nothing)?;
        let _consts = many(self.alloc, &Consts, self)?;
        Ok(())
    }

    #[tactic(auto, unfolding(c_grammar::specs::Types::pointer_to))]
    fn pointer_to(&mut self, integer: Integer) -> Result<Scalar, Departure>
        ensures { Reads (pointer_to integer) (λ x. x) result self.old self.new }
    {
        self.star()?;
        Ok(Scalar::Pointer(integer))
    }

    /// A pointer where a star comes next.
    #[tactic(auto, unfolding(c_grammar::specs::Types::pointer_stars))]
    pub fn pointer_stars(&mut self, pointer: bool, integer: Integer) -> Result<Scalar, Departure>
        ensures { Reads (pointer_stars pointer integer) (λ x. x) result self.old self.new }
    {
        if pointer {
            self.pointer_to(integer)
        } else {
            Ok(Scalar::Integer(integer))
        }
    }

    #[tactic(auto, unfolding(c_grammar::specs::Types::minus_sign))]
    fn minus_sign(&mut self) -> Result<(), Departure>
        ensures { Reads minus_sign (λ x. x) result self.old self.new }
    {
        self.mark(b"-", Others::Nothing)?;
        Ok(())
    }

    #[tactic(auto, unfolding(c_grammar::specs::Types::minus_constant))]
    fn minus_constant(&mut self) -> Result<Constant, Departure>
        ensures { Reads minus_constant (λ x. x) result self.old self.new }
    {
        self.minus_sign()?;
        let (token, _value) = self.constant(Others::Expressions)?;
        Ok(Constant { minus: true, token })
    }

    #[tactic(auto, unfolding(c_grammar::specs::Types::plain_constant))]
    fn plain_constant(&mut self, others: Others) -> Result<Constant, Departure>
        ensures { Reads (plain_constant others) (λ x. x) result self.old self.new }
    {
        let (token, _value) = self.constant(others)?;
        Ok(Constant {
            minus: false,
            token,
        })
    }

    /// A constant, with a minus or without.
    #[tactic(auto, unfolding(c_grammar::specs::Types::signed_constant, c_grammar::specs::Tokens::sees))]
    pub fn signed_constant(&mut self, others: Others) -> Result<Constant, Departure>
        ensures { Reads (signed_constant others) (λ x. x) result self.old self.new }
    {
        if self.at(b"-") {
            let constant = self.minus_constant()?;
            Ok(constant)
        } else {
            let constant = self.plain_constant(others)?;
            Ok(constant)
        }
    }

    /// The sign `=`: its number as a token.
    #[tactic(auto, unfolding(c_grammar::specs::Types::assign_mark))]
    pub fn assign_mark(&mut self) -> Result<u32, Departure>
        ensures { Reads assign_mark (λ x. x) result self.old self.new }
    {
        let number = self.mark(b"=", Others::Nothing)?;
        Ok(number)
    }

    /// A comma.
    #[tactic(auto, unfolding(c_grammar::specs::Types::comma_mark))]
    pub fn comma_mark(&mut self) -> Result<(), Departure>
        ensures { Reads comma_mark (λ x. x) result self.old self.new }
    {
        self.mark(b",", Others::Nothing)?;
        Ok(())
    }

    /// Whether an element comes next, after a comma.
    pub fn at_further(&self) -> bool
        ensures { result ≡ at_further (position self.now) }
    {
        match self.rest.split_first() {
            Some((token, others)) => {
                range(self.text, token.span) == b",".as_slice()
                    && !begins_with(self.text, others, b"}")
            }
            None => false,
        }
    }

    #[tactic(auto, unfolding(c_grammar::specs::Types::element))]
    fn element(&mut self) -> Result<Constant, Departure>
        ensures { Reads element (λ x. x) result self.old self.new }
    {
        let constant = self.signed_constant(Others::ExpressionsAndBraces)?;
        self.before_either(b",", b"}", after_constant())?;
        Ok(constant)
    }

    /// One more element of a list in braces, after its comma.
    #[tactic(auto, unfolding(c_grammar::specs::Types::further_element))]
    pub fn further_element(&mut self) -> Result<Constant, Departure>
        ensures { Reads further_element (λ x. x) result self.old self.new }
    {
        self.comma_mark()?;
        let constant = self.element()?;
        Ok(constant)
    }

    /// The closing brace of a list.
    #[tactic(auto, unfolding(c_grammar::specs::Types::close_brace))]
    pub fn close_brace(&mut self) -> Result<(), Departure>
        ensures { Reads close_brace (λ x. x) result self.old self.new }
    {
        self.mark(b"}", Others::Nothing)?;
        Ok(())
    }

    fn maybe_comma(&mut self) -> Result<Option<()>, Departure>
        ensures { Reads (maybe at_list_comma comma_mark) (λ x. x) result self.old self.new }
    {
        if !self.at(b",") {
            return Ok(None);
        }
        self.comma_mark()?;
        Ok(Some(()))
    }

    fn further_elements(&mut self) -> Result<Vec<Constant>, Departure>
        ensures { Reads (many at_further further_element) (λ x. x.items) result self.old self.new }
    {
        let elements = many(self.alloc, &Elements, self)?;
        Ok(elements)
    }

    // Elements, and the brace after them.
    #[tactic(auto, unfolding(c_grammar::specs::Types::elements))]
    fn elements(&mut self) -> Result<Vec<Constant>, Departure>
        ensures { Reads elements (λ x. x.items) result self.old self.new }
    {
        let first = self.element()?;
        let others = self.further_elements()?;
        self.maybe_comma()?;
        self.close_brace()?;
        Ok(with_first(self.alloc, first, others.as_slice())?)
    }

    #[tactic(auto, unfolding(c_grammar::specs::Types::element_list))]
    fn element_list(&mut self) -> Result<Vec<Constant>, Departure>
        ensures { Reads element_list (λ x. x.items) result self.old self.new }
    {
        self.assign_mark()?;
        self.mark(b"{", Others::Expressions)?;
        let elements = self.elements()?;
        Ok(elements)
    }

    fn maybe_elements(&mut self) -> Result<Option<Vec<Constant>>, Departure>
        ensures { Reads (maybe at_assign element_list) (option_map (λ cs. cs.items)) result self.old self.new }
    {
        if !self.at(b"=") {
            return Ok(None);
        }
        let elements = self.element_list()?;
        Ok(Some(elements))
    }

    /// The opening bracket of a size.
    #[tactic(auto, unfolding(c_grammar::specs::Types::left_bracket))]
    pub fn left_bracket(&mut self) -> Result<(), Departure>
        ensures { Reads left_bracket (λ x. x) result self.old self.new }
    {
        self.mark(b"[", Others::Nothing)?;
        Ok(())
    }

    /// The closing bracket of a size, where these others might stand.
    #[tactic(auto, unfolding(c_grammar::specs::Types::right_bracket))]
    pub fn right_bracket(&mut self, others: Others) -> Result<(), Departure>
        ensures { Reads (right_bracket others) (λ x. x) result self.old self.new }
    {
        self.mark(b"]", others)?;
        Ok(())
    }

    #[tactic(auto, unfolding(c_grammar::specs::Types::array_size))]
    fn array_size(&mut self) -> Result<u32, Departure>
        ensures { Reads array_size (λ x. x) result self.old self.new }
    {
        self.left_bracket()?;
        let (token, value) = self.constant(Others::Sizes)?;
        self.some_elements(value)?;
        self.right_bracket(after_constant())?;
        Ok(token)
    }

    /// The size of an array in brackets, and its first elements, if they are there.
    #[tactic(auto, unfolding(c_grammar::specs::Types::array))]
    pub fn array(&mut self) -> Result<(u32, Option<Vec<Constant>>), Departure>
        ensures { Reads array (λ x. (x.0, option_map (λ cs. cs.items) x.1)) result self.old self.new }
    {
        let size = self.array_size()?;
        let elements = self.maybe_elements()?;
        self.before_either(b",", b";", after_array(&elements))?;
        Ok((size, elements))
    }
}

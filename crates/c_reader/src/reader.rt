//! A place in a text, and what is read of single tokens there.

ghost use Rattle.std.specs.Prelude.{◌≡◌, None, Some, IfOk, IfErr, map};
ghost use Rattle.std.specs.Str.{bytes_eq};
ghost use Rattle.grammar.specs.Form.{first, first_of, after};
ghost use Rattle.c_grammar.specs.Symbols.{starts_type, is_specifier, is_step, is_label, is_name};
ghost use Rattle.c_grammar.specs.Tokens.{is_first, misfit_next, mark, name, constant, at_text, at_symbol, next_number};
ghost use Rattle.c_grammar.specs.Tokens.{before, before_either};
ghost use Rattle.c_grammar.specs.Expressions.{some_token};
ghost use Rattle.c_reader.specs.declared.fault.Departure.TheVariants.{Syntax};
ghost use Rattle.c_reader.specs.Reading.{seen, seen_in, position, fault_of, Reads};

use crate::fault::{Departure, misfit};
use crate::names::Names;
use crate::tokens::{CutToken, Token};
use c_grammar::{Others, Symbol, is_specifier, starts_type};
use c_unit::range;
use std::alloc::Global;

/// A place in a text, and what there may still be of what is counted.
#[derive(Drop)]
pub struct Reader<'a> {
    pub alloc: Global,
    pub text: &'a [u8],
    pub rest: &'a [CutToken],
    pub functions: u64,
    pub frames: u64,
    pub elements: u64,
    pub names: Names<'a>,
}

// The token with its bytes.
fn taken<'a>(text: &'a [u8], token: CutToken) -> Token<'a>
    ensures { seen result ≡ seen_in text.now token }
{
    Token {
        symbol: token.symbol,
        number: token.number,
        text: range(text, token.span),
    }
}

/// Whether the first of the tokens has this text.
pub fn begins_with(whole: &[u8], tokens: &[CutToken], text: &[u8]) -> bool
    ensures { result
        ≡ is_first (λ token. bytes_eq token.text text.now) (first_of (map (seen_in whole.now) tokens.now)) }
{
    match tokens.first() {
        Some(token) => range(whole, token.span) == text,
        None => false,
    }
}

impl<'a> Reader<'a> {
    /// Takes the next token. At the end of the text none fits.
    pub fn token(&mut self) -> Result<Token<'a>, Departure>
        ensures found { IfOk result (λ token. first (position self.old) ≡ Some (seen token)) }
        ensures rest { IfOk result (λ token. position self.new ≡ after (position self.old)) }
        ensures end { IfErr result (λ departure. (departure ≡ Syntax None) × (first (position self.old) ≡ None)) }
    {
        let [token, others @ ..] = self.rest else {
            return Err(Departure::Syntax(None));
        };
        self.rest = others;
        Ok(taken(self.text, *token))
    }

    /// Whether the next token has this text.
    pub fn at(&self, text: &[u8]) -> bool
        ensures { result ≡ at_text text.now (position self.now) }
    {
        match self.rest.first() {
            Some(token) => range(self.text, token.span) == text,
            None => false,
        }
    }

    /// The departure where the next token does not fit.
    pub fn misfit_next(&self, others: Others) -> Departure
        ensures { fault_of result ≡ Some (misfit_next others (first (position self.now))) }
    {
        match self.rest.first() {
            Some(token) => misfit(&taken(self.text, *token), others),
            None => Departure::Syntax(None),
        }
    }

    /// The number of the next token.
    #[tactic(auto, unfolding(c_grammar::specs::Tokens::next_number))]
    pub fn next_number(&mut self) -> Result<u32, Departure>
        ensures { Reads next_number (λ x. x) result self.old self.new }
    {
        match self.rest.first() {
            Some(token) => Ok(token.number),
            None => Ok(0),
        }
    }

    /// The token with this text.
    #[tactic(auto, unfolding(c_grammar::specs::Tokens::mark))]
    pub fn mark(&mut self, text: &[u8], others: Others) -> Result<u32, Departure>
        ensures { Reads (mark text.now others) (λ x. x) result self.old self.new }
    {
        let token = self.token()?;
        if token.text == text {
            Ok(token.number)
        } else {
            Err(misfit(&token, others))
        }
    }

    /// Any token.
    #[tactic(auto, unfolding(c_grammar::specs::Expressions::some_token))]
    pub fn some_token(&mut self) -> Result<Token<'a>, Departure>
        ensures { Reads some_token seen result self.old self.new }
    {
        let token = self.token()?;
        Ok(token)
    }

    /// A name, where these others might stand.
    #[tactic(auto, unfolding(c_grammar::specs::Tokens::name))]
    pub fn name(&mut self, others: Others) -> Result<Token<'a>, Departure>
        ensures { Reads (name others) seen result self.old self.new }
    {
        let token = self.token()?;
        match token.symbol {
            Symbol::Name => Ok(token),
            _ => Err(misfit(&token, others)),
        }
    }

    /// A constant: its number as a token, and its value.
    #[tactic(auto, unfolding(c_grammar::specs::Tokens::constant))]
    pub fn constant(&mut self, others: Others) -> Result<(u32, u32), Departure>
        ensures { Reads (constant others) (λ x. x) result self.old self.new }
    {
        let token = self.token()?;
        match token.symbol {
            Symbol::Constant(value) => Ok((token.number, value)),
            _ => Err(misfit(&token, others)),
        }
    }

    /// The next token has this text.
    #[tactic(auto, unfolding(c_grammar::specs::Tokens::before))]
    pub fn before(&mut self, text: &[u8], others: Others) -> Result<(), Departure>
        ensures { Reads (before text.now others) (λ x. x) result self.old self.new }
    {
        if self.at(text) {
            Ok(())
        } else {
            Err(self.misfit_next(others))
        }
    }

    /// The next token has one of these texts.
    #[tactic(auto, unfolding(c_grammar::specs::Tokens::before_either))]
    pub fn before_either(
        &mut self,
        text: &[u8],
        other: &[u8],
        others: Others,
    ) -> Result<(), Departure>
        ensures { Reads (before_either text.now other.now others) (λ x. x) result self.old self.new }
    {
        if self.at(text) || self.at(other) {
            Ok(())
        } else {
            Err(self.misfit_next(others))
        }
    }

    /// Whether a type begins.
    pub fn at_type(&self) -> bool
        ensures { result ≡ at_symbol starts_type (position self.now) }
    {
        match self.rest.first() {
            Some(token) => starts_type(token.symbol),
            None => false,
        }
    }

    /// Whether a word of a type comes next.
    pub fn at_specifier(&self) -> bool
        ensures { result ≡ at_symbol is_specifier (position self.now) }
    {
        match self.rest.first() {
            Some(token) => is_specifier(token.symbol),
            None => false,
        }
    }

    /// Whether `++` or `--` comes next.
    pub fn at_step(&self) -> bool
        ensures { result ≡ at_symbol is_step (position self.now) }
    {
        match self.rest.first() {
            Some(token) => match token.symbol {
                Symbol::Step(_) => true,
                _ => false,
            },
            None => false,
        }
    }

    /// Whether a label of a switch begins.
    pub fn at_label(&self) -> bool
        ensures { result ≡ at_symbol is_label (position self.now) }
    {
        match self.rest.first() {
            Some(token) => match token.symbol {
                Symbol::Label => true,
                _ => false,
            },
            None => false,
        }
    }

    /// Whether a name comes next.
    pub fn at_name(&self) -> bool
        ensures { result ≡ at_symbol is_name (position self.now) }
    {
        match self.rest.first() {
            Some(token) => match token.symbol {
                Symbol::Name => true,
                _ => false,
            },
            None => false,
        }
    }
}

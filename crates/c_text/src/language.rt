//! Texts and what they mean.

ghost use Rattle.std.specs.Prelude.{◌≡◌, ℕ, List, map, true, Ok, Err, IfOk, IfErr, IfSome};
ghost use Rattle.std.specs.List.{list_all};
ghost use Rattle.c_tokens.specs.Printed.{can_print};
ghost use Rattle.c_unit.specs.Tree.{external_of};
ghost use Rattle.c_tokens.specs.Tokens.{tokens_of};
ghost use Rattle.c_unit.specs.Units.{unit_of};
ghost use Rattle.c_unit.specs.Texts.{texts_of};
ghost use Rattle.c_grammar.specs.Units.{unit};
ghost use Rattle.c_reader.specs.Reading.{seen_in, word_in, numbered, fault_of};
ghost use Rattle.grammar.specs.Form.{Fails};
ghost use Rattle.c_text.specs.Language.{start, SpellsTrees, Means, HasOneMeaning, departure_of};

use crate::departures::told;
use crate::externals::read_unit;
use crate::fault::CTextFault;
use crate::laws::spelled_units_are_read_back;
use c_reader::{CutToken, Departure, Names, Reader, cut, spans};
use c_unit::{CUnit, External, MOST_ELEMENTS, MOST_FRAMES, MOST_FUNCTIONS};
use std::alloc::{AllocError, Global};

/// The unit that a text spells, or the text's first departure from the grammar.
///
/// The text is cut into tokens once and read in one pass, in time in proportion to it. Each token
/// takes 48 bytes of memory at most while it is read, and 16 in the unit, beside the trees and the names
/// of functions. Reading goes as deep as parentheses, operators and statements may be nested, and no
/// deeper.
pub fn read(alloc: Global, bytes: &[u8]) -> Result<CUnit, CTextFault>
    // A text means one thing (`one_meaning`), and this is it.
    ensures spelled { IfOk result (λ unit. Means bytes.now (Ok (unit_of unit))) }
    ensures departs { IfErr result
        (λ fault. IfSome (departure_of fault) (λ departure. Means bytes.now (Err departure))) }
    // The condition of `print`.
    ensures printed { IfOk result (λ unit. list_all can_print (texts_of (unit_of unit)) ≡ true) }
{
    spelled_units_are_read_back();
    let Ok(all) = cut(alloc, bytes) else {
        return Err(CTextFault::Memory);
    };
    let tokens = all.as_slice();
    match read_externals(alloc, bytes, tokens) {
        Ok(externals) => match whole_unit(alloc, bytes, tokens, externals) {
            Ok(unit) => Ok(unit),
            Err(_) => Err(CTextFault::Memory),
        },
        Err(departure) => Err(told(alloc, bytes, tokens, departure)),
    }
}

/// Each text spells exactly one unit, or has exactly one first departure.
pub fn one_meaning()
    ensures { (bytes : List ℕ) → HasOneMeaning bytes }
{}

// What stands at file level of a text, which was cut into these tokens.
fn read_externals(
    alloc: Global,
    bytes: &[u8],
    tokens: &[CutToken],
) -> Result<Vec<External>, Departure>
    requires { map (seen_in bytes.now) tokens.now ≡ numbered 0 (tokens_of bytes.now) }
    ensures trees { IfOk result (λ externals. SpellsTrees bytes.now (map external_of externals.items)) }
    ensures fails { IfErr result (λ departure. Fails (fault_of departure) (unit.form.reading (start bytes.now))) }
{
    let mut reader = Reader {
        alloc,
        text: bytes,
        rest: tokens,
        functions: MOST_FUNCTIONS,
        frames: MOST_FRAMES,
        elements: MOST_ELEMENTS,
        names: Names::new(alloc),
    };
    match read_unit(&mut reader) {
        Ok(externals) => Ok(externals),
        Err(departure) => Err(departure),
    }
}

// A text with its tokens and trees.
#[tactic(auto, using(crate::proofs::Meaning::same_words))]
fn whole_unit(
    alloc: Global,
    bytes: &[u8],
    tokens: &[CutToken],
    externals: Vec<External>,
) -> Result<CUnit, AllocError>
    ensures { IfOk result
        (λ unit. unit_of unit
        ≡ record { words = map (word_in bytes.now) tokens.now; externals = map external_of externals.items }) }
{
    let text = bytes.to_vec(alloc)?;
    let tokens = spans(alloc, tokens)?;
    Ok(CUnit {
        text,
        tokens,
        externals,
    })
}

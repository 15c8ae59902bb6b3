//! All of a unit.

ghost use Rattle.std.specs.Prelude.{◌≡◌, map, IfOk};
ghost use Rattle.c_unit.specs.declared.unit.CUnit.{CUnit};
ghost use Rattle.c_unit.specs.contracts.unit.CUnit as e;
ghost use Rattle.c_unit.specs.Units.{unit_of};
ghost use Rattle.c_meaning.specs.Objects as meaning;
ghost use Rattle.c_lowered.specs.Names as names;
ghost use Rattle.object_layout.specs.Views.{object_of, program_in, named_function, signature_of, signature_or_none};
ghost use Rattle.object_layout.specs.Tables.{IsTable};
ghost use Rattle.object_layout.specs.Room.{HasRoom};

use crate::frames::frame_names;
use crate::object::Object;
use crate::objects::objects_of;
use crate::signature::{Signature, signatures};
use c_scopes::{Definitions, Words};
use c_unit::{CUnit, Outcome, Parameter};
use flow_base::Name;
use std::alloc::{AllocError, Global};
use std::marker::Model;

/// The objects and functions of a unit with their names, seen as the unit.
#[derive(Drop)]
pub struct Table<'a> {
    unit: &'a CUnit,
    words: Words<'a>,
    objects: Vec<Object>,
    frames: Vec<Name>,
    functions: Definitions<'a>,
    signatures: Vec<Signature<'a>>,
}

impl<'a> Model for Table<'a> {
    ghost Value = { CUnit };

    ghost coded = { e.the_row.coded };

    ghost view = { λ table. table.unit.now };

    ghost invariant = { λ table. IsTable (unit_of table.unit.now) table.words (map object_of table.objects.items) table.frames.items table.functions (map signature_of table.signatures.items) };
}

impl<'a> Table<'a> {
    /// The table of this unit.
    pub fn of(alloc: Global, unit: &'a CUnit) -> Result<Self, AllocError>
        requires { HasRoom (unit_of unit.now) }
        ensures { IfOk result (λ table. table ≡ unit.now) }
    {
        let words = Words::of(unit);
        let functions = Definitions::of(alloc, unit)?;
        let objects = objects_of(alloc, &words, unit)?;
        let frames = frame_names(alloc, unit, &words, &functions, &objects)?;
        let signatures = signatures(alloc, &unit.externals)?;
        Ok(Table {
            unit,
            words,
            objects,
            frames,
            functions,
            signatures,
        })
    }

    /// The words of the unit. Takes no memory.
    pub fn words(&self) -> &Words<'a>
        ensures { result.now ≡ (unit_of self.now).words }
    {
        &self.words
    }

    /// The objects, in order. Takes no memory.
    pub fn objects(&self) -> &[Object]
        ensures { map object_of result.now ≡ (program_in self.now).objects }
    {
        self.objects.as_slice()
    }

    /// The name of the frame of what the token declares; none where it declares no object. Takes no memory.
    pub fn frame_of(&self, token: u32) -> &[u8]
        ensures { result.now ≡ names.frame_of (program_in self.now) token }
    {
        match self.frames.get(place_of(&self.objects, token)) {
            Some(name) => name.bytes(),
            None => &[],
        }
    }

    /// The name of a function by its number. Takes no memory.
    pub fn function_name(&self, number: u32) -> &[u8]
        ensures { result.now ≡ names.function_name (program_in self.now) number }
    {
        self.functions.text_of(number)
    }

    /// What a function gives, by its number; nothing where there is none. Takes no memory.
    pub fn result_at(&self, number: u32) -> Outcome
        ensures { result ≡ (meaning.function_at (program_in self.now) number).result }
    {
        result_at(&self.signatures, number as usize)
    }

    /// What the function gives whose name stands at the token; nothing where none is defined. Takes no memory.
    pub fn result_of(&self, token: u32) -> Outcome
        ensures { result ≡ (named_function (program_in self.now) token).result }
    {
        match self.functions.number_at(token) {
            Some(number) => result_at(&self.signatures, number),
            None => Outcome::Nothing,
        }
    }

    /// Its parameters; none where it is not defined. Takes no memory.
    pub fn parameters_of(&self, token: u32) -> &[Parameter]
        ensures { result.now ≡ (named_function (program_in self.now) token).parameters }
    {
        match self.functions.number_at(token) {
            Some(number) => parameters_at(&self.signatures, number),
            None => &[],
        }
    }
}

// What a function gives, by its number.
fn result_at(signatures: &[Signature<'_>], number: usize) -> Outcome
    ensures { result ≡ (signature_or_none (map signature_of signatures.now) number).result }
{
    match signatures.get(number) {
        Some(signature) => signature.result,
        None => Outcome::Nothing,
    }
}

// Its parameters.
fn parameters_at<'a>(signatures: &[Signature<'a>], number: usize) -> &'a [Parameter]
    ensures { result.now ≡ (signature_or_none (map signature_of signatures.now) number).parameters }
{
    match signatures.get(number) {
        Some(signature) => signature.parameters,
        None => &[],
    }
}

// The number of the object that this token declares; where there is none, the number after the last.
fn place_of(objects: &[Object], token: u32) -> usize
    ensures { result ≡ meaning.object_at (map object_of objects.now) token }
{
    let mut place = 0;
    let mut rest = objects;
    'objects: while let Some((object, others)) = rest.split_first() {
        if object.token == token {
            return place;
        }
        place += 1;
        rest = others;
    }
    place
}

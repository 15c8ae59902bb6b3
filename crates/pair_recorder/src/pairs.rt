//! Which two nodes of a scope a run visits in one iteration of it.

ghost use Rattle.std.specs.Prelude.{◌≡◌, ◌*◌, ◌<◌, ◌↔◌, ℕ, List, length, IfOk, OnOk};
ghost use Rattle.domain_core.specs.Outlines.{Outlined, shape_of};
ghost use Rattle.recorder_rules.specs.PairRules.{PairBook, both_seen, pair_recording, together};
ghost use Rattle.recorder_rules.specs.BitWords.{words_for, AreOwned};
ghost use Rattle.recorder_rules.specs.Seen.{pair_book};
ghost use Rattle.pair_recorder.specs.Forms.{count_of, sighted, IsKept, IsPath, IsPathOf};
ghost use Rattle.pair_recorder.specs.Paths.{IsSmall};

use crate::bits::{bits_begun, bits_finish, bits_go, bits_joined};
use crate::path::{is_path_of, path_begun, path_bits, path_finish, path_goes};
use crate::seen::{Seen, is_small};
use crate::tables::owned_bits;
use crate::words::{is_marked_at, words};
use domain_core::{Lattice, Outline, Recorder};
use std::alloc::{AllocError, Global};
use std::marker::Model;

/// The nodes in the order in which they were entered, as long as nothing was joined, or a bit for each
/// node, and after these for each two. Either with the number of nodes, which takes no room beside the tag.
#[derive(Drop)]
enum Form {
    Path(u32, Vec<Seen>),
    Bits(u32, Vec<u64>),
}

/// The nodes that are seen in the current iterations of their scopes, and which two of them stand in
/// one.
#[derive(Drop)]
pub struct Pairs {
    form: Form,
}

impl Model for Pairs {
    ghost use Rattle.recorder_rules.specs.PairRules.{Sightings};
    ghost use Rattle.pair_recorder.specs.Forms.{sighted, IsKept};

    ghost Value = { Sightings };

    ghost view = { λ pairs. sighted pairs.form };

    ghost invariant = { λ pairs. IsKept pairs.form };
}

/// The pairs that were collected, as bits, and for each scope the nodes that it is the own scope of.
#[derive(Drop)]
pub struct PairsBook {
    count: u32,
    scopes: u32,
    owned: Vec<u64>,
    rows: Vec<u64>,
}

impl Model for PairsBook {
    ghost use Rattle.recorder_rules.specs.PairRules.{PairBook};
    ghost use Rattle.recorder_rules.specs.Seen.{pair_book, IsSizedBook};

    ghost Value = { PairBook };

    ghost view = { λ book. pair_book book.count book.scopes book.owned.items book.rows.items };

    ghost invariant = { λ book. IsSizedBook book.count book.scopes book.owned.items book.rows.items };
}

impl PairsBook {
    /// Whether an iteration of their scope was collected that has both nodes. Recorders enter pairs
    /// of one scope alone, which no clause says of a book.
    pub fn together(&self, a: u32, b: u32) -> bool
        requires a { a < length self.now.pairs }
        requires b { b < length self.now.pairs }
        ensures { result ≡ together self.now a b }
    {
        let width = words(self.count);
        is_marked_at(&self.rows, a as usize * width, b)
            || is_marked_at(&self.rows, b as usize * width, a)
    }
}

/// What either has seen, as bits.
fn joined(alloc: Global, first: &Form, second: &Form) -> Result<Form, AllocError>
    requires first { IsKept first.now }
    requires second { IsKept second.now }
    requires counts { count_of first.now ≡ count_of second.now }
    ensures both { IfOk result (λ form. sighted form ≡ both_seen (sighted first.now) (sighted second.now)) }
    ensures kept { IfOk result IsKept }
{
    match (first, second) {
        (Form::Bits(count, one), Form::Bits(_, other)) => {
            Ok(Form::Bits(*count, bits_joined(alloc, *count, one, other)?))
        }
        (Form::Bits(count, one), Form::Path(_, path)) => {
            let other = path_bits(alloc, *count, path)?;
            Ok(Form::Bits(*count, bits_joined(alloc, *count, one, &other)?))
        }
        (Form::Path(count, path), Form::Bits(_, other)) => {
            let one = path_bits(alloc, *count, path)?;
            Ok(Form::Bits(*count, bits_joined(alloc, *count, &one, other)?))
        }
        (Form::Path(count, path), Form::Path(_, another)) => {
            let one = path_bits(alloc, *count, path)?;
            let other = path_bits(alloc, *count, another)?;
            Ok(Form::Bits(*count, bits_joined(alloc, *count, &one, &other)?))
        }
    }
}

/// A copy, with no room to spare.
fn copied(alloc: Global, form: &Form) -> Result<Form, AllocError>
    requires { IsKept form.now }
    ensures same { IfOk result (λ copy. sighted copy ≡ sighted form.now) }
    ensures path { IfOk result (λ copy. IsPath copy ↔ IsPath form.now) }
    ensures kept { IfOk result IsKept }
{
    match form {
        Form::Path(count, path) => Ok(Form::Path(*count, Vec::from_slice(alloc, path)?)),
        Form::Bits(count, bits) => Ok(Form::Bits(*count, Vec::from_slice(alloc, bits)?)),
    }
}

/// Node 0 alone is seen, as a path where numbers have 16 bits.
fn begun(alloc: Global, outline: &Outline) -> Result<Form, AllocError>
    ensures begun { IfOk result (λ form. sighted form ≡ pair_recording.first outline.now) }
    ensures path { IfOk result (λ form. IsPath form ↔ IsSmall outline.now) }
    ensures kept { IfOk result IsKept }
{
    let count = outline.node_count();
    if is_small(outline) {
        Ok(Form::Path(count, path_begun(alloc, outline)?))
    } else {
        Ok(Form::Bits(count, bits_begun(alloc, outline)?))
    }
}

/// A step. What is a path of the outline stays one.
fn step(
    alloc: Global,
    outline: &Outline,
    owned: &[u64],
    form: &mut Form,
    rows: &mut [u64],
    from: u32,
    to: u32,
) -> Result<(), AllocError>
    requires from { from < length outline.now.nodes }
    requires to { to < length outline.now.nodes }
    requires kept { IsKept form.old }
    requires count { count_of form.old ≡ length outline.now.nodes }
    requires rows { length rows.old ≡ length outline.now.nodes * words_for (length outline.now.nodes) }
    requires owned_length { length owned.now ≡ length outline.now.scopes * words_for (length outline.now.nodes) }
    requires owned { AreOwned (shape_of outline.now) (length outline.now.scopes) (length outline.now.nodes)
        (words_for (length outline.now.nodes)) owned.now }
    ensures gone { OnOk result
        ((b : PairBook) → sighted form.new ≡ pair_recording.gone outline.now (sighted form.old) b from to) }
    ensures collected { OnOk result
        ((s : ℕ)
        → pair_book (length outline.now.nodes) s owned.now rows.new
        ≡ pair_recording.gone_book outline.now (sighted form.old)
        (pair_book (length outline.now.nodes) s owned.now rows.old) from to) }
    ensures kept { IsKept form.new }
    ensures path { OnOk result (IsPath form.new ↔ IsPathOf outline.now form.old) }
{
    match form {
        Form::Path(count, path) => {
            if is_path_of(outline, path) {
                path_goes(alloc, outline, path, rows, from, to)
            } else {
                let count = *count;
                let mut bits = path_bits(alloc, count, path)?;
                bits_go(alloc, outline, owned, &mut bits, rows, from, to)?;
                *form = Form::Bits(count, bits);
                Ok(())
            }
        }
        Form::Bits(_, bits) => bits_go(alloc, outline, owned, bits, rows, from, to),
    }
}

/// Adds the pairs to those that were collected.
fn collect(alloc: Global, form: &Form, rows: &mut [u64]) -> Result<(), AllocError>
    requires kept { IsKept form.now }
    requires rows { length rows.old ≡ count_of form.now * words_for (count_of form.now) }
    ensures { OnOk result
        ((o : Outlined) (s k : ℕ) (owned : List ℕ) → count_of form.now ≡ length o.nodes
        → pair_book (count_of form.now) s owned rows.new
        ≡ pair_recording.finished o (sighted form.now) (pair_book (count_of form.now) s owned rows.old) k) }
{
    match form {
        Form::Path(count, path) => path_finish(alloc, *count, path, rows),
        Form::Bits(count, bits) => {
            bits_finish(*count, bits, rows);
            Ok(())
        }
    }
}

impl Lattice for Pairs {
    ghost use Rattle.recorder_rules.specs.PairRules.{pair_order};
    ghost use Rattle.recorder_rules.specs.PairLaws.{pair_is_order};

    ghost order = { pair_order };

    ghost is_order = { pair_is_order };

    fn copy(&self, alloc: Global) -> Result<Self, AllocError> {
        let form = copied(alloc, &self.form)?;
        Ok(Pairs { form })
    }

    fn join(&self, alloc: Global, other: &Self) -> Result<Self, AllocError> {
        let form = joined(alloc, &self.form, &other.form)?;
        Ok(Pairs { form })
    }
}

impl Recorder for Pairs {
    ghost use Rattle.recorder_rules.specs.PairRules.{pair_recording};
    ghost use Rattle.recorder_rules.specs.PairLaws.{pair_is_recording};

    type Book = PairsBook;

    ghost recording = { pair_recording };

    ghost is_recording = { pair_is_recording };

    fn book(alloc: Global, outline: &Outline) -> Result<PairsBook, AllocError> {
        outline.kept();
        let count = outline.node_count();
        let scopes = outline.scope_count();
        let width = words(count);
        let owned = owned_bits(alloc, outline)?;
        let rows = vec![in alloc; 0u64; count as usize * width]?;
        Ok(PairsBook {
            count,
            scopes,
            owned,
            rows,
        })
    }

    fn start(alloc: Global, outline: &Outline) -> Result<Self, AllocError> {
        let form = begun(alloc, outline)?;
        Ok(Pairs { form })
    }

    fn go(
        &mut self,
        alloc: Global,
        outline: &Outline,
        book: &mut PairsBook,
        from: u32,
        to: u32,
    ) -> Result<(), AllocError> {
        outline.kept();
        let form = &mut self.form;
        step(alloc, outline, &book.owned, form, &mut book.rows, from, to)?;
        Ok(())
    }

    fn finish(
        &self,
        alloc: Global,
        outline: &Outline,
        book: &mut PairsBook,
        _last: u32,
    ) -> Result<(), AllocError> {
        outline.kept();
        collect(alloc, &self.form, &mut book.rows)?;
        Ok(())
    }
}

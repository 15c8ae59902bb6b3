//! Values as texts.
//!
//! A value has parts with `|` between them: words, as `w32:0,7`, of which the join from the left is meant, or offsets
//! in a frame, as `p1:4`. It is told by its ends and its step, as `w32:0..7/7`.

ghost use Rattle.std.specs.Prelude.{◌≡◌, IsTrue};
ghost use Rattle.domain_core.specs.WordSets.{IsWordSize};
ghost use Rattle.memory_rules.specs.Covers.{IsCellSize};
ghost use Rattle.pointer_rules.specs.AbstractValues.{HasSize};
ghost use Rattle.pointer_rules.specs.Covering.{IsValue};

use alf_ops::RunFault;
use domain_core::{FaultSet, Lattice};
use interval_congruence::Strided;
use pointer_domain::AVal;
use std::alloc::{AllocError, Global};

/// The number of a text, or 0.
pub(crate) fn number(text: &str) -> u64 {
    text.parse::<u64>().unwrap_or(0)
}

/// The small number of a text, or 0.
pub(crate) fn small(text: &str) -> u32 {
    text.parse::<u32>().unwrap_or(0)
}

/// The part of the text at this place, where a mark stands between two.
pub(crate) fn field<'a>(text: &'a str, mark: &str, place: usize) -> &'a str {
    text.split(mark).nth(place).unwrap_or("")
}

/// The size of a cell.
pub(crate) fn is_cell(size: u32) -> bool
    ensures { IsTrue result → IsCellSize size }
{
    8 <= size && size <= 64 && size % 8 == 0
}

/// The value has words and pointers of this size alone.
pub(crate) fn has_size(value: &AVal, size: u32) -> bool
    ensures { IsTrue result → HasSize value.now size }
{
    let words = match value.int() {
        None => true,
        Some(words) => words.size() == size,
    };
    words && (value.at().is_empty() || size == 32)
}

/// The same, of a value as memory takes it.
pub(crate) fn is_value(value: &AVal, size: u32) -> bool
    ensures { IsTrue result → IsValue size value.now }
{
    let _places = value.at();
    has_size(value, size)
}

/// The size of a value.
pub(crate) fn width(value: &AVal) -> u32 {
    match value.int() {
        None => 32,
        Some(words) => words.size(),
    }
}

/// The join of two values of one size.
pub(crate) fn joined(alloc: Global, a: &AVal, b: &AVal) -> Result<AVal, AllocError> {
    let size = width(a);
    if is_value(a, size) && is_value(b, size) {
        a.join(alloc, b)
    } else {
        a.copy(alloc)
    }
}

// Words of a size, told one by one.
fn words(size: u32, text: &str) -> Strided
    requires { IsWordSize size }
    ensures { result.size ≡ size }
{
    let mut set = Strided::one_word(size, number(field(text, ",", 0)));
    for member in text.split(",") {
        set = set.join(Strided::one_word(size, number(member)));
    }
    set
}

// One part of a value.
fn part(alloc: Global, text: &str) -> Result<AVal, AllocError> {
    let (kind, members) = (field(text, ":", 0), field(text, ":", 1));
    if let Some(frame) = kind.strip_prefix("p") {
        return AVal::pointer(alloc, small(frame), words(32, members));
    }
    let size = small(kind.strip_prefix("w").unwrap_or(""));
    if size < 1 || 64 < size {
        return Ok(AVal::word(alloc, Strided::one_word(1, 0)));
    }
    Ok(AVal::word(alloc, words(size, members)))
}

/// The value of a text.
pub(crate) fn value(alloc: Global, text: &str) -> Result<AVal, AllocError> {
    let mut whole = part(alloc, field(text, "|", 0))?;
    for other in text.split("|") {
        let other = part(alloc, other)?;
        whole = joined(alloc, &whole, &other)?;
    }
    Ok(whole)
}

// Tells a number.
fn tell_number(alloc: Global, text: &mut String, number: i128) -> Result<(), AllocError> {
    let positive = (number.unsigned_abs() % 18446744073709551616) as u64;
    if number < 0 {
        text.push_str("-")?;
    }
    let digits = format!(in alloc; "{positive}")?;
    text.push_str(digits.as_str())
}

// Tells words or offsets.
fn tell_set(alloc: Global, text: &mut String, set: Strided) -> Result<(), AllocError> {
    tell_number(alloc, text, set.lo())?;
    if set.lo() < set.hi() {
        text.push_str("..")?;
        tell_number(alloc, text, set.hi())?;
        text.push_str("/")?;
        tell_number(alloc, text, set.step())?;
    }
    Ok(())
}

// Tells a value, or that there is none.
fn tell_value(alloc: Global, text: &mut String, value: &Option<AVal>) -> Result<(), AllocError> {
    let Some(value) = value else {
        return text.push_str("none");
    };
    let mut mark = "";
    if let Some(words) = value.int() {
        let size = words.size();
        let head = format!(in alloc; "w{size}:")?;
        text.push_str(head.as_str())?;
        tell_set(alloc, text, words)?;
        mark = "|";
    }
    for (frame, offsets) in value.at() {
        let head = format!(in alloc; "{mark}p{frame}:")?;
        text.push_str(head.as_str())?;
        tell_set(alloc, text, *offsets)?;
        mark = "|";
    }
    Ok(())
}

// The faults that a memory may have, with what is told of them.
static FAULTS: [(RunFault, &str); 7] = [
    (RunFault::Uninit, " uninit"),
    (RunFault::Mixed, " mixed"),
    (RunFault::Bounds, " bounds"),
    (RunFault::Dead, " dead"),
    (RunFault::Kind, " kind"),
    (RunFault::Divide, " divide"),
    (RunFault::Pointers, " pointers"),
];

/// Tells the faults that a memory may have.
pub(crate) fn tell_faults(text: &mut String, faults: FaultSet) -> Result<(), AllocError> {
    for (fault, name) in &FAULTS {
        if faults.has(*fault) {
            text.push_str(name)?;
        }
    }
    Ok(())
}

/// A value with faults.
pub(crate) fn told(
    alloc: Global,
    value: &Option<AVal>,
    faults: FaultSet,
) -> Result<String, AllocError> {
    let mut text = String::new(alloc);
    tell_value(alloc, &mut text, value)?;
    tell_faults(&mut text, faults)?;
    Ok(text)
}

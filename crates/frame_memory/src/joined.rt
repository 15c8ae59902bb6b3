//! What a weak store makes of a byte and of a cell.

ghost use Rattle.std.specs.Prelude.{◌≡◌, IfOk, IfSome, Some};
ghost use Rattle.strided_rules.specs.Strides.{joined as joined_words_of};
ghost use Rattle.pointer_rules.specs.AbstractValues.{AreAlike, joined as joined_of};
ghost use Rattle.memory_rules.specs.AbstractSets.{abstract_sets};
ghost use Rattle.memory_rules.specs.Frames.{either, weak_byte as weak_byte_of, weak_cell as weak_cell_of};
ghost use Rattle.memory_model.specs.HeldFrames.{byte_held, byte_seen};
ghost use Rattle.frame_memory.specs.StandingCells.{seen};

use domain_core::Lattice;
use interval_congruence::Strided;
use memory_pages::{Byte, Held};
use pointer_domain::AVal;
use std::alloc::{AllocError, Global};

/// The join where there are words on both sides.
fn joined_words(a: Option<Strided>, b: Option<Strided>) -> Option<Strided>
    requires { IfSome a (λ x. IfSome b (λ y. x.size ≡ y.size)) }
    ensures { result ≡ either joined_words_of a b }
{
    match (a, b) {
        (None, b) => b,
        (Some(a), None) => Some(a),
        (Some(a), Some(b)) => Some(Strided::join(a, b)),
    }
}

/// The byte, which perhaps has become the new one.
pub(crate) fn weak_byte(old: &Byte, new: &Byte) -> Byte
    requires { IfSome old.now.value (λ x. IfSome new.now.value (λ y. x.size ≡ y.size)) }
    ensures { result ≡ byte_held (weak_byte_of abstract_sets (byte_seen old.now) (byte_seen new.now)) }
{
    Byte {
        value: joined_words(old.value, new.value),
        u: old.u,
        p: old.p || new.p,
    }
}

/// The join with the value, where there are values.
fn joined_value(alloc: Global, old: &Option<AVal>, value: &AVal) -> Result<AVal, AllocError>
    requires { IfSome old.now (λ x. AreAlike x value.now) }
    ensures { IfOk result (λ joined. Some joined ≡ either joined_of old.now (Some value.now)) }
{
    match old {
        None => value.copy(alloc),
        Some(old) => old.join(alloc, value),
    }
}

/// The cell, which perhaps has become this value.
pub(crate) fn weak_cell(alloc: Global, old: &Held, value: &AVal) -> Result<Held, AllocError>
    requires { IfSome old.now.value (λ x. AreAlike x value.now) }
    ensures { IfOk result (λ cell. seen cell ≡ weak_cell_of abstract_sets (seen old.now) value.now) }
{
    let joined = joined_value(alloc, &old.value, value)?;
    Ok(Held {
        value: Some(joined),
        u: old.u,
        x: old.x,
    })
}

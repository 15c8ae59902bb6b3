//! What loads gave.

ghost use Rattle.std.specs.Prelude.{◌≡◌, IfOk, Some};
ghost use Rattle.pointer_rules.specs.AbstractValues.{joined};
ghost use Rattle.memory_rules.specs.AbstractSets.{abstract_sets};
ghost use Rattle.memory_rules.specs.Frames.{either, value_result, word_result};
ghost use Rattle.frame_memory.specs.LoadedResults.{HaveSize, onto, told as told_of, words_of};

use alf_ops::RunFault;
use domain_core::{FaultSet, Lattice};
use interval_congruence::Strided;
use pointer_domain::AVal;
use std::alloc::{AllocError, Global};

/// What loads gave so far: the values joined, if there are some, and the faults.
#[derive(Debug, Drop)]
pub struct Loaded {
    pub value: Option<AVal>,
    pub faults: FaultSet,
}

/// The value joined onto that before it, if there is one.
fn joined_onto(alloc: Global, before: Option<AVal>, new: &AVal) -> Result<AVal, AllocError>
    requires { HaveSize before (Some new.now) }
    ensures { IfOk result (λ value. Some value ≡ either joined before (Some new.now)) }
{
    match before {
        None => new.copy(alloc),
        Some(old) => old.join(alloc, new),
    }
}

/// Joins a value onto what was loaded before.
pub(crate) fn value_onto(
    alloc: Global,
    before: Loaded,
    value: &Option<AVal>,
) -> Result<Loaded, AllocError>
    requires { HaveSize before.value value.now }
    ensures { IfOk result (λ now. now ≡ onto before (value_result abstract_sets value.now)) }
{
    let Some(new) = value else {
        return Ok(before);
    };
    Ok(Loaded {
        value: Some(joined_onto(alloc, before.value, new)?),
        faults: before.faults,
    })
}

/// Joins words onto what was loaded before.
pub(crate) fn word_onto(
    alloc: Global,
    before: Loaded,
    word: Option<Strided>,
) -> Result<Loaded, AllocError>
    requires { HaveSize before.value (words_of word) }
    ensures { IfOk result (λ now. now ≡ onto before (word_result abstract_sets word)) }
{
    let Some(word) = word else {
        return Ok(before);
    };
    let new = AVal::word(alloc, word);
    Ok(Loaded {
        value: Some(joined_onto(alloc, before.value, &new)?),
        faults: before.faults,
    })
}

/// Tells the fault, if there is one.
pub(crate) fn fault_onto(before: Loaded, told: bool, fault: RunFault) -> Loaded
    ensures { result ≡ onto before (told_of told fault) }
{
    if told {
        Loaded {
            value: before.value,
            faults: before.faults.with(fault),
        }
    } else {
        before
    }
}

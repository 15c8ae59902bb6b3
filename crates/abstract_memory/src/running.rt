//! Which functions run.

ghost use Rattle.std.specs.Prelude.{◌≡◌, ◌≤◌, ◌<◌, IfOk, false, length, replicate, slice_set};
ghost use Rattle.abstract_memory.specs.Flags.{flags_of, AreFlags};

use std::alloc::{AllocError, Global};
use std::marker::Model;

/// Flags in place and how many of them count, or a list of flags in a room of its own.
#[derive(Drop)]
enum Flags {
    Few([bool; 14], u8),
    Many(Box<Vec<bool>>),
}

/// A flag for each function of a program, in place where there are no more than 14, which takes 16 bytes.
#[derive(Drop)]
pub(crate) struct Running {
    flags: Flags,
}

impl Model for Running {
    ghost use Rattle.std.specs.Prelude.{List, Bool};

    ghost Value = { List Bool };

    ghost use Rattle.abstract_memory.specs.Flags.{flags_of, AreFlags};

    ghost view = { λ running. flags_of running.flags };

    ghost invariant = { λ running. AreFlags running.flags };
}

/// The list in a room of its own.
fn in_room(alloc: Global, list: Vec<bool>) -> Result<Flags, AllocError>
    ensures flags { IfOk result (λ flags. flags_of flags ≡ list.items) }
    ensures are { IfOk result AreFlags }
{
    match Box::new(alloc, list) {
        Ok(room) => Ok(Flags::Many(room)),
        Err(_) => Err(AllocError),
    }
}

/// Flags that are not set.
fn idle_flags(alloc: Global, count: usize) -> Result<Flags, AllocError>
    ensures flags { IfOk result (λ flags. flags_of flags ≡ replicate count false) }
    ensures are { IfOk result AreFlags }
{
    if count <= 14 {
        Ok(Flags::Few([false; 14], count as u8))
    } else {
        in_room(alloc, vec![in alloc; false; count]?)
    }
}

/// The same flags.
fn copied_flags(alloc: Global, flags: &Flags) -> Result<Flags, AllocError>
    requires { AreFlags flags.now }
    ensures flags { IfOk result (λ copy. flags_of copy ≡ flags_of flags.now) }
    ensures are { IfOk result AreFlags }
{
    match flags {
        Flags::Few(own, count) => Ok(Flags::Few(*own, *count)),
        Flags::Many(list) => in_room(alloc, Vec::from_slice(alloc, list)?),
    }
}

/// The flags, one after the other.
fn seen_flags(flags: &Flags) -> &[bool]
    requires { AreFlags flags.now }
    ensures { result.now ≡ flags_of flags.now }
{
    match flags {
        Flags::Few(own, count) => &own[..*count as usize],
        Flags::Many(list) => list,
    }
}

/// Sets or clears one of the flags.
fn set_flag(flags: &mut Flags, at: usize, on: bool)
    requires are { AreFlags flags.old }
    requires place { at < length (flags_of flags.old) }
    ensures flags { flags_of flags.new ≡ slice_set (flags_of flags.old) at on }
    ensures are { AreFlags flags.new }
{
    match flags {
        Flags::Few(own, _) => own[at] = on,
        Flags::Many(list) => list[at] = on,
    }
}

impl Running {
    /// So many functions, none of which runs.
    pub fn idle(alloc: Global, count: usize) -> Result<Running, AllocError>
        ensures { IfOk result (λ running. running ≡ replicate count false) }
    {
        let flags = idle_flags(alloc, count)?;
        Ok(Running { flags })
    }

    /// The flags of the functions.
    pub fn as_slice(&self) -> &[bool]
        ensures { result.now ≡ self.now }
    {
        seen_flags(&self.flags)
    }

    /// Says of a function whether it runs. Takes no memory.
    pub fn set(&mut self, func: usize, runs: bool)
        requires { func < length self.old }
        ensures { self.new ≡ slice_set self.old func runs }
    {
        set_flag(&mut self.flags, func, runs);
    }

    /// The same flags.
    pub fn copy(&self, alloc: Global) -> Result<Running, AllocError>
        ensures { IfOk result (λ copy. copy ≡ self.now) }
    {
        let flags = copied_flags(alloc, &self.flags)?;
        Ok(Running { flags })
    }
}

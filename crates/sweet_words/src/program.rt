//! The command of `clap` that reads the words.
ghost use Rattle.std.specs.Prelude.{◌≡◌, ◌<◌, false, map, length, IfOk, []};
ghost use Rattle.clap.specs.Words.{app_of, rule_of, shape_of};
ghost use Rattle.clap.specs.declared.builder.command.Command.TheViews.{out-Command as fields_of};
ghost use Rattle.sweet_words.specs.Shapes.{program_of, shape_in, with_rules};
ghost use Rattle.sweet_words.specs.Views.{form_in, rule_at};

use crate::forms::Form;
use clap::{Arg, ArgAction, Command};
use std::alloc::{AllocError, Global};

/// Where an argument stands among the words.
#[derive(Clone, Copy)]
pub enum Place {
    /// By its place, and always.
    Positional,
    /// After its name.
    Value,
    /// As its name alone.
    Flag,
}

// An argument of this name.
fn argument<'a>(alloc: Global, place: Place, name: &'a str) -> Arg<'a>
    ensures rule { rule_of result ≡ rule_at place name.entry.now }
    ensures local { result.global ≡ false }
{
    let arg = Arg::new(alloc, name);
    match place {
        Place::Positional => arg.required(true).action(ArgAction::Set),
        Place::Value => arg.long(name).action(ArgAction::Set),
        Place::Flag => arg.long(name).action(ArgAction::SetTrue),
    }
}

// The command with an argument for each name.
fn with_arguments<'a>(
    alloc: Global,
    mut command: Command<'a>,
    place: Place,
    names: &[&'static str],
) -> Result<Command<'a>, AllocError>
    ensures app { IfOk result
        (λ c. app_of c ≡ with_rules (app_of command.entry) (map (λ name. rule_at place name.now) names.now)) }
    ensures local { IfOk result (λ c. (fields_of c).has_globals ≡ (fields_of command.entry).has_globals) }
{
    for name in names {
        command = command.arg(argument(alloc, place, *name))?;
    }
    Ok(command)
}

// The command of one form.
fn subcommand<'a>(alloc: Global, form: &Form) -> Result<Command<'a>, AllocError>
    ensures shape { IfOk result (λ c. shape_of c ≡ shape_in (form_in form.now)) }
    ensures local { IfOk result (λ c. (fields_of c).has_globals ≡ false) }
{
    let command = Command::new(alloc, form.name);
    let command = with_arguments(alloc, command, Place::Positional, form.positionals)?;
    let command = with_arguments(alloc, command, Place::Value, form.values)?;
    with_arguments(alloc, command, Place::Flag, form.flags)
}

/// The command of the whole program: a subcommand for each form, and no help or version.
pub fn program<'a>(alloc: Global, forms: &[Form]) -> Result<Command<'a>, AllocError>
    requires { 0 < length forms.now }
    ensures { IfOk result (λ c. app_of c ≡ program_of (map form_in forms.now)) }
{
    let mut command = Command::new(alloc, "sweet")
        .no_binary_name(true)
        .disable_help_flag(true)
        .disable_help_subcommand(true)
        .disable_version_flag(true)
        .subcommand_required(true);
    for form in forms {
        command = command.subcommand(subcommand(alloc, form)?)?;
    }
    Ok(command)
}

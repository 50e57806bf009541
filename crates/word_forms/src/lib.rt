//! Words behind a command's name, read as its arguments and options.
#![tactic(auto)]

ghost use Rattle.std.specs.Prelude.{◌≡◌, ◌↔◌, ◌≤◌, IfOk, length, false};
ghost use Rattle.std.specs.List.{list_any};
ghost use Rattle.clap.specs.Words.{app_of, rule_of};
ghost use Rattle.word_forms.specs.Form.{is_misread};
ghost use Rattle.word_forms.specs.Clap.{raw_argument, raw_option, raw_flag, app_for, form_by, bytes_of, IsReading};

use clap::error::ErrorKind;
use clap::{Arg, ArgAction, ArgMatches, Command};
use std::alloc::{AllocError, Global};

/// Why words were not read.
#[derive(Clone, Copy)]
pub enum FormStop {
    /// They haven't the form.
    Form,
    NoMemory,
}

impl From<AllocError> for FormStop {
    ghost use Rattle.word_forms.specs.declared.FormStop.TheVariants.{NoMemory};

    ghost from_gives = { λ _ stop. stop ≡ NoMemory };

    fn from(_error: AllocError) -> Self {
        FormStop::NoMemory
    }
}

/// Whether the word can't stand in any form: a dash alone or before another sign, or two dashes alone.
pub fn is_misread(word: &[u8]) -> bool
    ensures { result ≡ is_misread word.now }
{
    match word {
        [] => false,
        [first] => *first == b'-',
        [first, _second] => *first == b'-',
        [first, second, _third, ..] => *first == b'-' && *second != b'-',
    }
}

/// An argument that has to be given.
fn argument<'a>(alloc: Global, name: &'a str) -> Arg<'a>
    ensures rule { rule_of result ≡ raw_argument name.entry.now }
    ensures local { result.global ≡ false }
{
    Arg::new(alloc, name).action(ArgAction::Set).required(true)
}

/// An option with a value.
fn option<'a>(alloc: Global, name: &'a str) -> Arg<'a>
    ensures rule { rule_of result ≡ raw_option name.entry.now }
    ensures local { result.global ≡ false }
{
    Arg::new(alloc, name).long(name).action(ArgAction::Set)
}

/// An option without a value.
fn flag<'a>(alloc: Global, name: &'a str) -> Arg<'a>
    ensures rule { rule_of result ≡ raw_flag name.entry.now }
    ensures local { result.global ≡ false }
{
    Arg::new(alloc, name).long(name).action(ArgAction::SetTrue)
}

/// The description for clap of a form with these arguments, options and flags. It has no flag for help or the version.
fn command_of<'a>(
    alloc: Global,
    arguments: &'a [&'a str],
    options: &'a [&'a str],
    flags: &'a [&'a str],
) -> Result<Command<'a>, AllocError>
    ensures { IfOk result
        (λ command. app_of command ≡ app_for (form_by arguments.now options.now flags.now)) }
{
    let mut command = Command::new(alloc, "")
        .no_binary_name(true)
        .disable_help_flag(true);
    'arguments: for name in arguments {
        command = command.arg(argument(alloc, name))?;
    }
    'options: for name in options {
        command = command.arg(option(alloc, name))?;
    }
    'flags: for name in flags {
        command = command.arg(flag(alloc, name))?;
    }
    Ok(command)
}

/// Reads words as the values of a form's arguments and options, and as its flags, each named once.
///
/// An option is `--name value` or `--name=value`, a flag is `--name`, and each stands anywhere. `Form` comes where an option or a flag
/// isn't the form's or is given twice, where an option has no value or a flag has one, where an argument is missing, and where there is
/// one too many. A value may be in any form. `get_flag` tells of each flag whether it was given.
pub fn read_form<'a>(
    alloc: Global,
    arguments: &'a [&'a str],
    options: &'a [&'a str],
    flags: &'a [&'a str],
    words: &'a [String],
) -> Result<ArgMatches<'a>, FormStop>
    requires few { length arguments.now ≤ 1000 }
    requires right { list_any is_misread (bytes_of words.now) ≡ false }
    ensures { IsReading (form_by arguments.now options.now flags.now) (bytes_of words.now) result }
{
    let command = command_of(alloc, arguments, options, flags)?;
    match command.try_get_matches_from(words) {
        Ok(matches) => Ok(matches),
        Err(error) => Err(stop_of(error.kind())),
    }
}

fn stop_of(kind: ErrorKind) -> FormStop
    ensures { (result ≡ FormStop.NoMemory) ↔ (kind ≡ ErrorKind.OutOfMemory) }
{
    match kind {
        ErrorKind::OutOfMemory => FormStop::NoMemory,
        _ => FormStop::Form,
    }
}

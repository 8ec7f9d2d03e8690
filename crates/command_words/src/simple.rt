//! A simple command, read by `clap`.
ghost use Rattle.std.specs.Prelude.{◌≡◌, ◌≢◌, ◌≤◌, ℕ, IfOk, IfErr, Some, None, MatchResult, map};
ghost use Rattle.std.specs.Prelude.{drop, length, true};
ghost use Rattle.clap.specs.Words.{app_of, first_value, found_of, kind_of};
ghost use Rattle.clap.specs.declared.error.ErrorKind.TheVariants.{OutOfMemory as NoMemory};
ghost use Rattle.command_words.specs.Simple.{taken};
ghost use Rattle.command_words.specs.View.{form_row};
ghost use Rattle.command_words.specs.Clap.{texts, with_rules, place_rule, option_rule, switch_rule};
ghost use Rattle.command_words.specs.Clap.{Finds};

use crate::forms::Form;
use clap::error::ErrorKind;
use clap::{Arg, ArgAction, ArgMatches, Command, Error};
use std::alloc::{AllocError, Global};

/// Why words give nothing.
#[derive(Clone, Copy, Debug, PartialEq, Eq)]
pub enum WordStop {
    /// There was no memory to read them.
    OutOfMemory,
    /// They are no command.
    Usage,
}

impl From<AllocError> for WordStop {
    ghost use Rattle.command_words.specs.declared.simple.WordStop.{WordStop};

    ghost from_gives = { λ _ stop. stop ≡ WordStop.OutOfMemory };

    fn from(_: AllocError) -> Self {
        WordStop::OutOfMemory
    }
}

impl From<Error> for WordStop {
    ghost use Rattle.command_words.specs.Clap.{stop_by};

    ghost from_gives = { λ error stop. stop ≡ stop_by (kind_of error) };

    fn from(error: Error) -> Self {
        match error.kind() {
            ErrorKind::OutOfMemory => WordStop::OutOfMemory,
            _ => WordStop::Usage,
        }
    }
}

fn with_places<'a>(
    alloc: Global,
    command: Command<'a>,
    places: &'a [&'a str],
) -> Result<Command<'a>, AllocError>
    ensures { IfOk result (λ r. app_of r
        ≡ with_rules (app_of command.entry) (map place_rule (texts places.now))) }
{
    let mut command = command;
    for place in places {
        command = command.arg(Arg::new(alloc, place).required(true))?;
    }
    Ok(command)
}

fn with_options<'a>(
    alloc: Global,
    command: Command<'a>,
    options: &'a [&'a str],
) -> Result<Command<'a>, AllocError>
    ensures { IfOk result (λ r. app_of r
        ≡ with_rules (app_of command.entry) (map option_rule (texts options.now))) }
{
    let mut command = command;
    for option in options {
        command = command.arg(Arg::new(alloc, option).long(option))?;
    }
    Ok(command)
}

// A switch has no value, and stands for the empty one.
fn with_switches<'a>(
    alloc: Global,
    command: Command<'a>,
    switches: &'a [&'a str],
) -> Result<Command<'a>, AllocError>
    ensures { IfOk result (λ r. app_of r
        ≡ with_rules (app_of command.entry) (map switch_rule (texts switches.now))) }
{
    let mut command = command;
    for switch in switches {
        let arg = Arg::new(alloc, switch).long(switch);
        let arg = arg.action(ArgAction::Set).num_args(0);
        command = command.arg(arg.default_missing_value(""))?;
    }
    Ok(command)
}

// What the words after the first give to the simple command of a form.
pub(crate) fn parse<'a>(
    alloc: Global,
    form: Form,
    words: &'a [&'a str],
) -> Result<ArgMatches<'a>, WordStop>
    ensures { MatchResult result
        (λ m. Finds m (taken (form_row form).places (form_row form).options (drop 1 (texts words.now))))
        (λ stop. stop ≡ WordStop.Usage
        → taken (form_row form).places (form_row form).options (drop 1 (texts words.now)) ≡ None) }
{
    let command = Command::new(alloc, "h263rps").disable_help_flag(true);
    let command = with_places(alloc, command, form.places())?;
    let command = with_options(alloc, command, form.options())?;
    let command = with_switches(alloc, command, form.switches())?;
    Ok(command.try_get_matches_from(words)?)
}

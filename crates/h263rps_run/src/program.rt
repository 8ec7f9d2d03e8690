//! From the words of a command line to an exit status.
ghost use Rattle.std.specs.Prelude.{◌≡◌, List, [], ◌∷◌, Some};
ghost use Rattle.h263_outside.specs.Desk.{NoneAttached};
ghost use Rattle.h263_outside.specs.declared.desk.Role.TheVariants.{Report};
ghost use Rattle.command_words.specs.Asked.{HasNames, IsCommand};
ghost use Rattle.command_words.specs.Clap.{texts};
ghost use Rattle.command_words.specs.View.{asked_of};
ghost use Rattle.desk_program.specs.Attached.{AreAttached};
ghost use Rattle.h263rps_run.specs.Output.{command_of, word_stop};
ghost use Rattle.h263rps_run.specs.Promises.{IsRun};

use crate::commands::perform_command;
use crate::roles::put_roles;
use crate::{Status, laws};
use command_words::{WordStop, Words, laws as command_words_laws};
use desk_program::{attach_role, finish};
use h263_outside::{Desk, Role};
use std::alloc::Global;

// How a run ends whose words are no command.
fn unasked(stop: WordStop) -> Status
    ensures { result ≡ word_stop stop }
{
    match stop {
        WordStop::Usage => Status::Usage,
        WordStop::OutOfMemory => Status::OutOfMemory,
    }
}

// Runs the command of these words, on a desk with the report alone attached.
fn run_command<D: Desk>(alloc: Global, words: &Words<'_>, desk: &mut D) -> Status
    requires report { AreAttached ((Report, []) ∷ []) (D.outside desk.old) }
    requires ready { IsCommand (asked_of words.now).command }
    requires named { HasNames (asked_of words.now) }
    ensures { IsRun (Some (asked_of words.now)) result
        (D.outside desk.old) (D.outside desk.new) }
{
    laws::refused_videos();
    let mut places = [(Role::Report, ""); 6];
    let count = put_roles(words, &mut places);
    perform_command(alloc, words.command(), &places[..count], desk)
}

/// Runs the command that the words are, on a desk with nothing attached.
pub fn run<D: Desk>(alloc: Global, words: &[&str], desk: &mut D) -> Status
    requires { NoneAttached (D.outside desk.old).attached }
    ensures { IsRun
        (command_of (texts words.now)) result (D.outside desk.old) (D.outside desk.new) }
{
    command_words_laws::names_are_given();
    if let Err(status) = attach_role(desk, Role::Report, "") {
        return status;
    }
    match Words::read(alloc, words) {
        Ok(words) => run_command(alloc, &words, desk),
        Err(stop) => finish(desk, unasked(stop)),
    }
}

//! How a process of the program ends.
ghost use Rattle.std.specs.Prelude.{◌≡◌, IfErr, IfOk, OnErr, drop, map};
ghost use Rattle.std.specs.IoError.{error_kind};
ghost use Rattle.std.specs.Process.{exit_status};
ghost use Rattle.std.specs.String.{string_bytes};
ghost use Rattle.std.specs.Vec.Iter.{into_iter_items};
ghost use Rattle.h263_outside.specs.Desk.{NoneAttached};
ghost use Rattle.command_words.specs.Clap.{texts};
ghost use Rattle.call_report.specs.Status.{code_of};
ghost use Rattle.call_report.specs.declared.status.Status.TheVariants.{OutOfMemory};
ghost use Rattle.h263rps_run.specs.Output.{command_of, unread_words, words_in};
ghost use Rattle.h263rps_run.specs.Promises.{IsExit, IsRun};

use crate::{Status, run};
use h263_outside::Desk;
use std::alloc::{AllocError, Global};
use std::env::Args;
use std::io;
use std::process::ExitCode;

// The words: all arguments but the first, which is the program's name.
fn words_of(alloc: Global, args: Args) -> Result<Vec<String>, AllocError>
    ensures { IfOk result (λ words. words.items ≡ drop 1 (into_iter_items args)) }
{
    args.skip(1).collect(alloc)
}

// The words as texts.
fn texts_of(alloc: Global, words: &[String]) -> Result<Vec<&str>, AllocError>
    ensures { IfOk result (λ list. texts list.items ≡ map string_bytes words.now) }
{
    let mut texts = Vec::new(alloc);
    for word in words {
        texts.push(word.as_str())?;
    }
    Ok(texts)
}

// How a run ends whose arguments the host didn't give.
fn unread(kind: io::ErrorKind) -> Status
    ensures { result ≡ unread_words kind }
{
    match kind {
        io::ErrorKind::OutOfMemory => Status::OutOfMemory,
        _ => Status::Usage,
    }
}

/// How a process ends whose words are these texts. Where there was no memory for them nothing is
/// read or written.
pub fn code_of_words<D: Desk>(
    alloc: Global,
    words: Result<Vec<&str>, AllocError>,
    desk: &mut D,
) -> ExitCode
    requires { NoneAttached (D.outside desk.old).attached }
    ensures run { IfOk words.entry (λ list. IsExit (command_of (texts list.items))
        (exit_status result) (D.outside desk.old) (D.outside desk.new)) }
    ensures starved { OnErr words.entry (exit_status result ≡ code_of OutOfMemory) }
    ensures untouched { OnErr words.entry (desk.new ≡ desk.old) }
{
    match words {
        Ok(words) => ExitCode::from(run(alloc, &words, desk).code()),
        Err(_) => ExitCode::from(Status::OutOfMemory.code()),
    }
}

/// How the process ends to which the host gave these arguments: the status of a run whose words are
/// all of them but the first, the program's name. Where the host could not give them the desk is
/// left alone.
pub fn code_for<D: Desk>(alloc: Global, args: io::Result<Args>, desk: &mut D) -> ExitCode
    requires { NoneAttached (D.outside desk.old).attached }
    ensures run { IfOk args (λ all. IsExit (command_of (words_in (into_iter_items all)))
        (exit_status result) (D.outside desk.old) (D.outside desk.new)) }
    ensures unread { IfErr args
        (λ fault. exit_status result ≡ code_of (unread_words (error_kind fault))) }
    ensures untouched { OnErr args (desk.new ≡ desk.old) }
{
    let args = match args {
        Ok(args) => args,
        Err(fault) => return ExitCode::from(unread(fault.kind()).code()),
    };
    match words_of(alloc, args) {
        Ok(words) => code_of_words(alloc, texts_of(alloc, &words), desk),
        Err(fault) => code_of_words(alloc, Err(fault), desk),
    }
}

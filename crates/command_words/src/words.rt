//! The words of a command, read.
ghost use Rattle.std.specs.Prelude.{◌≡◌, ◌≤◌, IfOk, IfSome, MatchOption, MatchResult, None, Some};
ghost use Rattle.std.specs.Prelude.{drop, is_some, option_map, codes};
ghost use Rattle.h263_types.specs.Params.{IsParams};
ghost use Rattle.clap.specs.Words.{first_value, found_of};
ghost use Rattle.command_words.specs.Asked.{asked, asked_by, call_given, send_of, recv_of, demo_of};
ghost use Rattle.command_words.specs.Asked.{rate_of, audit_of, duplex_of, group_of, receivers_in};
ghost use Rattle.command_words.specs.Asked.{params_of, coding_of, timing_of, word_for, IsCommand};
ghost use Rattle.command_words.specs.Asked.{seed_in, frames_in, target_in, target_or_none};
ghost use Rattle.command_words.specs.Asked.{bucket_in};
ghost use Rattle.command_words.specs.Clap.{texts};
ghost use Rattle.command_words.specs.View.{asked_of, form_row};

use crate::command::Command;
use crate::forms::Form;
use crate::names::name_of;
use crate::simple::{WordStop, parse};
use crate::values::{byte_or, clock_or, format_or, number_of, number_or};
use clap::ArgMatches;
use h263_outside::Role;
use h263_types::{Format, Params};
use std::alloc::Global;

/// A command, and the words by which its roles are attached.
#[derive(Drop)]
pub struct Words<'a> {
    command: Command,
    given: ArgMatches<'a>,
}

fn coding(given: &ArgMatches<'_>, base: Params) -> Option<Params>
    ensures { result ≡ coding_of (first_value (found_of given.now)) base }
{
    Some(Params {
        quant: byte_or(given.get_str("quant"), base.quant)?,
        keep: byte_or(given.get_str("keep"), base.keep)?,
        radius: byte_or(given.get_str("radius"), base.radius)?,
        limit: number_or(given.get_str("limit"), base.limit)?,
        ..base
    })
}

fn timing(given: &ArgMatches<'_>, base: Params) -> Option<Params>
    ensures { result ≡ timing_of (first_value (found_of given.now)) base }
{
    Some(Params {
        slots: number_or(given.get_str("slots"), base.slots)?,
        lead: number_or(given.get_str("lead"), base.lead)?,
        messages: byte_or(given.get_str("messages"), base.messages)?,
        clock: clock_or(given.get_str("clock"), base.clock)?,
        ..base
    })
}

fn params(given: &ArgMatches<'_>) -> Option<Params>
    ensures value { result ≡ params_of (first_value (found_of given.now)) }
    ensures in_range { IfSome result IsParams }
{
    let base = Params::of(format_or(given.get_str("format"), Format::Qcif)?);
    let params = timing(given, coding(given, base)?)?;
    match params.check() {
        Ok(()) => Some(params),
        Err(_) => None,
    }
}

fn call(given: &ArgMatches<'_>) -> Option<Command>
    ensures value { result ≡ call_given (first_value (found_of given.now)) }
    ensures ready { IfSome result IsCommand }
{
    let params = params(given)?;
    let trace = given.get_str("trace");
    Some(Command::Call {
        params,
        traced: trace.is_some(),
    })
}

fn target(text: Option<&str>) -> Option<u32>
    ensures value { result ≡ target_in (option_map (λ t. t.now) text.entry) }
    ensures some { IfSome result (λ n. 1 ≤ n) }
    ensures below { IfSome result (λ n. n ≤ 999999) }
{
    let target = number_of(text?, 6)?;
    if 1 <= target { Some(target) } else { None }
}

// The target of a command that may go without one.
fn target_or_none(text: Option<&str>) -> Option<Option<u32>>
    ensures value { result ≡ target_or_none (option_map (λ t. t.now) text.entry) }
    ensures some { IfSome result (λ target. IfSome target (λ n. 1 ≤ n)) }
    ensures below { IfSome result (λ target. IfSome target (λ n. n ≤ 999999)) }
{
    match text {
        Some(text) => Some(Some(target(Some(text))?)),
        None => Some(None),
    }
}

fn is_given(given: &ArgMatches<'_>, name: &str) -> bool
    ensures { result ≡ is_some (first_value (found_of given.now) name.now) }
{
    given.get_str(name).is_some()
}

// A target to follow or one to fit, but not both.
fn send(given: &ArgMatches<'_>) -> Option<Command>
    ensures value { result ≡ send_of (first_value (found_of given.now)) }
    ensures ready { IfSome result IsCommand }
{
    if is_given(given, "target") && is_given(given, "fit") {
        return None;
    }
    let target = target_or_none(given.get_str("target"))?;
    let fit = target_or_none(given.get_str("fit"))?;
    Some(Command::Send {
        params: params(given)?,
        target,
        fit,
    })
}

fn recv(given: &ArgMatches<'_>) -> Option<Command>
    ensures value { result ≡ recv_of (first_value (found_of given.now)) }
    ensures ready { IfSome result IsCommand }
{
    let params = params(given)?;
    let join = given.get_str("join");
    Some(Command::Recv {
        params,
        join: join.is_some(),
    })
}

fn seed(given: &ArgMatches<'_>) -> Option<u32>
    ensures value { result ≡ seed_in (first_value (found_of given.now) (codes "seed")) }
    ensures below { IfSome result (λ n. n ≤ 999999999) }
{
    number_of(given.get_str("seed")?, 9)
}

fn frames(given: &ArgMatches<'_>) -> Option<u32>
    ensures value { result ≡ frames_in (first_value (found_of given.now) (codes "frames")) }
    ensures some { IfSome result (λ n. 1 ≤ n) }
    ensures below { IfSome result (λ n. n ≤ 10000) }
{
    let frames = number_of(given.get_str("frames")?, 5)?;
    if 1 <= frames && frames <= 10_000 {
        Some(frames)
    } else {
        None
    }
}

fn demo(given: &ArgMatches<'_>) -> Option<Command>
    ensures value { result ≡ demo_of (first_value (found_of given.now)) }
    ensures ready { IfSome result IsCommand }
{
    Some(Command::Demo {
        params: params(given)?,
        seed: seed(given)?,
        frames: frames(given)?,
    })
}

fn bucket(given: &ArgMatches<'_>) -> Option<u32>
    ensures value { result ≡ bucket_in (first_value (found_of given.now) (codes "bucket")) }
    ensures below { IfSome result (λ n. n ≤ 999999) }
{
    number_of(given.get_str("bucket")?, 6)
}

fn rate(given: &ArgMatches<'_>) -> Option<Command>
    ensures value { result ≡ rate_of (first_value (found_of given.now)) }
    ensures ready { IfSome result IsCommand }
{
    Some(Command::Rate {
        target: target(given.get_str("target"))?,
        bucket: bucket(given)?,
    })
}

fn audit(given: &ArgMatches<'_>) -> Option<Command>
    ensures value { result ≡ audit_of (first_value (found_of given.now)) }
    ensures ready { IfSome result IsCommand }
{
    let params = params(given)?;
    Some(Command::Audit { params })
}

// The call of two parties has a trace.
fn duplex(given: &ArgMatches<'_>) -> Option<Command>
    ensures value { result ≡ duplex_of (first_value (found_of given.now)) }
    ensures ready { IfSome result IsCommand }
{
    let _trace = given.get_str("trace")?;
    let params = params(given)?;
    Some(Command::Duplex { params })
}

// How many receivers a group has: a third one comes after a second one.
fn receivers(given: &ArgMatches<'_>) -> Option<u32>
    ensures { result ≡ receivers_in (first_value (found_of given.now)) }
{
    if given.get_str("out2").is_none() {
        if given.get_str("out3").is_none() {
            Some(1)
        } else {
            None
        }
    } else if given.get_str("out3").is_none() {
        Some(2)
    } else {
        Some(3)
    }
}

// The call of a group has a trace.
fn group(given: &ArgMatches<'_>) -> Option<Command>
    ensures value { result ≡ group_of (first_value (found_of given.now)) }
    ensures ready { IfSome result IsCommand }
{
    let _trace = given.get_str("trace")?;
    let params = params(given)?;
    let receivers = receivers(given)?;
    Some(Command::Group { params, receivers })
}

// What the values of a command's words ask for.
fn command_of(form: Form, given: &ArgMatches<'_>) -> Option<Command>
    ensures value { result ≡ (form_row form).asks (first_value (found_of given.now)) }
    ensures ready { IfSome result IsCommand }
{
    match form {
        Form::Call => call(given),
        Form::Send => send(given),
        Form::Recv => recv(given),
        Form::Demo => demo(given),
        Form::Rate => rate(given),
        Form::Audit => audit(given),
        Form::Duplex => duplex(given),
        Form::Group => group(given),
    }
}

// The form that the first word names.
fn form_of(words: &[&str]) -> Option<Form>
    ensures { MatchOption result (asked (texts words.now) ≡ None)
        (λ form. asked (texts words.now) ≡ asked_by (form_row form) (drop 1 (texts words.now))) }
{
    Form::named(words.first()?)
}

impl<'a> Words<'a> {
    /// The command that the words ask for, of which the first is the command's name. Only
    /// `OutOfMemory` depends on anything but the words.
    pub fn read(alloc: Global, words: &'a [&'a str]) -> Result<Words<'a>, WordStop>
        ensures answer { MatchResult result
            (λ w. asked (texts words.now) ≡ Some (asked_of w))
            (λ stop. stop ≡ WordStop.Usage → asked (texts words.now) ≡ None) }
        ensures ready { IfOk result (λ w. IsCommand w.command) }
    {
        let Some(form) = form_of(words) else {
            return Err(WordStop::Usage);
        };
        let given = parse(alloc, form, words)?;
        let Some(command) = command_of(form, &given) else {
            return Err(WordStop::Usage);
        };
        Ok(Words { command, given })
    }

    /// The command.
    pub fn command(&self) -> Command
        ensures { result ≡ (asked_of self.now).command }
    {
        self.command
    }

    /// The word by which the role is attached, if the command attaches it by one.
    pub fn name(&self, role: Role) -> Option<&'a str>
        ensures { option_map (λ s. s.now) result ≡ word_for (asked_of self.now) role }
    {
        self.given.get_str(name_of(self.command, role)?)
    }
}

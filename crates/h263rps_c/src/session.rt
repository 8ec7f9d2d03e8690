//! A session for C.
ghost use Rattle.std.specs.Prelude.{◌≡◌, ◌≢◌, List, [], ◌∷◌, None, Some, Ok, IfOk, IsSome};
ghost use Rattle.session_intake.specs.declared.settings.Settings.{Settings};
ghost use Rattle.session_runs.specs.Following.{due_next};
ghost use Rattle.session_runs.specs.Kept.{config_in};
ghost use Rattle.call_session.specs.Sessions.{Datagram, DatagramOf, SessionEntry, Turn, at, outcome_of};
ghost use Rattle.call_session.specs.Sessions.{outcome_of_one, played_run, told_of_datagram, told_of_one};
ghost use Rattle.std.specs.Borrow.{sem};
ghost use Rattle.h263rps_c.specs.Asked.{params_asked};
ghost use Rattle.h263rps_c.specs.Refusals.{end_refusal, refusal_number, status_of};
ghost use Rattle.h263rps_c.specs.SessionNumbers.{counts_numbers, run_in, time_or_never};
ghost use Rattle.h263rps_c.specs.SessionReturned.{KeepsSession};
ghost use Rattle.h263rps_c.specs.Sessions.{HoldsSession, ShowsScreen, TellsOutcome, TellsTurn};
ghost use Rattle.h263rps_c.specs.Sessions.{session_refusal, setting_after, source_named, played_source};
ghost use Rattle.h263rps_c.specs.Sessions.{state_after, stream_refusal, unless_started};
ghost use Rattle.h263rps_c.specs.Timing.{settings_in};
ghost use Rattle.h263rps_c.specs.declared.refusals.EndRefusal.TheVariants as refusals;

use crate::asked::Asked;
use crate::kept_session::KeptSession;
use crate::receiver::Lent;
use crate::refusals::{EndRefusal, OK};
use crate::session_answers::{CArrived, CCounts, CTurn, run_of};
use crate::session_slots::{SessionSlot, put, taken};
use crate::timing::Timing;
use std::alloc::Global;

/// Starts a session in an empty slot. Where a setting is out of its range `fault` has its number.
#[unsafe(no_mangle)]
pub extern "C" fn h263rps_raw_session_start(
    alloc: Global,
    slot: &mut SessionSlot,
    asked: &Asked,
    timing: &Timing,
    fault: &mut u32,
) -> u32
    ensures result { result ≢ refusal_number refusals.NoMemory → result ≡ status_of
        (session_refusal slot.old.handle.inside (settings_in (params_asked asked.now) timing.now)) }
    ensures memory { result ≡ refusal_number refusals.NoMemory → session_refusal
        slot.old.handle.inside (settings_in (params_asked asked.now) timing.now) ≡ None }
    ensures same { result ≢ 0 → slot.new.handle.inside ≡ slot.old.handle.inside }
    ensures fault { fault.new ≡ setting_after slot.old.handle.inside
        (settings_in (params_asked asked.now) timing.now) fault.old }
    ensures stands { result ≡ 0 → IfOk (settings_in (params_asked asked.now) timing.now)
        (λ s. HoldsSession s [] slot.new.handle.inside) }
{
    if slot.is_started() {
        return EndRefusal::Started.number();
    }
    match timing.settings(asked) {
        Err(number) => {
            *fault = number;
            EndRefusal::BadParams.number()
        }
        Ok(settings) => match KeptSession::start(alloc, &settings) {
            Err(refusal) => refusal.number(),
            Ok(session) => {
                put(slot, session);
                OK
            }
        },
    }
}

/// Gives a datagram that came then to a session.
#[unsafe(no_mangle)]
pub extern "C" fn h263rps_raw_session_arrival(
    slot: &mut SessionSlot,
    bytes: &[u8],
    now: u64,
    arrived: &mut CArrived,
) -> u32
    ensures result { result ≡ status_of (unless_started slot.old.handle.inside) }
    ensures same { result ≢ 0 → slot.new.handle.inside ≡ slot.old.handle.inside }
    ensures unanswered { result ≢ 0 → arrived.new ≡ arrived.old }
    ensures stands { (s : Settings) (past : List SessionEntry)
        → HoldsSession s past slot.old.handle.inside
        → HoldsSession s (Datagram bytes.now now ∷ past) slot.new.handle.inside }
    ensures answer { (s : Settings) (past : List SessionEntry)
        → HoldsSession s past slot.old.handle.inside
        → TellsOutcome s.params.clock arrived.new
        (outcome_of (config_in s) bytes.now now (state_after s past))
        (told_of_datagram (config_in s) bytes.now now (state_after s past)) }
{
    if !slot.is_started() {
        return EndRefusal::NotStarted.number();
    }
    *arrived = slot.handle.session_mut().arrival(bytes, now);
    OK
}

/// Gives a datagram that came then to a session that takes those of one stream alone.
#[unsafe(no_mangle)]
pub extern "C" fn h263rps_raw_session_arrival_of(
    slot: &mut SessionSlot,
    source: u32,
    bytes: &[u8],
    now: u64,
    arrived: &mut CArrived,
) -> u32
    ensures result { result ≡ status_of (unless_started slot.old.handle.inside) }
    ensures same { result ≢ 0 → slot.new.handle.inside ≡ slot.old.handle.inside }
    ensures unanswered { result ≢ 0 → arrived.new ≡ arrived.old }
    ensures stands { (s : Settings) (past : List SessionEntry)
        → HoldsSession s past slot.old.handle.inside
        → HoldsSession s (DatagramOf source bytes.now now ∷ past) slot.new.handle.inside }
    ensures answer { (s : Settings) (past : List SessionEntry)
        → HoldsSession s past slot.old.handle.inside
        → TellsOutcome s.params.clock arrived.new
        (outcome_of_one (config_in s) source bytes.now now (state_after s past))
        (told_of_one (config_in s) source bytes.now now (state_after s past)) }
{
    if !slot.is_started() {
        return EndRefusal::NotStarted.number();
    }
    *arrived = slot.handle.session_mut().arrival_of(source, bytes, now);
    OK
}

/// When something is due next in a session: 0 where it is at once, and the greatest number where
/// nothing is known to be.
#[unsafe(no_mangle)]
pub extern "C" fn h263rps_raw_session_due(slot: &mut SessionSlot, due: &mut u64) -> u32
    ensures result { result ≡ status_of (unless_started slot.old.handle.inside) }
    ensures same { slot.new.handle.inside ≡ slot.old.handle.inside }
    ensures untold { result ≢ 0 → due.new ≡ due.old }
    ensures told { (s : Settings) (past : List SessionEntry)
        → HoldsSession s past slot.old.handle.inside
        → due.new ≡ time_or_never (due_next (config_in s) (state_after s past).follows) }
{
    if !slot.is_started() {
        return EndRefusal::NotStarted.number();
    }
    *due = slot.handle.session_mut().due();
    OK
}

/// Plays the next picture of a session that is due by then.
#[unsafe(no_mangle)]
pub extern "C" fn h263rps_raw_session_play(
    slot: &mut SessionSlot,
    now: u64,
    turn: &mut CTurn,
) -> u32
    ensures result { result ≡ status_of (unless_started slot.old.handle.inside) }
    ensures same { result ≢ 0 → slot.new.handle.inside ≡ slot.old.handle.inside }
    ensures unanswered { result ≢ 0 → turn.new ≡ turn.old }
    ensures stands { (s : Settings) (past : List SessionEntry)
        → HoldsSession s past slot.old.handle.inside
        → HoldsSession s (Turn now ∷ past) slot.new.handle.inside }
    ensures answer { (s : Settings) (past : List SessionEntry)
        → HoldsSession s past slot.old.handle.inside
        → let c = config_in s in let st = at now (state_after s past) in
        TellsTurn c st turn.new (played_run c st)
        (played_source s (Turn now ∷ past) (played_run c st)) }
{
    if !slot.is_started() {
        return EndRefusal::NotStarted.number();
    }
    *turn = slot.handle.session_mut().play(now);
    OK
}

// The samples on the screen of a session, lent. The slot keeps its session.
fn screen_in(slot: &mut SessionSlot) -> Result<&[u8], EndRefusal>
    ensures refusal { end_refusal result ≡ unless_started slot.old.handle.inside }
    ensures shown { IfOk result (λ samples. ShowsScreen slot.old.handle.inside samples.now) }
    ensures* same { sem 𝓛 (KeepsSession slot.entry) }
{
    if !slot.is_started() {
        return Err(EndRefusal::NotStarted);
    }
    let session: &KeptSession = slot.handle.session_mut();
    Ok(session.shown())
}

// Writes down what is lent, if anything is.
fn note_screen<'a>(samples: Result<&'a [u8], EndRefusal>, lent: &mut Lent<'a>) -> u32
    ensures result { result ≡ status_of (end_refusal samples.entry) }
    ensures unlent { result ≢ 0 → lent.new ≡ lent.old }
    ensures lent { result ≡ 0 → samples.entry ≡ Ok lent.new.samples }
{
    match samples {
        Err(refusal) => refusal.number(),
        Ok(samples) => {
            lent.samples = samples;
            OK
        }
    }
}

/// Lends the samples on the screen of a session. They are good until the next call with this slot,
/// which keeps its session.
#[unsafe(no_mangle)]
pub extern "C" fn h263rps_raw_session_shown<'a>(
    slot: &'a mut SessionSlot,
    lent: &mut Lent<'a>,
) -> u32
    ensures result { result ≡ status_of (unless_started slot.old.handle.inside) }
    ensures unlent { result ≢ 0 → lent.new ≡ lent.old }
    ensures shown { result ≡ 0 → ShowsScreen slot.old.handle.inside lent.new.samples.now }
    ensures* same { sem 𝓛 (KeepsSession slot.entry) }
{
    note_screen(screen_in(slot), lent)
}

// The SSRC of the stream of this run, if it has one.
fn source_by(slot: &mut SessionSlot, number: u32) -> Option<u32>
    requires { IsSome slot.old.handle.inside }
    ensures same { slot.new.handle.inside ≡ slot.old.handle.inside }
    ensures value { (s : Settings) (past : List SessionEntry)
        → HoldsSession s past slot.old.handle.inside
        → result ≡ source_named s past (run_in number) }
{
    match run_of(number) {
        None => None,
        Some(run) => slot.handle.session_mut().source(run),
    }
}

/// The SSRC of the stream that has this run in a session.
#[unsafe(no_mangle)]
pub extern "C" fn h263rps_raw_session_source(
    slot: &mut SessionSlot,
    run: u32,
    source: &mut u32,
) -> u32
    ensures empty { slot.old.handle.inside ≡ None
        → result ≡ refusal_number refusals.NotStarted }
    ensures result { (s : Settings) (past : List SessionEntry)
        → HoldsSession s past slot.old.handle.inside
        → result ≡ status_of (stream_refusal (source_named s past (run_in run))) }
    ensures same { slot.new.handle.inside ≡ slot.old.handle.inside }
    ensures untold { result ≢ 0 → source.new ≡ source.old }
    ensures told { (s : Settings) (past : List SessionEntry)
        → HoldsSession s past slot.old.handle.inside → result ≡ 0
        → source_named s past (run_in run) ≡ Some source.new }
{
    if !slot.is_started() {
        return EndRefusal::NotStarted.number();
    }
    match source_by(slot, run) {
        None => EndRefusal::NoStream.number(),
        Some(named) => {
            *source = named;
            OK
        }
    }
}

/// What a session has counted since its start.
#[unsafe(no_mangle)]
pub extern "C" fn h263rps_raw_session_statistics(
    slot: &mut SessionSlot,
    counts: &mut CCounts,
) -> u32
    ensures result { result ≡ status_of (unless_started slot.old.handle.inside) }
    ensures same { slot.new.handle.inside ≡ slot.old.handle.inside }
    ensures untold { result ≢ 0 → counts.new ≡ counts.old }
    ensures told { (s : Settings) (past : List SessionEntry)
        → HoldsSession s past slot.old.handle.inside
        → counts.new ≡ counts_numbers (state_after s past).counts }
{
    if !slot.is_started() {
        return EndRefusal::NotStarted.number();
    }
    *counts = slot.handle.session_mut().counts();
    OK
}

/// Gives a session's memory back, and leaves its slot empty.
#[unsafe(no_mangle)]
pub extern "C" fn h263rps_raw_session_finish(alloc: Global, slot: &mut SessionSlot) -> u32
    ensures result { result ≡ status_of (unless_started slot.old.handle.inside) }
    ensures empty { slot.new.handle.inside ≡ None }
{
    if !slot.is_started() {
        return EndRefusal::NotStarted.number();
    }
    let _session = taken(alloc, slot);
    OK
}

//! What a session asks for again; that a stream has ended; and its beginning anew.
ghost use Rattle.std.specs.Prelude.{◌≡◌, ◌≢◌, List, ◌∷◌};
ghost use Rattle.session_intake.specs.declared.settings.Settings.{Settings};
ghost use Rattle.session_runs.specs.Kept.{config_in};
ghost use Rattle.call_session.specs.Sessions.{Anew, Asked, Ended, SessionEntry, at, missing_at};
ghost use Rattle.h263rps_c.specs.Refusals.{status_of};
ghost use Rattle.h263rps_c.specs.SessionNumbers.{nack_numbers};
ghost use Rattle.h263rps_c.specs.Sessions.{HoldsSession, state_after, unless_started};

use crate::refusals::{EndRefusal, OK};
use crate::session_answers::CNack;
use crate::session_slots::SessionSlot;

/// The next packets that a session asks for again, then, if the answer takes so long.
#[unsafe(no_mangle)]
pub extern "C" fn h263rps_raw_session_missing(
    slot: &mut SessionSlot,
    round_trip: u64,
    now: u64,
    nack: &mut CNack,
) -> u32
    ensures result { result ≡ status_of (unless_started slot.old.handle.inside) }
    ensures same { result ≢ 0 → slot.new.handle.inside ≡ slot.old.handle.inside }
    ensures unasked { result ≢ 0 → nack.new ≡ nack.old }
    ensures stands { (s : Settings) (past : List SessionEntry)
        → HoldsSession s past slot.old.handle.inside
        → HoldsSession s (Asked round_trip now ∷ past) slot.new.handle.inside }
    ensures answer { (s : Settings) (past : List SessionEntry)
        → HoldsSession s past slot.old.handle.inside
        → nack.new ≡ nack_numbers
        (missing_at (config_in s) round_trip (at now (state_after s past))) }
{
    if !slot.is_started() {
        return EndRefusal::NotStarted.number();
    }
    *nack = slot.handle.session_mut().missing(round_trip, now);
    OK
}

/// The stream with this SSRC has ended, then.
#[unsafe(no_mangle)]
pub extern "C" fn h263rps_raw_session_bye(slot: &mut SessionSlot, source: u32, now: u64) -> u32
    ensures result { result ≡ status_of (unless_started slot.old.handle.inside) }
    ensures same { result ≢ 0 → slot.new.handle.inside ≡ slot.old.handle.inside }
    ensures stands { (s : Settings) (past : List SessionEntry)
        → HoldsSession s past slot.old.handle.inside
        → HoldsSession s (Ended source now ∷ past) slot.new.handle.inside }
{
    if !slot.is_started() {
        return EndRefusal::NotStarted.number();
    }
    slot.handle.session_mut().bye(source, now);
    OK
}

/// A session begins anew, then: no stream has a run any more.
#[unsafe(no_mangle)]
pub extern "C" fn h263rps_raw_session_reset(slot: &mut SessionSlot, now: u64) -> u32
    ensures result { result ≡ status_of (unless_started slot.old.handle.inside) }
    ensures same { result ≢ 0 → slot.new.handle.inside ≡ slot.old.handle.inside }
    ensures stands { (s : Settings) (past : List SessionEntry)
        → HoldsSession s past slot.old.handle.inside
        → HoldsSession s (Anew now ∷ past) slot.new.handle.inside }
{
    if !slot.is_started() {
        return EndRefusal::NotStarted.number();
    }
    slot.handle.session_mut().reset(now);
    OK
}

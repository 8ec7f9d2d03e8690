//! What steers a sender of C while it runs.
ghost use Rattle.std.specs.Prelude.{Bool, ◌≡◌, ◌≢◌, ℕ, List, ◌∷◌, length};
ghost use Rattle.h263_types.specs.declared.params.Params.{Params};
ghost use Rattle.sender_end.specs.Known.{known_in};
ghost use Rattle.h263rps_c.specs.Ends.{HoldsSteered, end_packets};
ghost use Rattle.h263rps_c.specs.Pace.{target_if_any};
ghost use Rattle.h263rps_c.specs.Refusals.{status_of, target_refusal};
ghost use Rattle.h263rps_c.specs.Slots.{for_sender, never};
ghost use Rattle.h263rps_c.specs.Steering.{Steering, steered_run};
ghost use Rattle.h263rps_c.specs.Steering as steering;
ghost use Rattle.h263rps_c.specs.Stays.{Stays};

use crate::handles::Slot;
use crate::refusals::{EndRefusal, OK};

/// A sender follows another target in bytes per picture from its next picture on, up to 999,999, or
/// none where it is 0.
#[unsafe(no_mangle)]
pub extern "C" fn h263rps_raw_sender_target(slot: &mut Slot, target: u32) -> u32
    ensures result { result
        ≡ status_of (for_sender (target_refusal target) slot.old.handle.inside) }
    ensures same { result ≢ 0 → slot.new.handle.inside ≡ slot.old.handle.inside }
    ensures counts { slot.new.counted ≡ slot.old.counted }
    ensures packets { end_packets slot.new.handle.inside ≡ end_packets slot.old.handle.inside }
    ensures steers { (p : Params) (fits : Bool) (first : ℕ) (past : List Steering)
        → HoldsSteered p fits first past slot.old.handle.inside → result ≡ 0
        → HoldsSteered p fits first (steering.Target (target_if_any target) ∷ past)
        slot.new.handle.inside }
{
    if !slot.is_started() {
        return EndRefusal::NotStarted.number();
    }
    match slot.handle.end_mut().follow(target) {
        Err(refusal) => refusal.number(),
        Ok(()) => OK,
    }
}

/// A sender forgets the pictures that it coded: none of them is a reference any more, however late
/// it is acknowledged, so that the next picture is coded by itself.
#[unsafe(no_mangle)]
pub extern "C" fn h263rps_raw_sender_forget(slot: &mut Slot) -> u32
    ensures result { result ≡ status_of (for_sender never slot.old.handle.inside) }
    ensures same { result ≢ 0 → slot.new.handle.inside ≡ slot.old.handle.inside }
    ensures counts { slot.new.counted ≡ slot.old.counted }
    ensures packets { end_packets slot.new.handle.inside ≡ end_packets slot.old.handle.inside }
    ensures steers { (p : Params) (fits : Bool) (first : ℕ) (past : List Steering)
        → HoldsSteered p fits first past slot.old.handle.inside → result ≡ 0
        → HoldsSteered p fits first (steering.Forget ∷ past) slot.new.handle.inside }
{
    if !slot.is_started() {
        return EndRefusal::NotStarted.number();
    }
    match slot.handle.end_mut().forget() {
        Err(refusal) => refusal.number(),
        Ok(()) => OK,
    }
}

/// How many pictures a sender has coded: the number of its next one.
#[unsafe(no_mangle)]
pub extern "C" fn h263rps_raw_sender_sent(slot: &mut Slot, count: &mut u32) -> u32
    ensures result { result ≡ status_of (for_sender never slot.old.handle.inside) }
    ensures same { Stays slot.old slot.new }
    ensures uncounted { result ≢ 0 → count.new ≡ count.old }
    ensures steers { (p : Params) (fits : Bool) (first : ℕ) (past : List Steering)
        → HoldsSteered p fits first past slot.old.handle.inside → result ≡ 0
        → count.new ≡ length (steered_run p fits (target_if_any first) past).run.coded }
{
    if !slot.is_started() {
        return EndRefusal::NotStarted.number();
    }
    match slot.handle.end_mut().sent() {
        Err(refusal) => refusal.number(),
        Ok(sent) => {
            *count = sent;
            OK
        }
    }
}

/// How many pictures a sender knows to be complete at the other end, of those to which its next one
/// may refer.
#[unsafe(no_mangle)]
pub extern "C" fn h263rps_raw_sender_known(slot: &mut Slot, count: &mut u32) -> u32
    ensures result { result ≡ status_of (for_sender never slot.old.handle.inside) }
    ensures same { Stays slot.old slot.new }
    ensures uncounted { result ≢ 0 → count.new ≡ count.old }
    ensures steers { (p : Params) (fits : Bool) (first : ℕ) (past : List Steering)
        → HoldsSteered p fits first past slot.old.handle.inside → result ≡ 0
        → count.new ≡ known_in p (steered_run p fits (target_if_any first) past) }
{
    if !slot.is_started() {
        return EndRefusal::NotStarted.number();
    }
    match slot.handle.end_mut().known() {
        Err(refusal) => refusal.number(),
        Ok(known) => {
            *count = known;
            OK
        }
    }
}

//! A receiver of C that joins a call at a picture's number.
ghost use Rattle.std.specs.Prelude.{◌≡◌, ◌≢◌, List, None, IfOk};
ghost use Rattle.h263_types.specs.declared.params.Params.{Params};
ghost use Rattle.call_model.specs.Receiving.{ReceiverEntry};
ghost use Rattle.receiver_end.specs.State as receivers;
ghost use Rattle.receiver_end.specs.State.{plays_alone};
ghost use Rattle.h263rps_c.specs.Asked.{params_at, params_asked};
ghost use Rattle.h263rps_c.specs.Counting as counts;
ghost use Rattle.h263rps_c.specs.Ends.{HoldsReceiver};
ghost use Rattle.h263rps_c.specs.Refusals.{refusal_number, status_of};
ghost use Rattle.h263rps_c.specs.Slots.{fault_after, for_receiver, never, start_refusal};
ghost use Rattle.h263rps_c.specs.Stays.{Stays};
ghost use Rattle.h263rps_c.specs.declared.refusals.EndRefusal.TheVariants as refusals;

use crate::asked::Asked;
use crate::ends::End;
use crate::handles::{Slot, put};
use crate::refusals::{EndRefusal, OK};
use std::alloc::Global;

/// Starts a receiver in an empty slot, whose next picture is the one of this number, up to
/// 1,048,576. Where a parameter or the number is out of its range `fault` says which.
#[unsafe(no_mangle)]
pub extern "C" fn h263rps_raw_receiver_start_at(
    alloc: Global,
    slot: &mut Slot,
    asked: &Asked,
    number: u32,
    fault: &mut u32,
) -> u32
    ensures result { result ≢ refusal_number refusals.NoMemory → result
        ≡ status_of (start_refusal slot.old.handle.inside (params_at number (params_asked asked.now))) }
    ensures memory { result ≡ refusal_number refusals.NoMemory
        → start_refusal slot.old.handle.inside (params_at number (params_asked asked.now)) ≡ None }
    ensures same { result ≢ 0 → Stays slot.old slot.new }
    ensures nothing { result ≡ 0 → slot.new.counted ≡ counts.no_statistics }
    ensures fault { fault.new
        ≡ fault_after slot.old.handle.inside (params_at number (params_asked asked.now)) fault.old }
    ensures stands { result ≡ 0 → IfOk (params_at number (params_asked asked.now))
        (λ p. HoldsReceiver p (plays_alone number) slot.new.handle.inside) }
{
    if slot.is_started() {
        return EndRefusal::Started.number();
    }
    match asked.params_at(number) {
        Err(wrong) => {
            *fault = wrong;
            EndRefusal::BadParams.number()
        }
        Ok(params) => match End::receiver_at(alloc, &params, number) {
            Err(refusal) => refusal.number(),
            Ok(end) => {
                put(slot, end);
                OK
            }
        },
    }
}

/// How many pictures a receiver has played: the number of the next one.
#[unsafe(no_mangle)]
pub extern "C" fn h263rps_raw_receiver_played(slot: &mut Slot, count: &mut u32) -> u32
    ensures result { result ≡ status_of (for_receiver never slot.old.handle.inside) }
    ensures same { Stays slot.old slot.new }
    ensures uncounted { result ≢ 0 → count.new ≡ count.old }
    ensures stands { (p : Params) (past : List ReceiverEntry)
        → HoldsReceiver p past slot.old.handle.inside → result ≡ 0
        → count.new ≡ (receivers.run_of p past).played }
{
    if !slot.is_started() {
        return EndRefusal::NotStarted.number();
    }
    match slot.handle.end_mut().played() {
        Err(refusal) => refusal.number(),
        Ok(played) => {
            *count = played;
            OK
        }
    }
}

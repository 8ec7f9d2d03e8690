//! A receiver for C.
ghost use Rattle.std.specs.Prelude.{◌≡◌, ◌≢◌, ◌≤◌, List, [], ◌∷◌, None, Ok, IfOk, length};
ghost use Rattle.h263_types.specs.declared.params.Params.{Params};
ghost use Rattle.h263_planes.specs.Samples.{bytes_of};
ghost use Rattle.call_model.specs.Receiving.{Packet, PlayNext, ReceiverEntry};
ghost use Rattle.receiver_end.specs.State as receivers;
ghost use Rattle.h263rps_c.specs.Asked.{params_asked};
ghost use Rattle.h263rps_c.specs.Counting as counts;
ghost use Rattle.h263rps_c.specs.Ends.{HoldsReceiver, ShowsPicture, TellsHeard, TellsPlayed};
ghost use Rattle.std.specs.Borrow.{sem};
ghost use Rattle.h263rps_c.specs.Returned.{KeepsEnd};
ghost use Rattle.h263rps_c.specs.Numbers.{NamesReference};
ghost use Rattle.h263rps_c.specs.Refusals.{next_refusal, play_refusal, end_refusal, status_of, refusal_number};
ghost use Rattle.h263rps_c.specs.Slots.{fault_after, for_receiver, never, start_refusal};
ghost use Rattle.h263rps_c.specs.Stays.{Stays};
ghost use Rattle.h263rps_c.specs.declared.refusals.EndRefusal.TheVariants as refusals;

use crate::answers::Answer;
use crate::asked::Asked;
use crate::ends::{End, EndKind};
use crate::handles::{Slot, put, taken};
use crate::refusals::{EndRefusal, OK};
use std::alloc::Global;

/// Samples that are lent: Y, then Cb, then Cr.
#[repr(C)]
#[derive(Clone, Copy)]
pub struct Lent<'a> {
    pub samples: &'a [u8],
}

/// Starts a receiver in an empty slot. Where a parameter is out of its range `fault` has its
/// number.
#[unsafe(no_mangle)]
pub extern "C" fn h263rps_raw_receiver_start(
    alloc: Global,
    slot: &mut Slot,
    asked: &Asked,
    fault: &mut u32,
) -> u32
    ensures result { result ≢ refusal_number refusals.NoMemory
        → result ≡ status_of (start_refusal slot.old.handle.inside (params_asked asked.now)) }
    ensures memory { result ≡ refusal_number refusals.NoMemory
        → start_refusal slot.old.handle.inside (params_asked asked.now) ≡ None }
    ensures same { result ≢ 0 → Stays slot.old slot.new }
    ensures nothing { result ≡ 0 → slot.new.counted ≡ counts.no_statistics }
    ensures fault { fault.new
        ≡ fault_after slot.old.handle.inside (params_asked asked.now) fault.old }
    ensures stands { result ≡ 0 → IfOk (params_asked asked.now)
        (λ p. HoldsReceiver p [] slot.new.handle.inside) }
{
    if slot.is_started() {
        return EndRefusal::Started.number();
    }
    match asked.params() {
        Err(number) => {
            *fault = number;
            EndRefusal::BadParams.number()
        }
        Ok(params) => match End::receiver(alloc, &params) {
            Err(refusal) => refusal.number(),
            Ok(end) => {
                put(slot, end);
                OK
            }
        },
    }
}

/// Gives a packet to a receiver.
#[unsafe(no_mangle)]
pub extern "C" fn h263rps_raw_receiver_packet(
    slot: &mut Slot,
    bytes: &[u8],
    answer: &mut Answer,
) -> u32
    ensures result { result ≡ status_of (for_receiver never slot.old.handle.inside) }
    ensures same { result ≢ 0 → Stays slot.old slot.new }
    ensures counted { result ≡ 0
        → slot.new.counted ≡ counts.statistics_with_heard (length bytes.now) answer.new slot.old.counted }
    ensures unanswered { result ≢ 0 → answer.new ≡ answer.old }
    // only a packet that is taken changes anything
    ensures untaken { result ≡ 0 → 2 ≤ answer.new.kind
        → slot.new.handle.inside ≡ slot.old.handle.inside }
    ensures stands { (p : Params) (past : List ReceiverEntry)
        → HoldsReceiver p past slot.old.handle.inside
        → HoldsReceiver p (Packet bytes.now ∷ past) slot.new.handle.inside }
    ensures answer { (p : Params) (past : List ReceiverEntry)
        → HoldsReceiver p past slot.old.handle.inside
        → TellsHeard p.clock answer.new (receivers.answer_after p past bytes.now)
        (receivers.number_after p past bytes.now) }
{
    if !slot.is_started() {
        return EndRefusal::NotStarted.number();
    }
    match slot.handle.end_mut().arrival(bytes) {
        Err(refusal) => refusal.number(),
        Ok(arrival) => {
            *answer = Answer::arrived(&arrival);
            slot.counted = slot.counted.with_heard(bytes.len(), answer);
            OK
        }
    }
}

/// Plays a receiver's next picture into room for it.
#[unsafe(no_mangle)]
pub extern "C" fn h263rps_raw_receiver_play(
    slot: &mut Slot,
    picture: &mut [u8],
    answer: &mut Answer,
) -> u32
    ensures result { result
        ≡ status_of (for_receiver (play_refusal (length picture.old)) slot.old.handle.inside) }
    ensures same { result ≢ 0 → Stays slot.old slot.new }
    ensures counted { result ≡ 0
        → slot.new.counted ≡ counts.statistics_with_played answer.new slot.old.counted }
    ensures unanswered { result ≢ 0 → answer.new ≡ answer.old }
    ensures unwritten { result ≢ 0 → picture.new ≡ picture.old }
    ensures stands { (p : Params) (past : List ReceiverEntry)
        → HoldsReceiver p past slot.old.handle.inside → result ≡ 0
        → HoldsReceiver p (PlayNext ∷ past) slot.new.handle.inside }
    ensures answer { (p : Params) (past : List ReceiverEntry)
        → HoldsReceiver p past slot.old.handle.inside → result ≡ 0
        → TellsPlayed p.clock answer.new (receivers.mark_after p past)
        (receivers.message_after p past) }
    ensures number { (p : Params) (past : List ReceiverEntry)
        → HoldsReceiver p past slot.old.handle.inside → result ≡ 0
        → answer.new.number ≡ (receivers.run_of p past).played }
    ensures reference { (p : Params) (past : List ReceiverEntry)
        → HoldsReceiver p past slot.old.handle.inside → result ≡ 0
        → NamesReference answer.new (receivers.reference_after p past) }
    ensures shown { (p : Params) (past : List ReceiverEntry)
        → HoldsReceiver p past slot.old.handle.inside → result ≡ 0
        → picture.new ≡ bytes_of (receivers.run_of p (PlayNext ∷ past)).screen }
{
    if !slot.is_started() {
        return EndRefusal::NotStarted.number();
    }
    match slot.handle.end_mut().play(picture) {
        Err(refusal) => refusal.number(),
        Ok(played) => {
            *answer = Answer::played(&played);
            slot.counted = slot.counted.with_played(answer);
            OK
        }
    }
}

/// Plays a receiver's next picture, which stays where it is.
#[unsafe(no_mangle)]
pub extern "C" fn h263rps_raw_receiver_next(slot: &mut Slot, answer: &mut Answer) -> u32
    ensures result { result ≡ status_of (for_receiver next_refusal slot.old.handle.inside) }
    ensures same { result ≢ 0 → Stays slot.old slot.new }
    ensures counted { result ≡ 0
        → slot.new.counted ≡ counts.statistics_with_played answer.new slot.old.counted }
    ensures unanswered { result ≢ 0 → answer.new ≡ answer.old }
    ensures stands { (p : Params) (past : List ReceiverEntry)
        → HoldsReceiver p past slot.old.handle.inside → result ≡ 0
        → HoldsReceiver p (PlayNext ∷ past) slot.new.handle.inside }
    ensures answer { (p : Params) (past : List ReceiverEntry)
        → HoldsReceiver p past slot.old.handle.inside → result ≡ 0
        → TellsPlayed p.clock answer.new (receivers.mark_after p past)
        (receivers.message_after p past) }
    ensures number { (p : Params) (past : List ReceiverEntry)
        → HoldsReceiver p past slot.old.handle.inside → result ≡ 0
        → answer.new.number ≡ (receivers.run_of p past).played }
    ensures reference { (p : Params) (past : List ReceiverEntry)
        → HoldsReceiver p past slot.old.handle.inside → result ≡ 0
        → NamesReference answer.new (receivers.reference_after p past) }
{
    if !slot.is_started() {
        return EndRefusal::NotStarted.number();
    }
    match slot.handle.end_mut().next() {
        Err(refusal) => refusal.number(),
        Ok(played) => {
            *answer = Answer::played(&played);
            slot.counted = slot.counted.with_played(answer);
            OK
        }
    }
}

// The samples that a receiver shows, lent. The slot keeps its end.
fn samples_in(slot: &mut Slot) -> Result<&[u8], EndRefusal>
    ensures refusal { end_refusal result ≡ for_receiver never slot.old.handle.inside }
    ensures shown { IfOk result
        (λ samples. ShowsPicture slot.old.handle.inside samples.now) }
    ensures* same { sem 𝓛 (KeepsEnd slot.entry) }
{
    if !slot.is_started() {
        return Err(EndRefusal::NotStarted);
    }
    let end: &End = slot.handle.end_mut();
    end.shown()
}

// Writes down what is lent, if anything is.
fn note<'a>(samples: Result<&'a [u8], EndRefusal>, lent: &mut Lent<'a>) -> u32
    ensures result { result ≡ status_of (end_refusal samples.entry) }
    ensures unlent { result ≢ 0 → lent.new ≡ lent.old }
    ensures lent { result ≡ 0 → samples.entry ≡ Ok lent.new.samples }
{
    match samples {
        Err(refusal) => refusal.number(),
        Ok(samples) => {
            lent.samples = samples;
            OK
        }
    }
}

/// Lends the samples that a receiver shows, as many as its format has. They are good until the next
/// call with this slot, which keeps its end.
#[unsafe(no_mangle)]
pub extern "C" fn h263rps_raw_receiver_shown<'a>(slot: &'a mut Slot, lent: &mut Lent<'a>) -> u32
    ensures result { result ≡ status_of (for_receiver never slot.old.handle.inside) }
    ensures unlent { result ≢ 0 → lent.new ≡ lent.old }
    ensures shown { result ≡ 0
        → ShowsPicture slot.old.handle.inside lent.new.samples.now }
    ensures* same { sem 𝓛 (KeepsEnd slot.entry) }
{
    note(samples_in(slot), lent)
}

/// Gives a receiver's memory back, and leaves its slot empty.
#[unsafe(no_mangle)]
pub extern "C" fn h263rps_raw_receiver_finish(alloc: Global, slot: &mut Slot) -> u32
    ensures result { result ≡ status_of (for_receiver never slot.old.handle.inside) }
    ensures same { result ≢ 0 → Stays slot.old slot.new }
    ensures empty { result ≡ 0 → slot.new.handle.inside ≡ None }
    ensures nothing { result ≡ 0 → slot.new.counted ≡ counts.no_statistics }
{
    if !slot.is_started() {
        return EndRefusal::NotStarted.number();
    }
    if !slot.handle.end_mut().is_of(EndKind::Receiver) {
        return EndRefusal::OtherEnd.number();
    }
    let _end = taken(alloc, slot);
    OK
}

//! A sender for C.
ghost use Rattle.std.specs.Prelude.{Bool, ◌≡◌, ◌≢◌, ◌<◌, ◌≤◌, ℕ, List, [], ◌∷◌, ◌++◌, None, Some, IfOk, drop, length, slice_index_or};
ghost use Rattle.h263_types.specs.declared.params.Params.{Params};
ghost use Rattle.back_messages.specs.declared.message.Message.{Message};
ghost use Rattle.call_model.specs.Sending as call;
ghost use Rattle.call_model.specs.Sending.{SenderEntry, Capture, feedback_answer};
ghost use Rattle.call_decoding.specs.Rules.{rules_of};
ghost use Rattle.call_encoding.specs.Frames.{Frame};
ghost use Rattle.call_encoding.specs.Messages.{read_message};
ghost use Rattle.sender_end.specs.Stands as senders;
ghost use Rattle.h263rps_c.specs.Asked.{fits_in, params_asked};
ghost use Rattle.h263rps_c.specs.Counting as counts;
ghost use Rattle.h263rps_c.specs.Ends.{HoldsSteered, TellsCoded, TellsReply, end_packets};
ghost use Rattle.h263rps_c.specs.Messages.{messages_of};
ghost use Rattle.h263rps_c.specs.Pace.{target_pace, target_if_any};
ghost use Rattle.h263rps_c.specs.Refusals.{capture_refusal, packet_refusal, status_of, refusal_number};
ghost use Rattle.h263rps_c.specs.Sending.{frame_given};
ghost use Rattle.h263rps_c.specs.Steering.{Steering, steered_next, steered_run};
ghost use Rattle.h263rps_c.specs.Steering as steering;
ghost use Rattle.h263rps_c.specs.Slots.{fault_after, for_sender, never, start_refusal};
ghost use Rattle.h263rps_c.specs.Stays.{Stays};
ghost use Rattle.h263rps_c.specs.declared.refusals.EndRefusal.TheVariants as refusals;

use crate::answers::{CMessage, Made, Reply};
use crate::asked::Asked;
use crate::ends::{End, EndKind};
use crate::handles::{Slot, put, taken};
use crate::refusals::{EndRefusal, OK};
use std::alloc::Global;

/// Starts a sender in an empty slot. Where a parameter is out of its range `fault` has its number.
#[unsafe(no_mangle)]
pub extern "C" fn h263rps_raw_sender_start(
    alloc: Global,
    slot: &mut Slot,
    asked: &Asked,
    fault: &mut u32,
) -> u32
    ensures result { result ≢ refusal_number refusals.NoMemory
        → result ≡ status_of (start_refusal slot.old.handle.inside (params_asked asked.now)) }
    ensures memory { result ≡ refusal_number refusals.NoMemory
        → start_refusal slot.old.handle.inside (params_asked asked.now) ≡ None }
    ensures same { result ≢ 0 → Stays slot.old slot.new }
    ensures nothing { result ≡ 0 → slot.new.counted ≡ counts.no_statistics }
    ensures fault { fault.new
        ≡ fault_after slot.old.handle.inside (params_asked asked.now) fault.old }
    ensures steers { result ≡ 0 → IfOk (params_asked asked.now)
        (λ p. HoldsSteered p (fits_in asked.now.pace) asked.now.target []
        slot.new.handle.inside) }
{
    if slot.is_started() {
        return EndRefusal::Started.number();
    }
    match asked.params() {
        Err(number) => {
            *fault = number;
            EndRefusal::BadParams.number()
        }
        Ok(params) => match End::sender(alloc, &params, asked.target, asked.fits()) {
            Err(refusal) => refusal.number(),
            Ok(end) => {
                put(slot, end);
                OK
            }
        },
    }
}

/// Codes a sender's next picture, with up to four messages about pictures of the other direction.
#[unsafe(no_mangle)]
pub extern "C" fn h263rps_raw_sender_code(
    slot: &mut Slot,
    picture: &[u8],
    messages: &[CMessage],
    made: &mut Made,
) -> u32
    ensures result { result
        ≡ status_of (for_sender (capture_refusal picture.now messages.now) slot.old.handle.inside) }
    ensures same { result ≢ 0 → Stays slot.old slot.new }
    ensures counted { result ≡ 0 → slot.new.counted ≡ counts.with_made made.new slot.old.counted }
    ensures unmade { result ≢ 0 → made.new ≡ made.old }
    ensures count { result ≡ 0 → made.new.packets ≡ length (end_packets slot.new.handle.inside) }
    ensures steers { (p : Params) (fits : Bool) (first : ℕ) (past : List Steering) (back : List Message)
        → HoldsSteered p fits first past slot.old.handle.inside
        → messages_of p.clock messages.now ≡ Some back → result ≡ 0
        → HoldsSteered p fits first (steering.Capture (frame_given p picture.now back) ∷ past)
        slot.new.handle.inside }
    ensures makes { (p : Params) (fits : Bool) (first : ℕ) (past : List Steering) (back : List Message)
        → HoldsSteered p fits first past slot.old.handle.inside
        → messages_of p.clock messages.now ≡ Some back → result ≡ 0
        → TellsCoded (length (steered_run p fits (target_if_any first) past).run.coded)
        (steered_next p fits (target_if_any first) (frame_given p picture.now back) past) made.new }
{
    if !slot.is_started() {
        return EndRefusal::NotStarted.number();
    }
    match slot.handle.end_mut().code(picture, messages) {
        Err(refusal) => refusal.number(),
        Ok(coded) => {
            *made = Made::of(&coded);
            slot.counted = slot.counted.with_made(made);
            OK
        }
    }
}

/// Copies a packet of the picture that a sender coded last to the start of a room.
#[unsafe(no_mangle)]
pub extern "C" fn h263rps_raw_sender_packet(
    slot: &mut Slot,
    number: u32,
    room: &mut [u8],
    count: &mut usize,
) -> u32
    ensures result { result
        ≡ status_of (for_sender (packet_refusal number (length room.old)) slot.old.handle.inside) }
    ensures same { slot.new.handle.inside ≡ slot.old.handle.inside }
    ensures counts { result ≢ 0 → slot.new.counted ≡ slot.old.counted }
    ensures counted { result ≡ 0
        → slot.new.counted ≡ counts.statistics_with_packet count.new slot.old.counted }
    ensures uncounted { result ≢ 0 → count.new ≡ count.old }
    ensures unwritten { result ≢ 0 → room.new ≡ room.old }
    ensures count { result ≡ 0 → count.new
        ≡ length (slice_index_or (end_packets slot.old.handle.inside) number []) }
    ensures written { result ≡ 0 → room.new
        ≡ slice_index_or (end_packets slot.old.handle.inside) number [] ++ drop count.new room.old }
    // room for `limit` bytes is enough
    ensures enough { (p : Params) (fits : Bool) (first : ℕ) (past : List Steering)
        → HoldsSteered p fits first past slot.old.handle.inside
        → result ≡ refusal_number refusals.ShortRoom → length room.old < p.limit }
    ensures steers { (p : Params) (fits : Bool) (first : ℕ) (past : List Steering)
        → HoldsSteered p fits first past slot.old.handle.inside → result ≡ 0
        → slice_index_or (end_packets slot.old.handle.inside) number []
        ≡ slice_index_or (senders.packets_after p (steered_run p fits (target_if_any first) past)) number [] }
{
    if !slot.is_started() {
        return EndRefusal::NotStarted.number();
    }
    match slot.handle.end_mut().packet(number, room) {
        Err(refusal) => refusal.number(),
        Ok(copied) => {
            *count = copied;
            slot.counted = slot.counted.with_packet(copied);
            OK
        }
    }
}

/// Gives a message of the other end to a sender.
#[unsafe(no_mangle)]
pub extern "C" fn h263rps_raw_sender_feedback(
    slot: &mut Slot,
    message: &[u8],
    reply: &mut Reply,
) -> u32
    ensures result { result ≡ status_of (for_sender never slot.old.handle.inside) }
    ensures same { result ≢ 0 → Stays slot.old slot.new }
    ensures counted { result ≡ 0
        → slot.new.counted ≡ counts.statistics_with_reply reply.new slot.old.counted }
    ensures unanswered { result ≢ 0 → reply.new ≡ reply.old }
    // only a message that is noted changes anything
    ensures unnoted { result ≡ 0 → 1 ≤ reply.new.kind
        → slot.new.handle.inside ≡ slot.old.handle.inside }
    ensures packets { end_packets slot.new.handle.inside ≡ end_packets slot.old.handle.inside }
    ensures steers { (p : Params) (fits : Bool) (first : ℕ) (past : List Steering)
        → HoldsSteered p fits first past slot.old.handle.inside
        → HoldsSteered p fits first (steering.Feedback message.now ∷ past) slot.new.handle.inside }
    ensures replies { (p : Params) (fits : Bool) (first : ℕ) (past : List Steering)
        → HoldsSteered p fits first past slot.old.handle.inside
        → TellsReply reply.new (feedback_answer (rules_of p)
        (length (steered_run p fits (target_if_any first) past).run.coded)
        (read_message p.clock message.now)) }
{
    if !slot.is_started() {
        return EndRefusal::NotStarted.number();
    }
    match slot.handle.end_mut().feedback(message) {
        Err(refusal) => refusal.number(),
        Ok(answer) => {
            *reply = Reply::of(&answer);
            slot.counted = slot.counted.with_reply(reply);
            OK
        }
    }
}

/// Gives a sender's memory back, and leaves its slot empty.
#[unsafe(no_mangle)]
pub extern "C" fn h263rps_raw_sender_finish(alloc: Global, slot: &mut Slot) -> u32
    ensures result { result ≡ status_of (for_sender never slot.old.handle.inside) }
    ensures same { result ≢ 0 → Stays slot.old slot.new }
    ensures empty { result ≡ 0 → slot.new.handle.inside ≡ None }
    ensures nothing { result ≡ 0 → slot.new.counted ≡ counts.no_statistics }
{
    if !slot.is_started() {
        return EndRefusal::NotStarted.number();
    }
    if !slot.handle.end_mut().is_of(EndKind::Sender) {
        return EndRefusal::OtherEnd.number();
    }
    let _end = taken(alloc, slot);
    OK
}

//! One sender for several receivers, for C.
ghost use Rattle.std.specs.Prelude.{◌≡◌, ◌≢◌, ◌<◌, ◌≤◌, ℕ, List, [], ◌∷◌, ◌++◌, None, Some, IfOk, drop, length, slice_index_or};
ghost use Rattle.h263_types.specs.declared.params.Params.{Params};
ghost use Rattle.back_messages.specs.declared.message.Message.{Message};
ghost use Rattle.call_decoding.specs.Rules.{rules_of};
ghost use Rattle.group_sender.specs.Holding.{answer_to, group_packets, next_of_group};
ghost use Rattle.group_sender.specs.Running.{newest_of_all, waited_for};
ghost use Rattle.h263rps_c.specs.Asked.{params_asked};
ghost use Rattle.h263rps_c.specs.Counting as counts;
ghost use Rattle.h263rps_c.specs.Ends.{TellsCoded};
ghost use Rattle.h263rps_c.specs.Groups.{HoldsKept, Managing, TellsSaid, for_group, group_after, group_fault, group_pace};
ghost use Rattle.h263rps_c.specs.Groups.{group_packets_in, group_refusal, known_in_group, number_or_most, place_refusal, said_refusal};
ghost use Rattle.h263rps_c.specs.Groups as groups;
ghost use Rattle.h263rps_c.specs.Messages.{messages_of};
ghost use Rattle.h263rps_c.specs.Pace.{target_if_any};
ghost use Rattle.h263rps_c.specs.Refusals.{capture_refusal, packet_refusal, quant_refusal, refusal_number, status_of, target_refusal};
ghost use Rattle.h263rps_c.specs.Sending.{frame_given};
ghost use Rattle.h263rps_c.specs.Slots.{never};
ghost use Rattle.h263rps_c.specs.declared.refusals.EndRefusal.TheVariants as refusals;

use crate::answers::{CMessage, Made, Reply};
use crate::asked::Asked;
use crate::counting::Statistics;
use crate::group_slots::{GroupSlot, put, taken};
use crate::kept_group::KeptGroup;
use crate::refusals::{EndRefusal, OK};
use std::alloc::Global;

/// Starts a group in an empty slot. Where a parameter is out of its range `fault` has its number.
#[unsafe(no_mangle)]
pub extern "C" fn h263rps_raw_group_start(
    alloc: Global,
    slot: &mut GroupSlot,
    asked: &Asked,
    fault: &mut u32,
) -> u32
    ensures result { result ≢ refusal_number refusals.NoMemory
        → result ≡ status_of (group_refusal slot.old.handle.inside (params_asked asked.now)) }
    ensures memory { result ≡ refusal_number refusals.NoMemory
        → group_refusal slot.old.handle.inside (params_asked asked.now) ≡ None }
    ensures same { result ≢ 0 → slot.new.handle.inside ≡ slot.old.handle.inside }
    ensures counts { result ≢ 0 → slot.new.counted ≡ slot.old.counted }
    ensures nothing { result ≡ 0 → slot.new.counted ≡ counts.no_statistics }
    ensures fault { fault.new
        ≡ group_fault slot.old.handle.inside (params_asked asked.now) fault.old }
    ensures stands { result ≡ 0 → IfOk (params_asked asked.now)
        (λ p. HoldsKept p asked.now.target [] slot.new.handle.inside) }
{
    if slot.is_started() {
        return EndRefusal::Started.number();
    }
    match asked.params() {
        Err(number) => {
            *fault = number;
            EndRefusal::BadParams.number()
        }
        Ok(params) => match KeptGroup::start(alloc, &params, asked.target) {
            Err(refusal) => refusal.number(),
            Ok(group) => {
                put(slot, group);
                OK
            }
        },
    }
}

/// A receiver joins a group at a place, 0 to 15. It begins with the next picture, and has none of
/// those before. One that was there has left.
#[unsafe(no_mangle)]
pub extern "C" fn h263rps_raw_group_join(slot: &mut GroupSlot, receiver: u32) -> u32
    ensures result { result ≡ status_of (for_group (place_refusal receiver) slot.old.handle.inside) }
    ensures same { result ≢ 0 → slot.new.handle.inside ≡ slot.old.handle.inside }
    ensures counts { slot.new.counted ≡ slot.old.counted }
    ensures packets { group_packets_in slot.new.handle.inside
        ≡ group_packets_in slot.old.handle.inside }
    ensures stands { (p : Params) (first : ℕ) (past : List Managing)
        → HoldsKept p first past slot.old.handle.inside → result ≡ 0
        → HoldsKept p first (groups.Join receiver ∷ past) slot.new.handle.inside }
{
    if !slot.is_started() {
        return EndRefusal::NotStarted.number();
    }
    match slot.handle.group_mut().join(receiver) {
        Err(refusal) => refusal.number(),
        Ok(()) => OK,
    }
}

/// The receiver at this place leaves a group: what it has doesn't matter any more.
#[unsafe(no_mangle)]
pub extern "C" fn h263rps_raw_group_leave(slot: &mut GroupSlot, receiver: u32) -> u32
    ensures result { result ≡ status_of (for_group (place_refusal receiver) slot.old.handle.inside) }
    ensures same { result ≢ 0 → slot.new.handle.inside ≡ slot.old.handle.inside }
    ensures counts { slot.new.counted ≡ slot.old.counted }
    ensures packets { group_packets_in slot.new.handle.inside
        ≡ group_packets_in slot.old.handle.inside }
    ensures stands { (p : Params) (first : ℕ) (past : List Managing)
        → HoldsKept p first past slot.old.handle.inside → result ≡ 0
        → HoldsKept p first (groups.Leave receiver ∷ past) slot.new.handle.inside }
{
    if !slot.is_started() {
        return EndRefusal::NotStarted.number();
    }
    match slot.handle.group_mut().leave(receiver) {
        Err(refusal) => refusal.number(),
        Ok(()) => OK,
    }
}

/// Codes a group's next picture, with up to four messages about pictures of the other direction.
#[unsafe(no_mangle)]
pub extern "C" fn h263rps_raw_group_code(
    slot: &mut GroupSlot,
    picture: &[u8],
    messages: &[CMessage],
    made: &mut Made,
) -> u32
    ensures result { result
        ≡ status_of (for_group (capture_refusal picture.now messages.now) slot.old.handle.inside) }
    ensures same { result ≢ 0 → slot.new.handle.inside ≡ slot.old.handle.inside }
    ensures counts { result ≢ 0 → slot.new.counted ≡ slot.old.counted }
    ensures counted { result ≡ 0 → slot.new.counted ≡ counts.with_made made.new slot.old.counted }
    ensures unmade { result ≢ 0 → made.new ≡ made.old }
    ensures count { result ≡ 0
        → made.new.packets ≡ length (group_packets_in slot.new.handle.inside) }
    ensures stands { (p : Params) (first : ℕ) (past : List Managing) (back : List Message)
        → HoldsKept p first past slot.old.handle.inside
        → messages_of p.clock messages.now ≡ Some back → result ≡ 0
        → HoldsKept p first (groups.Capture (frame_given p picture.now back) ∷ past)
        slot.new.handle.inside }
    ensures makes { (p : Params) (first : ℕ) (past : List Managing) (back : List Message)
        → HoldsKept p first past slot.old.handle.inside
        → messages_of p.clock messages.now ≡ Some back → result ≡ 0
        → TellsCoded (length (group_after p (target_if_any first) past).coded)
        (next_of_group p (group_pace p (target_if_any first) past) (frame_given p picture.now back)
        (group_after p (target_if_any first) past)) made.new }
{
    if !slot.is_started() {
        return EndRefusal::NotStarted.number();
    }
    match slot.handle.group_mut().code(picture, messages) {
        Err(refusal) => refusal.number(),
        Ok(coded) => {
            *made = Made::of(&coded);
            slot.counted = slot.counted.with_made(made);
            OK
        }
    }
}

/// Copies a packet of the picture that a group coded last to the start of a room.
#[unsafe(no_mangle)]
pub extern "C" fn h263rps_raw_group_packet(
    slot: &mut GroupSlot,
    number: u32,
    room: &mut [u8],
    count: &mut usize,
) -> u32
    ensures result { result
        ≡ status_of (for_group (packet_refusal number (length room.old)) slot.old.handle.inside) }
    ensures same { slot.new.handle.inside ≡ slot.old.handle.inside }
    ensures counts { result ≢ 0 → slot.new.counted ≡ slot.old.counted }
    ensures counted { result ≡ 0
        → slot.new.counted ≡ counts.statistics_with_packet count.new slot.old.counted }
    ensures uncounted { result ≢ 0 → count.new ≡ count.old }
    ensures unwritten { result ≢ 0 → room.new ≡ room.old }
    ensures count { result ≡ 0 → count.new
        ≡ length (slice_index_or (group_packets_in slot.old.handle.inside) number []) }
    ensures written { result ≡ 0 → room.new
        ≡ slice_index_or (group_packets_in slot.old.handle.inside) number []
        ++ drop count.new room.old }
    // room for `limit` bytes is enough
    ensures enough { (p : Params) (first : ℕ) (past : List Managing)
        → HoldsKept p first past slot.old.handle.inside
        → result ≡ refusal_number refusals.ShortRoom → length room.old < p.limit }
    ensures stands { (p : Params) (first : ℕ) (past : List Managing)
        → HoldsKept p first past slot.old.handle.inside → result ≡ 0
        → slice_index_or (group_packets_in slot.old.handle.inside) number []
        ≡ slice_index_or (group_packets p (group_after p (target_if_any first) past)) number [] }
{
    if !slot.is_started() {
        return EndRefusal::NotStarted.number();
    }
    match slot.handle.group_mut().packet(number, room) {
        Err(refusal) => refusal.number(),
        Ok(copied) => {
            *count = copied;
            slot.counted = slot.counted.with_packet(copied);
            OK
        }
    }
}

/// Gives a message of the receiver at this place to a group. Only what is known of this receiver
/// changes.
#[unsafe(no_mangle)]
pub extern "C" fn h263rps_raw_group_feedback(
    slot: &mut GroupSlot,
    receiver: u32,
    message: &[u8],
    reply: &mut Reply,
) -> u32
    ensures empty { slot.old.handle.inside ≡ None → result ≡ refusal_number refusals.NotStarted }
    ensures result { (p : Params) (first : ℕ) (past : List Managing)
        → HoldsKept p first past slot.old.handle.inside → result ≡ status_of (said_refusal receiver
        (answer_to p receiver message.now (group_after p (target_if_any first) past))) }
    ensures counts { result ≢ 0 → slot.new.counted ≡ slot.old.counted }
    ensures counted { result ≡ 0
        → slot.new.counted ≡ counts.statistics_with_reply reply.new slot.old.counted }
    ensures unanswered { result ≢ 0 → reply.new ≡ reply.old }
    // only a message that is noted changes anything
    ensures unnoted { result ≢ 0 → known_in_group slot.new.handle.inside
        ≡ known_in_group slot.old.handle.inside }
    ensures old { result ≡ 0 → 1 ≤ reply.new.kind → known_in_group slot.new.handle.inside
        ≡ known_in_group slot.old.handle.inside }
    ensures packets { group_packets_in slot.new.handle.inside
        ≡ group_packets_in slot.old.handle.inside }
    ensures stands { (p : Params) (first : ℕ) (past : List Managing)
        → HoldsKept p first past slot.old.handle.inside → result ≡ 0
        → HoldsKept p first (groups.Feedback receiver message.now ∷ past) slot.new.handle.inside }
    ensures answer { (p : Params) (first : ℕ) (past : List Managing)
        → HoldsKept p first past slot.old.handle.inside → result ≡ 0
        → TellsSaid reply.new
        (answer_to p receiver message.now (group_after p (target_if_any first) past)) }
{
    if !slot.is_started() {
        return EndRefusal::NotStarted.number();
    }
    match slot.handle.group_mut().feedback(receiver, message) {
        Err(refusal) => refusal.number(),
        Ok(answer) => {
            *reply = Reply::of(&answer);
            slot.counted = slot.counted.with_reply(reply);
            OK
        }
    }
}

// A number as C has it, the greatest where there is none.
fn number_or_most(number: Option<u32>) -> u32
    ensures { result ≡ number_or_most number }
{
    match number {
        None => u32::MAX,
        Some(number) => number,
    }
}

/// The first receiver of a group that isn't known to have any picture in the window; the greatest
/// number where there is none. While there is one each picture is coded by itself, for all.
#[unsafe(no_mangle)]
pub extern "C" fn h263rps_raw_group_waiting_for(slot: &mut GroupSlot, receiver: &mut u32) -> u32
    ensures result { result ≡ status_of (for_group never slot.old.handle.inside) }
    ensures same { slot.new.handle.inside ≡ slot.old.handle.inside }
    ensures counts { slot.new.counted ≡ slot.old.counted }
    ensures untold { result ≢ 0 → receiver.new ≡ receiver.old }
    ensures told { (p : Params) (first : ℕ) (past : List Managing)
        → HoldsKept p first past slot.old.handle.inside → receiver.new
        ≡ number_or_most (waited_for (rules_of p) (group_after p (target_if_any first) past)) }
{
    if !slot.is_started() {
        return EndRefusal::NotStarted.number();
    }
    *receiver = number_or_most(slot.handle.group_mut().waiting_for());
    OK
}

/// The newest picture that each receiver of a group is known to have, of those to which the next one
/// may refer; the greatest number where there is none, so that the next one is coded by itself.
#[unsafe(no_mangle)]
pub extern "C" fn h263rps_raw_group_reference(slot: &mut GroupSlot, number: &mut u32) -> u32
    ensures result { result ≡ status_of (for_group never slot.old.handle.inside) }
    ensures same { slot.new.handle.inside ≡ slot.old.handle.inside }
    ensures counts { slot.new.counted ≡ slot.old.counted }
    ensures untold { result ≢ 0 → number.new ≡ number.old }
    ensures told { (p : Params) (first : ℕ) (past : List Managing)
        → HoldsKept p first past slot.old.handle.inside → number.new
        ≡ number_or_most (newest_of_all (rules_of p) (group_after p (target_if_any first) past)) }
{
    if !slot.is_started() {
        return EndRefusal::NotStarted.number();
    }
    *number = number_or_most(slot.handle.group_mut().next_reference());
    OK
}

/// A group follows another target in bytes per picture from its next picture on, up to 999,999, or
/// none where it is 0.
#[unsafe(no_mangle)]
pub extern "C" fn h263rps_raw_group_target(slot: &mut GroupSlot, target: u32) -> u32
    ensures result { result ≡ status_of (for_group (target_refusal target) slot.old.handle.inside) }
    ensures same { result ≢ 0 → slot.new.handle.inside ≡ slot.old.handle.inside }
    ensures counts { slot.new.counted ≡ slot.old.counted }
    ensures packets { group_packets_in slot.new.handle.inside
        ≡ group_packets_in slot.old.handle.inside }
    ensures stands { (p : Params) (first : ℕ) (past : List Managing)
        → HoldsKept p first past slot.old.handle.inside → result ≡ 0
        → HoldsKept p first (groups.Target (target_if_any target) ∷ past) slot.new.handle.inside }
{
    if !slot.is_started() {
        return EndRefusal::NotStarted.number();
    }
    match slot.handle.group_mut().follow(target) {
        Err(refusal) => refusal.number(),
        Ok(()) => OK,
    }
}

/// A group codes with this quantiser, 1 to 31, from its next picture on, and follows no target.
#[unsafe(no_mangle)]
pub extern "C" fn h263rps_raw_group_quant(slot: &mut GroupSlot, quant: u8) -> u32
    ensures result { result ≡ status_of (for_group (quant_refusal quant) slot.old.handle.inside) }
    ensures same { result ≢ 0 → slot.new.handle.inside ≡ slot.old.handle.inside }
    ensures counts { slot.new.counted ≡ slot.old.counted }
    ensures packets { group_packets_in slot.new.handle.inside
        ≡ group_packets_in slot.old.handle.inside }
    ensures stands { (p : Params) (first : ℕ) (past : List Managing)
        → HoldsKept p first past slot.old.handle.inside → result ≡ 0
        → HoldsKept p first (groups.Quant quant ∷ past) slot.new.handle.inside }
{
    if !slot.is_started() {
        return EndRefusal::NotStarted.number();
    }
    match slot.handle.group_mut().fix(quant) {
        Err(refusal) => refusal.number(),
        Ok(()) => OK,
    }
}

/// How many pictures a group has coded: the number of its next one, with which a receiver begins that
/// joins.
#[unsafe(no_mangle)]
pub extern "C" fn h263rps_raw_group_sent(slot: &mut GroupSlot, count: &mut u32) -> u32
    ensures result { result ≡ status_of (for_group never slot.old.handle.inside) }
    ensures same { slot.new.handle.inside ≡ slot.old.handle.inside }
    ensures counts { slot.new.counted ≡ slot.old.counted }
    ensures uncounted { result ≢ 0 → count.new ≡ count.old }
    ensures told { (p : Params) (first : ℕ) (past : List Managing)
        → HoldsKept p first past slot.old.handle.inside
        → count.new ≡ length (group_after p (target_if_any first) past).coded }
{
    if !slot.is_started() {
        return EndRefusal::NotStarted.number();
    }
    *count = slot.handle.group_mut().sent();
    OK
}

/// What a group has counted since its start.
#[unsafe(no_mangle)]
pub extern "C" fn h263rps_raw_group_statistics(
    slot: &mut GroupSlot,
    statistics: &mut Statistics,
) -> u32
    ensures result { result ≡ status_of (for_group never slot.old.handle.inside) }
    ensures same { slot.new.handle.inside ≡ slot.old.handle.inside }
    ensures counts { slot.new.counted ≡ slot.old.counted }
    ensures untold { result ≢ 0 → statistics.new ≡ statistics.old }
    ensures told { result ≡ 0 → statistics.new ≡ slot.old.counted }
{
    if !slot.is_started() {
        return EndRefusal::NotStarted.number();
    }
    *statistics = slot.counted;
    OK
}

/// Gives a group's memory back, and leaves its slot empty.
#[unsafe(no_mangle)]
pub extern "C" fn h263rps_raw_group_finish(alloc: Global, slot: &mut GroupSlot) -> u32
    ensures result { result ≡ status_of (for_group never slot.old.handle.inside) }
    ensures empty { slot.new.handle.inside ≡ None }
    ensures nothing { result ≡ 0 → slot.new.counted ≡ counts.no_statistics }
{
    if !slot.is_started() {
        return EndRefusal::NotStarted.number();
    }
    let _group = taken(alloc, slot);
    OK
}

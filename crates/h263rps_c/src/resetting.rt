//! Ends of C that begin a call anew, in the memory that they have.
ghost use Rattle.std.specs.Prelude.{Bool, ◌≡◌, ◌≢◌, ◌≤◌, ℕ, List, [], Some, IfErr, IsOk};
ghost use Rattle.h263_types.specs.declared.params.Params.{Params};
ghost use Rattle.call_model.specs.Receiving.{ReceiverEntry};
ghost use Rattle.call_model.specs.Sending.{SenderEntry};
ghost use Rattle.call_encoding.specs.Frames.{Frame};
ghost use Rattle.receiver_end.specs.State as receivers;
ghost use Rattle.receiver_end.specs.State.{plays_alone};
ghost use Rattle.h263rps_c.specs.Counting as counts;
ghost use Rattle.h263rps_c.specs.Ends.{HoldsReceiver, HoldsSteered, end_packets};
ghost use Rattle.h263rps_c.specs.Refusals.{end_refusal, reset_refusal, status_of, target_refusal};
ghost use Rattle.h263rps_c.specs.Slots.{for_receiver, for_sender};
ghost use Rattle.h263rps_c.specs.Steering.{Steering};
ghost use Rattle.h263rps_c.specs.Stays.{Stays};

use crate::MOST_PICTURES;
use crate::counting::Statistics;
use crate::ends::End;
use crate::handles::Slot;
use crate::refusals::{EndRefusal, OK};
use receiver_end::Receiver;

// Begins a receiver's call anew, if its next picture may have this number.
fn restart_at(receiver: &mut Receiver, number: u32) -> Result<(), EndRefusal>
    ensures refusal { end_refusal result ≡ reset_refusal number receiver.old }
    ensures same { IfErr result (λ why. receiver.new ≡ receiver.old) }
    ensures params { receiver.new.params ≡ receiver.old.params }
    ensures stands { IsOk result → receivers.Stands receiver.new (plays_alone number) }
{
    if number > MOST_PICTURES {
        return Err(EndRefusal::BadParams);
    }
    receiver.restart(number);
    Ok(())
}

impl End {
    // A receiver begins a call anew at this number.
    fn receive_anew(&mut self, number: u32) -> Result<(), EndRefusal>
        ensures refusal { end_refusal result ≡ for_receiver (reset_refusal number) (Some self.old) }
        ensures same { IfErr result (λ why. self.new ≡ self.old) }
        ensures stands { (p : Params) (past : List ReceiverEntry)
            → HoldsReceiver p past (Some self.old) → IsOk result
            → HoldsReceiver p (plays_alone number) (Some self.new) }
    {
        match self {
            End::Sending(_) => Err(EndRefusal::OtherEnd),
            End::Receiving(receiver) => restart_at(receiver, number),
            End::Repeats(_) => Err(EndRefusal::OtherEnd),
            End::Line(_) => Err(EndRefusal::OtherEnd),
        }
    }

    // A sender begins a call anew with this target.
    fn send_anew(&mut self, target: u32) -> Result<(), EndRefusal>
        ensures refusal { end_refusal result ≡ for_sender (target_refusal target) (Some self.old) }
        ensures same { IfErr result (λ why. self.new ≡ self.old) }
        ensures packets { IsOk result → end_packets (Some self.new) ≡ [] }
        ensures steers { (p : Params) (fits : Bool) (first : ℕ) (past : List Steering)
            → HoldsSteered p fits first past (Some self.old) → IsOk result
            → HoldsSteered p fits target [] (Some self.new) }
    {
        match self {
            End::Sending(sending) => sending.restart(target),
            End::Receiving(_) => Err(EndRefusal::OtherEnd),
            End::Repeats(_) => Err(EndRefusal::OtherEnd),
            End::Line(_) => Err(EndRefusal::OtherEnd),
        }
    }
}

/// A receiver begins a call anew, in the memory that it has. Its next picture is the one of this
/// number, up to 1,048,576.
#[unsafe(no_mangle)]
pub extern "C" fn h263rps_raw_receiver_reset(slot: &mut Slot, number: u32) -> u32
    ensures result { result
        ≡ status_of (for_receiver (reset_refusal number) slot.old.handle.inside) }
    ensures same { result ≢ 0 → Stays slot.old slot.new }
    ensures nothing { result ≡ 0 → slot.new.counted ≡ counts.no_statistics }
    ensures stands { (p : Params) (past : List ReceiverEntry)
        → HoldsReceiver p past slot.old.handle.inside → result ≡ 0
        → HoldsReceiver p (plays_alone number) slot.new.handle.inside }
{
    if !slot.is_started() {
        return EndRefusal::NotStarted.number();
    }
    match slot.handle.end_mut().receive_anew(number) {
        Err(refusal) => refusal.number(),
        Ok(()) => {
            slot.counted = Statistics::none();
            OK
        }
    }
}

/// A sender begins a call anew, in the memory that it has. It follows this target in bytes per
/// picture, up to 999,999, or none where it is 0.
#[unsafe(no_mangle)]
pub extern "C" fn h263rps_raw_sender_reset(slot: &mut Slot, target: u32) -> u32
    ensures result { result
        ≡ status_of (for_sender (target_refusal target) slot.old.handle.inside) }
    ensures same { result ≢ 0 → Stays slot.old slot.new }
    ensures nothing { result ≡ 0 → slot.new.counted ≡ counts.no_statistics }
    ensures packets { result ≡ 0 → end_packets slot.new.handle.inside ≡ [] }
    ensures steers { (p : Params) (fits : Bool) (first : ℕ) (past : List Steering)
        → HoldsSteered p fits first past slot.old.handle.inside → result ≡ 0
        → HoldsSteered p fits target [] slot.new.handle.inside }
{
    if !slot.is_started() {
        return EndRefusal::NotStarted.number();
    }
    match slot.handle.end_mut().send_anew(target) {
        Err(refusal) => refusal.number(),
        Ok(()) => {
            slot.counted = Statistics::none();
            OK
        }
    }
}

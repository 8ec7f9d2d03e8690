//! What is done to a group that is kept for C, which owes none of its conditions.
ghost use Rattle.std.specs.Prelude.{◌≡◌, ◌<◌, ◌≤◌, ℕ, List, [], ◌∷◌, ◌++◌, Err, Ok, Some, IfErr, IfOk, IsOk, drop, length, slice_index_or};
ghost use Rattle.h263_types.specs.Params.{IsParams};
ghost use Rattle.h263_types.specs.declared.params.Params.{Params};
ghost use Rattle.back_messages.specs.declared.message.Message.{Message};
ghost use Rattle.call_decoding.specs.Rules.{rules_of};
ghost use Rattle.sender_end.specs.Stands as senders;
ghost use Rattle.sender_end.specs.declared.answers.Feedback.TheVariants.{Noted};
ghost use Rattle.group_sender.specs.Holding.{answer_to, group_packets, next_of_group};
ghost use Rattle.group_sender.specs.Running.{newest_of_all, waited_for};
ghost use Rattle.h263rps_c.specs.Groups.{HoldsKept, Managing, group_after, group_pace, place_refusal, said_refusal};
ghost use Rattle.h263rps_c.specs.Groups as groups;
ghost use Rattle.h263rps_c.specs.Messages.{messages_of};
ghost use Rattle.h263rps_c.specs.Pace.{target_if_any};
ghost use Rattle.h263rps_c.specs.Refusals.{capture_refusal, packet_refusal, quant_refusal, end_refusal, target_refusal};
ghost use Rattle.h263rps_c.specs.Sending.{frame_given};
ghost use Rattle.h263rps_c.specs.declared.refusals.EndRefusal.TheVariants as refusals;

use crate::MOST_PICTURES;
use crate::answers::CMessage;
use crate::kept_group::KeptGroup;
use crate::messages::messages_from;
use crate::refusals::EndRefusal;
use crate::sending::{MOST_BYTES, copy_to_start, followed};
use group_sender::Group;
use h263_planes::PictureRef;
use h263_types::Params;
use rate_control::SendPace;
use sender_end::{Coded, Feedback};
use std::alloc::Global;

const PLACES: u32 = 16;

impl KeptGroup {
    /// A group before its first picture, and nobody to receive it.
    pub fn start(alloc: Global, params: &Params, target: u32) -> Result<Box<KeptGroup>, EndRefusal>
        requires params { IsParams params.now }
        requires target { target ≤ 999999 }
        ensures memory { IfErr result (λ why. why ≡ refusals.NoMemory) }
        ensures stands { IfOk result (λ k. HoldsKept params.now target [] (Some k.value)) }
    {
        let pace = SendPace::choose(followed(target), params.quant);
        let Ok(group) = Group::start_without_recon(alloc, params, pace) else {
            return Err(EndRefusal::NoMemory);
        };
        let kept = KeptGroup {
            group,
            params: *params,
            packets: 0,
        };
        match Box::new(alloc, kept) {
            Err(_) => Err(EndRefusal::NoMemory),
            Ok(kept) => Ok(kept),
        }
    }

    /// A receiver joins at this place, and begins with the next picture.
    pub fn join(&mut self, receiver: u32) -> Result<(), EndRefusal>
        ensures refusal { end_refusal result ≡ place_refusal receiver self.old.group.sender }
        ensures same { IfErr result (λ why. self.new ≡ self.old) }
        ensures sender { self.new.group.sender ≡ self.old.group.sender }
        ensures stands { (p : Params) (first : ℕ) (past : List Managing)
            → HoldsKept p first past (Some self.old) → IsOk result
            → HoldsKept p first (groups.Join receiver ∷ past) (Some self.new) }
    {
        if receiver >= PLACES {
            return Err(EndRefusal::BadParams);
        }
        self.group.join(receiver);
        Ok(())
    }

    /// The receiver at this place leaves.
    pub fn leave(&mut self, receiver: u32) -> Result<(), EndRefusal>
        ensures refusal { end_refusal result ≡ place_refusal receiver self.old.group.sender }
        ensures same { IfErr result (λ why. self.new ≡ self.old) }
        ensures sender { self.new.group.sender ≡ self.old.group.sender }
        ensures stands { (p : Params) (first : ℕ) (past : List Managing)
            → HoldsKept p first past (Some self.old) → IsOk result
            → HoldsKept p first (groups.Leave receiver ∷ past) (Some self.new) }
    {
        if receiver >= PLACES {
            return Err(EndRefusal::BadParams);
        }
        self.group.leave(receiver);
        Ok(())
    }

    /// Captures the next picture, with these messages in its header.
    pub fn code(&mut self, bytes: &[u8], back: &[CMessage]) -> Result<Coded, EndRefusal>
        ensures refusal { end_refusal result
            ≡ capture_refusal bytes.now back.now self.old.group.sender }
        ensures same { IfErr result (λ why. self.new ≡ self.old) }
        ensures count { IfOk result (λ coded.
            coded.packets ≡ length self.new.group.sender.packets) }
        ensures stands { (p : Params) (first : ℕ) (past : List Managing)
            (messages : List Message) → HoldsKept p first past (Some self.old)
            → messages_of p.clock back.now ≡ Some messages → IsOk result
            → HoldsKept p first (groups.Capture (frame_given p bytes.now messages) ∷ past)
            (Some self.new) }
        ensures makes { (p : Params) (first : ℕ) (past : List Managing)
            (messages : List Message) → HoldsKept p first past (Some self.old)
            → messages_of p.clock back.now ≡ Some messages → IfOk result (λ coded.
            senders.Describes (length (group_after p (target_if_any first) past).coded)
            (next_of_group p (group_pace p (target_if_any first) past)
            (frame_given p bytes.now messages) (group_after p (target_if_any first) past)) coded) }
    {
        if self.group.sent() >= MOST_PICTURES {
            return Err(EndRefusal::Ended);
        }
        if bytes.len() != self.params.format.size() as usize {
            return Err(EndRefusal::WrongLength);
        }
        if back.len() > 4 {
            return Err(EndRefusal::BadMessages);
        }
        let Some(messages) = messages_from(back, self.params.clock) else {
            return Err(EndRefusal::BadMessages);
        };
        let frame = PictureRef::new(self.params.format, bytes);
        let coded = self.group.code(frame, messages.as_slice());
        self.packets = coded.packets;
        Ok(coded)
    }

    /// Copies packet i of the last picture to the start of a room, and says how many bytes it has.
    pub fn packet(&self, i: u32, room: &mut [u8]) -> Result<usize, EndRefusal>
        ensures refusal { end_refusal result
            ≡ packet_refusal i (length room.old) self.now.group.sender }
        ensures unwritten { IfErr result (λ why. room.new ≡ room.old) }
        ensures count { IfOk result (λ count.
            count ≡ length (slice_index_or self.now.group.sender.packets i [])) }
        ensures written { IfOk result (λ count.
            room.new ≡ slice_index_or self.now.group.sender.packets i [] ++ drop count room.old) }
        ensures enough { result ≡ Err refusals.ShortRoom
            → length room.old < self.now.group.params.limit }
        ensures stands { (p : Params) (first : ℕ) (past : List Managing)
            → HoldsKept p first past (Some self.now) → IsOk result
            → slice_index_or self.now.group.sender.packets i []
            ≡ slice_index_or (group_packets p (group_after p (target_if_any first) past)) i [] }
    {
        if i >= self.packets {
            return Err(EndRefusal::NoPacket);
        }
        let packet = self.group.packet(i);
        if packet.len() > room.len() {
            return Err(EndRefusal::ShortRoom);
        }
        copy_to_start(room, packet);
        Ok(packet.len())
    }

    /// Takes the bytes of a message of the receiver at this place.
    pub fn feedback(&mut self, receiver: u32, bytes: &[u8]) -> Result<Feedback, EndRefusal>
        ensures refusal { (p : Params) (first : ℕ) (past : List Managing)
            → HoldsKept p first past (Some self.old) → end_refusal result ≡ said_refusal receiver
            (answer_to p receiver bytes.now (group_after p (target_if_any first) past)) }
        ensures sender { self.new.group.sender ≡ self.old.group.sender }
        ensures unnoted { (result ≡ Ok Noted → ⊥)
            → self.new.group.members.items ≡ self.old.group.members.items }
        ensures stands { (p : Params) (first : ℕ) (past : List Managing)
            → HoldsKept p first past (Some self.old) → IsOk result
            → HoldsKept p first (groups.Feedback receiver bytes.now ∷ past) (Some self.new) }
        ensures answer { (p : Params) (first : ℕ) (past : List Managing)
            → HoldsKept p first past (Some self.old) → IfOk result (λ answer.
            Some (senders.reply_of answer)
            ≡ answer_to p receiver bytes.now (group_after p (target_if_any first) past)) }
    {
        if receiver >= PLACES {
            return Err(EndRefusal::BadParams);
        }
        match self.group.feedback(receiver, bytes) {
            None => Err(EndRefusal::NoReceiver),
            Some(answer) => Ok(answer),
        }
    }

    /// The first receiver that isn't known to have any picture in the window.
    pub fn waiting_for(&self) -> Option<u32>
        ensures { (p : Params) (first : ℕ) (past : List Managing)
            → HoldsKept p first past (Some self.now)
            → result ≡ waited_for (rules_of p) (group_after p (target_if_any first) past) }
    {
        self.group.waiting_for()
    }

    /// The newest picture in the window that each receiver that is there is known to have.
    pub fn next_reference(&self) -> Option<u32>
        ensures { (p : Params) (first : ℕ) (past : List Managing)
            → HoldsKept p first past (Some self.now)
            → result ≡ newest_of_all (rules_of p) (group_after p (target_if_any first) past) }
    {
        self.group.next_reference()
    }

    /// Follows this target from the next picture on, or none where it is 0.
    pub fn follow(&mut self, target: u32) -> Result<(), EndRefusal>
        ensures refusal { end_refusal result ≡ target_refusal target self.old.group.sender }
        ensures same { IfErr result (λ why. self.new ≡ self.old) }
        ensures packets { self.new.group.sender.packets ≡ self.old.group.sender.packets }
        ensures stands { (p : Params) (first : ℕ) (past : List Managing)
            → HoldsKept p first past (Some self.old) → IsOk result
            → HoldsKept p first (groups.Target (target_if_any target) ∷ past) (Some self.new) }
    {
        if target > MOST_BYTES {
            return Err(EndRefusal::BadParams);
        }
        self.group
            .set_pace(SendPace::choose(followed(target), self.params.quant));
        Ok(())
    }

    /// Codes with this quantiser from the next picture on, and follows no target.
    pub fn fix(&mut self, quant: u8) -> Result<(), EndRefusal>
        ensures refusal { end_refusal result ≡ quant_refusal quant self.old.group.sender }
        ensures same { IfErr result (λ why. self.new ≡ self.old) }
        ensures packets { self.new.group.sender.packets ≡ self.old.group.sender.packets }
        ensures stands { (p : Params) (first : ℕ) (past : List Managing)
            → HoldsKept p first past (Some self.old) → IsOk result
            → HoldsKept p first (groups.Quant quant ∷ past) (Some self.new) }
    {
        if quant == 0 {
            return Err(EndRefusal::BadParams);
        }
        if quant > 31 {
            return Err(EndRefusal::BadParams);
        }
        self.group.set_pace(SendPace::choose(None, quant));
        Ok(())
    }

    /// How many pictures were coded.
    pub fn sent(&self) -> u32
        ensures { (p : Params) (first : ℕ) (past : List Managing)
            → HoldsKept p first past (Some self.now)
            → result ≡ length (group_after p (target_if_any first) past).coded }
    {
        self.group.sent()
    }
}

//! A sender with what its conditions ask for, so that C owes none of them.
ghost use Rattle.std.specs.Prelude.{◌≡◌, ◌<◌, ◌≤◌, ℕ, Bool, List, [], ◌∷◌, ◌++◌, Err, Some, false, IfErr, IfOk, IsOk, drop, length, slice_index_or};
ghost use Rattle.h263_types.specs.Params.{IsParams};
ghost use Rattle.h263_types.specs.declared.params.Params.{Params};
ghost use Rattle.back_messages.specs.declared.message.Message.{Message};
ghost use Rattle.call_model.specs.Sending.{feedback_answer};
ghost use Rattle.call_model.specs.SenderStanding.{is_noted};
ghost use Rattle.call_decoding.specs.Rules.{rules_of};
ghost use Rattle.call_encoding.specs.Messages.{read_message};
ghost use Rattle.fitted_sender.specs.Stands.{IsAim};
ghost use Rattle.sender_end.specs.Known.{known_in};
ghost use Rattle.sender_end.specs.Stands as senders;
ghost use Rattle.h263rps_c.specs.Sending.{frame_given};
ghost use Rattle.h263rps_c.specs.Steering.{Steering, Steers, aimed_anew, first_in, steered_next, steered_run};
ghost use Rattle.h263rps_c.specs.Steering as steering;
ghost use Rattle.h263rps_c.specs.declared.refusals.EndRefusal.TheVariants as refusals;
ghost use Rattle.h263rps_c.specs.Messages.{messages_of};
ghost use Rattle.h263rps_c.specs.Pace.{target_if_any};
ghost use Rattle.h263rps_c.specs.Refusals.{end_refusal, capture_refusal, packet_refusal, quant_refusal, target_refusal};

use crate::MOST_PICTURES;
use crate::answers::CMessage;
use crate::messages::messages_from;
use crate::refusals::EndRefusal;
use fitted_sender::{Aim, capture};
use h263_planes::PictureRef;
use h263_types::{Kind, OutOfMemory, Params};
use rate_control::SendPace;
use sender_end::{Coded, Feedback, Sender};
use std::alloc::Global;
use std::marker::Model;

/// The greatest target, in bytes per picture.
pub const MOST_BYTES: u32 = 999_999;

/// A sender, its parameters, how many packets its last picture has, what its quantisers follow, and
/// whether it fits a target.
pub struct Sending {
    sender: Sender<SendPace>,
    params: Params,
    packets: u32,
    aim: Aim,
    fits: bool,
}

impl Model for Sending {
    ghost use Rattle.std.specs.Prelude.{◌≡◌, length};
    ghost use Rattle.h263_types.specs.Params.{IsParams};
    ghost use Rattle.fitted_sender.specs.Stands.{IsAim};
    ghost use Rattle.h263rps_c.specs.Sending.{AimedSender};

    ghost Value = { AimedSender };

    ghost view = { λ s. record { sender = s.sender; aim = s.aim; fits = s.fits } };

    ghost invariant = { λ s. (s.sender.params ≡ s.params)
        × (s.packets ≡ length s.sender.packets) × IsParams s.params × IsAim s.aim };
}

/// The target that is followed, if there is one.
pub fn followed(target: u32) -> Option<u32>
    ensures { result ≡ target_if_any target }
{
    if target == 0 { None } else { Some(target) }
}

// What the quantisers of a sender follow from its first picture on.
fn first_aim(params: &Params, target: u32, fits: bool) -> Aim
    requires params { IsParams params.now }
    requires target { target ≤ 999999 }
    ensures value { result ≡ first_in params.now fits (target_if_any target) }
    ensures ready { IsAim result }
{
    if fits {
        Aim::start(params, None, followed(target))
    } else {
        Aim::start(params, followed(target), None)
    }
}

// The same from its next picture on.
fn aim_anew(aim: &Aim, params: &Params, target: u32, fits: bool) -> Aim
    requires params { IsParams params.now }
    requires target { target ≤ 999999 }
    ensures value { result ≡ aimed_anew params.now fits (target_if_any target) aim.now }
    ensures ready { IsAim result }
{
    if fits {
        aim.refitted(params, followed(target))
    } else {
        Aim::start(params, followed(target), None)
    }
}

/// Copies bytes to the start of a room.
pub fn copy_to_start(room: &mut [u8], bytes: &[u8])
    requires { length bytes.now ≤ length room.old }
    ensures { room.new ≡ bytes.now ++ drop (length bytes.now) room.old }
{
    room[..bytes.len()].copy_from_slice(bytes);
}

impl Sending {
    /// A sender before its first picture, which fits its target or follows it.
    pub fn start(
        alloc: Global,
        params: &Params,
        target: u32,
        fits: bool,
    ) -> Result<Sending, OutOfMemory>
        requires params { IsParams params.now }
        requires target { target ≤ 999999 }
        ensures steers { IfOk result (Steers params.now fits target []) }
    {
        let aim = first_aim(params, target, fits);
        let sender = Sender::start_without_recon(alloc, params, aim.pace(Kind::I))?;
        Ok(Sending {
            sender,
            params: *params,
            packets: 0,
            aim,
            fits,
        })
    }

    /// Captures the next picture, with these messages in its header.
    pub fn code(&mut self, bytes: &[u8], back: &[CMessage]) -> Result<Coded, EndRefusal>
        ensures refusal { end_refusal result ≡ capture_refusal bytes.now back.now self.old.sender }
        ensures same { IfErr result (λ why. self.new ≡ self.old) }
        ensures count { IfOk result (λ coded. coded.packets ≡ length self.new.sender.packets) }
        ensures steers { (p : Params) (fits : Bool) (first : ℕ) (past : List Steering)
            (messages : List Message) → Steers p fits first past self.old
            → messages_of p.clock back.now ≡ Some messages → IsOk result
            → Steers p fits first (steering.Capture (frame_given p bytes.now messages) ∷ past) self.new }
        ensures makes { (p : Params) (fits : Bool) (first : ℕ) (past : List Steering)
            (messages : List Message) → Steers p fits first past self.old
            → messages_of p.clock back.now ≡ Some messages → IfOk result (λ coded.
            senders.Describes (length (steered_run p fits (target_if_any first) past).run.coded)
            (steered_next p fits (target_if_any first) (frame_given p bytes.now messages) past) coded) }
    {
        if self.sender.sent() >= MOST_PICTURES {
            return Err(EndRefusal::Ended);
        }
        if bytes.len() != self.params.format.size() as usize {
            return Err(EndRefusal::WrongLength);
        }
        if back.len() > 4 {
            return Err(EndRefusal::BadMessages);
        }
        let Some(messages) = messages_from(back, self.params.clock) else {
            return Err(EndRefusal::BadMessages);
        };
        let frame = PictureRef::new(self.params.format, bytes);
        let coded = capture(&mut self.sender, &mut self.aim, frame, messages.as_slice());
        self.packets = coded.packets;
        Ok(coded)
    }

    /// Copies packet i of the last picture to the start of a room, and says how many bytes it has.
    pub fn packet(&self, i: u32, room: &mut [u8]) -> Result<usize, EndRefusal>
        ensures refusal { end_refusal result ≡ packet_refusal i (length room.old) self.now.sender }
        ensures unwritten { IfErr result (λ why. room.new ≡ room.old) }
        ensures count { IfOk result (λ count.
            count ≡ length (slice_index_or self.now.sender.packets i [])) }
        ensures written { IfOk result (λ count.
            room.new ≡ slice_index_or self.now.sender.packets i [] ++ drop count room.old) }
        ensures enough { result ≡ Err refusals.ShortRoom
            → length room.old < self.now.sender.params.limit }
        ensures steers { (p : Params) (fits : Bool) (first : ℕ) (past : List Steering)
            → Steers p fits first past self.now → IsOk result
            → slice_index_or self.now.sender.packets i []
            ≡ slice_index_or (senders.packets_after p (steered_run p fits (target_if_any first) past)) i [] }
    {
        if i >= self.packets {
            return Err(EndRefusal::NoPacket);
        }
        let packet = self.sender.packet(i);
        if packet.len() > room.len() {
            return Err(EndRefusal::ShortRoom);
        }
        copy_to_start(room, packet);
        Ok(packet.len())
    }

    /// Takes the bytes of a message.
    pub fn feedback(&mut self, bytes: &[u8]) -> Feedback
        ensures unnoted { is_noted (senders.reply_of result) ≡ false → self.new ≡ self.old }
        ensures packets { self.new.sender.packets ≡ self.old.sender.packets }
        ensures steers { (p : Params) (fits : Bool) (first : ℕ) (past : List Steering)
            → Steers p fits first past self.old
            → Steers p fits first (steering.Feedback bytes.now ∷ past) self.new }
        ensures replies { (p : Params) (fits : Bool) (first : ℕ) (past : List Steering)
            → Steers p fits first past self.old
            → senders.reply_of result ≡ feedback_answer (rules_of p)
            (length (steered_run p fits (target_if_any first) past).run.coded)
            (read_message p.clock bytes.now) }
    {
        self.sender.feedback(bytes)
    }

    /// Follows this target from the next picture on, or none where it is 0.
    pub fn follow(&mut self, target: u32) -> Result<(), EndRefusal>
        ensures refusal { end_refusal result ≡ target_refusal target self.old.sender }
        ensures same { IfErr result (λ why. self.new ≡ self.old) }
        ensures packets { self.new.sender.packets ≡ self.old.sender.packets }
        ensures steers { (p : Params) (fits : Bool) (first : ℕ) (past : List Steering)
            → Steers p fits first past self.old → IsOk result
            → Steers p fits first (steering.Target (target_if_any target) ∷ past) self.new }
    {
        if target > MOST_BYTES {
            return Err(EndRefusal::BadParams);
        }
        self.aim = aim_anew(&self.aim, &self.params, target, self.fits);
        Ok(())
    }

    /// Codes with this quantiser from the next picture on, and follows no target.
    pub fn fix(&mut self, quant: u8) -> Result<(), EndRefusal>
        ensures refusal { end_refusal result ≡ quant_refusal quant self.old.sender }
        ensures same { IfErr result (λ why. self.new ≡ self.old) }
        ensures packets { self.new.sender.packets ≡ self.old.sender.packets }
        ensures steers { (p : Params) (fits : Bool) (first : ℕ) (past : List Steering)
            → Steers p fits first past self.old → IsOk result
            → Steers p fits first (steering.Quant quant ∷ past) self.new }
    {
        if quant == 0 {
            return Err(EndRefusal::BadParams);
        }
        if quant > 31 {
            return Err(EndRefusal::BadParams);
        }
        self.aim = Aim::fixed(quant);
        Ok(())
    }

    /// Forgets the pictures that were coded, so that the next one is coded by itself.
    pub fn forget(&mut self)
        ensures packets { self.new.sender.packets ≡ self.old.sender.packets }
        ensures steers { (p : Params) (fits : Bool) (first : ℕ) (past : List Steering)
            → Steers p fits first past self.old
            → Steers p fits first (steering.Forget ∷ past) self.new }
    {
        self.sender.forget();
    }

    /// Begins a call anew in the memory that it has, and follows this target, or none where it is 0.
    pub fn restart(&mut self, target: u32) -> Result<(), EndRefusal>
        ensures refusal { end_refusal result ≡ target_refusal target self.old.sender }
        ensures same { IfErr result (λ why. self.new ≡ self.old) }
        ensures packets { IsOk result → self.new.sender.packets ≡ [] }
        ensures steers { (p : Params) → self.old.sender.params ≡ p → IsOk result
            → Steers p self.old.fits target [] self.new }
    {
        if target > MOST_BYTES {
            return Err(EndRefusal::BadParams);
        }
        let aim = first_aim(&self.params, target, self.fits);
        self.sender.restart(aim.pace(Kind::I));
        self.aim = aim;
        self.packets = 0;
        Ok(())
    }

    /// How many pictures were coded.
    pub fn sent(&self) -> u32
        ensures value { result ≡ self.now.sender.sent }
        ensures steers { (p : Params) (fits : Bool) (first : ℕ) (past : List Steering)
            → Steers p fits first past self.now
            → result ≡ length (steered_run p fits (target_if_any first) past).run.coded }
    {
        self.sender.sent()
    }

    /// How many pictures it knows to be complete, of those to which its next picture may refer.
    pub fn known(&self) -> u32
        ensures { (p : Params) (fits : Bool) (first : ℕ) (past : List Steering)
            → Steers p fits first past self.now
            → result ≡ known_in p (steered_run p fits (target_if_any first) past) }
    {
        self.sender.known()
    }

    /// Gives all memory back.
    pub fn finish(self) {
        let Sending {
            sender,
            params: _,
            packets: _,
            aim: _,
            fits: _,
        } = self;
        sender.finish();
    }
}

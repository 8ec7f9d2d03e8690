//! An end of a call, as its slot keeps it.
ghost use Rattle.std.specs.Prelude.{Bool, ◌≡◌, ◌<◌, ◌≤◌, ℕ, List, [], ◌∷◌, ◌++◌, Err, Some, true, false, IfErr, IfOk, IsOk, drop, length, slice_index_or};
ghost use Rattle.h263_types.specs.Params.{IsParams};
ghost use Rattle.h263_types.specs.Sizes.{size_of_picture};
ghost use Rattle.h263_types.specs.declared.params.Params.{Params};
ghost use Rattle.h263_planes.specs.Samples.{bytes_of};
ghost use Rattle.back_messages.specs.declared.message.Message.{Message};
ghost use Rattle.call_model.specs.Receiving.{Packet, PlayNext, ReceiverEntry};
ghost use Rattle.call_model.specs.Sending as call;
ghost use Rattle.call_model.specs.Sending.{SenderEntry, Capture, feedback_answer};
ghost use Rattle.call_model.specs.SenderStanding.{is_noted};
ghost use Rattle.call_decoding.specs.Rules.{rules_of};
ghost use Rattle.call_encoding.specs.Frames.{Frame};
ghost use Rattle.call_encoding.specs.Messages.{read_message};
ghost use Rattle.receiver_end.specs.Answers.{IsHeard, IsPlayed, takes};
ghost use Rattle.receiver_end.specs.State as receivers;
ghost use Rattle.receiver_end.specs.State.{plays_alone};
ghost use Rattle.sender_end.specs.Known.{known_in};
ghost use Rattle.sender_end.specs.Stands as senders;
ghost use Rattle.h263rps_c.specs.Ends.{HoldsReceiver, HoldsSteered, ShowsPicture, end_packets};
ghost use Rattle.h263rps_c.specs.Sending.{frame_given};
ghost use Rattle.h263rps_c.specs.Steering.{Steering, steered_next, steered_run};
ghost use Rattle.h263rps_c.specs.Steering as steering;
ghost use Rattle.h263rps_c.specs.Messages.{messages_of};
ghost use Rattle.h263rps_c.specs.Pace.{target_pace, target_if_any};
ghost use Rattle.h263rps_c.specs.Refusals.{end_refusal, next_refusal, play_refusal, capture_refusal, packet_refusal, target_refusal};
ghost use Rattle.h263rps_c.specs.Slots.{for_kind, for_receiver, for_sender, never};
ghost use Rattle.h263rps_c.specs.declared.refusals.EndRefusal.TheVariants as refusals;

use crate::MOST_PICTURES;
use crate::answers::CMessage;
use crate::refusals::EndRefusal;
use crate::sending::Sending;
use h263_planes::laws;
use h263_types::Params;
use line_follower::Follower;
use packet_repeats::Repeats;
use receiver_end::{Arrival, Played, Receiver};
use sender_end::{Coded, Feedback};
use std::alloc::Global;

/// An end of a call, or what a sender has beside it.
pub enum End {
    Sending(Sending),
    Receiving(Receiver),
    /// The packets that it sent last.
    Repeats(Repeats),
    /// What follows its line.
    Line(Follower),
}

/// Which of them it is.
#[derive(Clone, Copy)]
pub enum EndKind {
    Sender,
    Receiver,
    Repeats,
    Line,
}

impl Drop for End {
    fn drop(self) {
        match self {
            End::Sending(sending) => sending.finish(),
            End::Receiving(receiver) => receiver.finish(),
            End::Repeats(repeats) => repeats.finish(),
            End::Line(_) => {}
        }
    }
}

// Copies a picture into room of its length.
fn copy(to: &mut [u8], from: &[u8])
    requires { length to.old ≡ length from.now }
    ensures { to.new ≡ from.now }
{
    to.copy_from_slice(from);
}

// Plays, if the run hasn't ended.
fn play_next(receiver: &mut Receiver) -> Result<Played, EndRefusal>
    ensures refusal { end_refusal result ≡ next_refusal receiver.old }
    ensures same { IfErr result (λ why. receiver.new ≡ receiver.old) }
    ensures params { receiver.new.params ≡ receiver.old.params }
    ensures told { (past : List ReceiverEntry) → receivers.Stands receiver.old past
        → IfOk result (λ played. IsPlayed receiver.old.params.clock played
        (receivers.mark_after receiver.old.params past)
        (receivers.message_after receiver.old.params past)) }
    ensures number { (past : List ReceiverEntry) → receivers.Stands receiver.old past
        → IfOk result (λ played.
        played.number ≡ (receivers.run_of receiver.old.params past).played) }
    ensures reference { (past : List ReceiverEntry) → receivers.Stands receiver.old past
        → IfOk result (λ played.
        played.reference ≡ receivers.reference_after receiver.old.params past) }
    ensures stands { (past : List ReceiverEntry) → receivers.Stands receiver.old past
        → IsOk result → receivers.Stands receiver.new (PlayNext ∷ past) }
{
    if receiver.played() >= MOST_PICTURES {
        return Err(EndRefusal::Ended);
    }
    Ok(receiver.play())
}

// Plays into room for a picture.
fn play_into(receiver: &mut Receiver, picture: &mut [u8]) -> Result<Played, EndRefusal>
    ensures refusal { end_refusal result ≡ play_refusal (length picture.old) receiver.old }
    ensures same { IfErr result (λ why. receiver.new ≡ receiver.old) }
    ensures unwritten { IfErr result (λ why. picture.new ≡ picture.old) }
    ensures params { receiver.new.params ≡ receiver.old.params }
    ensures told { (past : List ReceiverEntry) → receivers.Stands receiver.old past
        → IfOk result (λ played. IsPlayed receiver.old.params.clock played
        (receivers.mark_after receiver.old.params past)
        (receivers.message_after receiver.old.params past)) }
    ensures number { (past : List ReceiverEntry) → receivers.Stands receiver.old past
        → IfOk result (λ played.
        played.number ≡ (receivers.run_of receiver.old.params past).played) }
    ensures reference { (past : List ReceiverEntry) → receivers.Stands receiver.old past
        → IfOk result (λ played.
        played.reference ≡ receivers.reference_after receiver.old.params past) }
    ensures stands { (past : List ReceiverEntry) → receivers.Stands receiver.old past
        → IsOk result → receivers.Stands receiver.new (PlayNext ∷ past) }
    ensures shown { (past : List ReceiverEntry) → receivers.Stands receiver.old past
        → IsOk result → picture.new
        ≡ bytes_of (receivers.run_of receiver.old.params (PlayNext ∷ past)).screen }
{
    if receiver.played() >= MOST_PICTURES {
        return Err(EndRefusal::Ended);
    }
    if picture.len() != receiver.shown().format().size() as usize {
        return Err(EndRefusal::WrongLength);
    }
    let played = receiver.play();
    copy(picture, receiver.shown().bytes());
    Ok(played)
}

// The samples of the picture that a receiver shows: as many as its format has.
fn samples_of(receiver: &Receiver) -> &[u8]
    ensures shown { (past : List ReceiverEntry) → receivers.Stands receiver.now past
        → result.now ≡ bytes_of (receivers.run_of receiver.now.params past).screen }
    ensures whole { length result.now ≡ size_of_picture receiver.now.params.format }
{
    laws::planes_are_bytes();
    receiver.shown().bytes()
}

impl End {
    /// A receiver before its first packet.
    pub fn receiver(alloc: Global, params: &Params) -> Result<Box<End>, EndRefusal>
        requires { IsParams params.now }
        ensures memory { IfErr result (λ why. why ≡ refusals.NoMemory) }
        ensures stands { IfOk result (λ end. HoldsReceiver params.now [] (Some end.value)) }
    {
        End::receiver_at(alloc, params, 0)
    }

    /// A receiver that has heard nothing and played this many pictures, up to 1,048,576.
    pub fn receiver_at(alloc: Global, params: &Params, number: u32) -> Result<Box<End>, EndRefusal>
        requires params { IsParams params.now }
        requires few { number ≤ 1048576 }
        ensures memory { IfErr result (λ why. why ≡ refusals.NoMemory) }
        ensures stands { IfOk result (λ end.
            HoldsReceiver params.now (plays_alone number) (Some end.value)) }
    {
        let Ok(receiver) = Receiver::start_at(alloc, params, number) else {
            return Err(EndRefusal::NoMemory);
        };
        match Box::new(alloc, End::Receiving(receiver)) {
            Err(_) => Err(EndRefusal::NoMemory),
            Ok(end) => Ok(end),
        }
    }

    /// A sender before its first picture. It fits a target in bytes per picture or follows it, or
    /// has none where that is 0.
    pub fn sender(
        alloc: Global,
        params: &Params,
        target: u32,
        fits: bool,
    ) -> Result<Box<End>, EndRefusal>
        requires params { IsParams params.now }
        requires target { target ≤ 999999 }
        ensures memory { IfErr result (λ why. why ≡ refusals.NoMemory) }
        ensures steers { IfOk result (λ end. HoldsSteered params.now fits target [] (Some end.value)) }
    {
        let Ok(sending) = Sending::start(alloc, params, target, fits) else {
            return Err(EndRefusal::NoMemory);
        };
        match Box::new(alloc, End::Sending(sending)) {
            Err(_) => Err(EndRefusal::NoMemory),
            Ok(end) => Ok(end),
        }
    }

    /// Whether it is of this kind.
    pub fn is_of(&self, kind: EndKind) -> bool
        ensures of { result ≡ true → for_kind kind (Some self.now) ≡ None }
        ensures other { result ≡ false → for_kind kind (Some self.now) ≡ Some refusals.OtherEnd }
    {
        match self {
            End::Sending(_) => matches!(kind, EndKind::Sender),
            End::Receiving(_) => matches!(kind, EndKind::Receiver),
            End::Repeats(_) => matches!(kind, EndKind::Repeats),
            End::Line(_) => matches!(kind, EndKind::Line),
        }
    }

    /// Gives a packet to a receiver.
    pub fn arrival(&mut self, bytes: &[u8]) -> Result<Arrival, EndRefusal>
        ensures refusal { end_refusal result ≡ for_receiver never (Some self.old) }
        ensures same { IfErr result (λ why. self.new ≡ self.old) }
        ensures untaken { IfOk result (λ x. takes x.heard ≡ false → self.new ≡ self.old) }
        ensures stands { (p : Params) (past : List ReceiverEntry)
            → HoldsReceiver p past (Some self.old)
            → HoldsReceiver p (Packet bytes.now ∷ past) (Some self.new) }
        ensures answer { (p : Params) (past : List ReceiverEntry)
            → HoldsReceiver p past (Some self.old) → IfOk result
            (λ x. IsHeard p.clock x.heard (receivers.answer_after p past bytes.now)) }
        ensures number { (p : Params) (past : List ReceiverEntry)
            → HoldsReceiver p past (Some self.old) → IfOk result
            (λ x. x.number ≡ receivers.number_after p past bytes.now) }
    {
        match self {
            End::Sending(_) => Err(EndRefusal::OtherEnd),
            End::Receiving(receiver) => Ok(receiver.arrival(bytes)),
            End::Repeats(_) => Err(EndRefusal::OtherEnd),
            End::Line(_) => Err(EndRefusal::OtherEnd),
        }
    }

    /// Plays a receiver's next picture, which stays where it is.
    pub fn next(&mut self) -> Result<Played, EndRefusal>
        ensures refusal { end_refusal result ≡ for_receiver next_refusal (Some self.old) }
        ensures same { IfErr result (λ why. self.new ≡ self.old) }
        ensures told { (p : Params) (past : List ReceiverEntry)
            → HoldsReceiver p past (Some self.old) → IfOk result (λ played. IsPlayed p.clock played
            (receivers.mark_after p past) (receivers.message_after p past)) }
        ensures number { (p : Params) (past : List ReceiverEntry)
            → HoldsReceiver p past (Some self.old) → IfOk result (λ played.
            played.number ≡ (receivers.run_of p past).played) }
        ensures reference { (p : Params) (past : List ReceiverEntry)
            → HoldsReceiver p past (Some self.old) → IfOk result (λ played.
            played.reference ≡ receivers.reference_after p past) }
        ensures stands { (p : Params) (past : List ReceiverEntry)
            → HoldsReceiver p past (Some self.old) → IsOk result
            → HoldsReceiver p (PlayNext ∷ past) (Some self.new) }
    {
        match self {
            End::Sending(_) => Err(EndRefusal::OtherEnd),
            End::Receiving(receiver) => play_next(receiver),
            End::Repeats(_) => Err(EndRefusal::OtherEnd),
            End::Line(_) => Err(EndRefusal::OtherEnd),
        }
    }

    /// The samples that a receiver shows, lent.
    pub fn shown(&self) -> Result<&[u8], EndRefusal>
        ensures refusal { end_refusal result ≡ for_receiver never (Some self.now) }
        ensures shown { IfOk result (λ samples. ShowsPicture (Some self.now) samples.now) }
    {
        match self {
            End::Sending(_) => Err(EndRefusal::OtherEnd),
            End::Receiving(receiver) => Ok(samples_of(receiver)),
            End::Repeats(_) => Err(EndRefusal::OtherEnd),
            End::Line(_) => Err(EndRefusal::OtherEnd),
        }
    }

    /// Plays a receiver's next picture into room for it.
    pub fn play(&mut self, picture: &mut [u8]) -> Result<Played, EndRefusal>
        ensures refusal { end_refusal result
            ≡ for_receiver (play_refusal (length picture.old)) (Some self.old) }
        ensures same { IfErr result (λ why. self.new ≡ self.old) }
        ensures unwritten { IfErr result (λ why. picture.new ≡ picture.old) }
        ensures told { (p : Params) (past : List ReceiverEntry)
            → HoldsReceiver p past (Some self.old) → IfOk result (λ played. IsPlayed p.clock played
            (receivers.mark_after p past) (receivers.message_after p past)) }
        ensures number { (p : Params) (past : List ReceiverEntry)
            → HoldsReceiver p past (Some self.old) → IfOk result (λ played.
            played.number ≡ (receivers.run_of p past).played) }
        ensures reference { (p : Params) (past : List ReceiverEntry)
            → HoldsReceiver p past (Some self.old) → IfOk result (λ played.
            played.reference ≡ receivers.reference_after p past) }
        ensures stands { (p : Params) (past : List ReceiverEntry)
            → HoldsReceiver p past (Some self.old) → IsOk result
            → HoldsReceiver p (PlayNext ∷ past) (Some self.new) }
        ensures shown { (p : Params) (past : List ReceiverEntry)
            → HoldsReceiver p past (Some self.old) → IsOk result
            → picture.new ≡ bytes_of (receivers.run_of p (PlayNext ∷ past)).screen }
    {
        match self {
            End::Sending(_) => Err(EndRefusal::OtherEnd),
            End::Receiving(receiver) => play_into(receiver, picture),
            End::Repeats(_) => Err(EndRefusal::OtherEnd),
            End::Line(_) => Err(EndRefusal::OtherEnd),
        }
    }

    /// Captures a sender's next picture, with these messages in its header.
    pub fn code(&mut self, bytes: &[u8], back: &[CMessage]) -> Result<Coded, EndRefusal>
        ensures refusal { end_refusal result
            ≡ for_sender (capture_refusal bytes.now back.now) (Some self.old) }
        ensures same { IfErr result (λ why. self.new ≡ self.old) }
        ensures count { IfOk result (λ coded. coded.packets ≡ length (end_packets (Some self.new))) }
        ensures steers { (p : Params) (fits : Bool) (first : ℕ) (past : List Steering)
            (messages : List Message) → HoldsSteered p fits first past (Some self.old)
            → messages_of p.clock back.now ≡ Some messages → IsOk result
            → HoldsSteered p fits first (steering.Capture (frame_given p bytes.now messages) ∷ past)
            (Some self.new) }
        ensures makes { (p : Params) (fits : Bool) (first : ℕ) (past : List Steering)
            (messages : List Message) → HoldsSteered p fits first past (Some self.old)
            → messages_of p.clock back.now ≡ Some messages → IfOk result (λ coded.
            senders.Describes (length (steered_run p fits (target_if_any first) past).run.coded)
            (steered_next p fits (target_if_any first) (frame_given p bytes.now messages) past) coded) }
    {
        match self {
            End::Sending(sending) => sending.code(bytes, back),
            End::Receiving(_) => Err(EndRefusal::OtherEnd),
            End::Repeats(_) => Err(EndRefusal::OtherEnd),
            End::Line(_) => Err(EndRefusal::OtherEnd),
        }
    }

    /// Copies packet i of the picture that a sender coded last to the start of a room, and says how
    /// many bytes it has.
    pub fn packet(&self, i: u32, room: &mut [u8]) -> Result<usize, EndRefusal>
        ensures refusal { end_refusal result
            ≡ for_sender (packet_refusal i (length room.old)) (Some self.now) }
        ensures unwritten { IfErr result (λ why. room.new ≡ room.old) }
        ensures count { IfOk result (λ count. count
            ≡ length (slice_index_or (end_packets (Some self.now)) i [])) }
        ensures written { IfOk result (λ count. room.new
            ≡ slice_index_or (end_packets (Some self.now)) i [] ++ drop count room.old) }
        ensures enough { (p : Params) (fits : Bool) (first : ℕ) (past : List Steering)
            → HoldsSteered p fits first past (Some self.now)
            → result ≡ Err refusals.ShortRoom → length room.old < p.limit }
        ensures steers { (p : Params) (fits : Bool) (first : ℕ) (past : List Steering)
            → HoldsSteered p fits first past (Some self.now) → IsOk result
            → slice_index_or (end_packets (Some self.now)) i []
            ≡ slice_index_or (senders.packets_after p (steered_run p fits (target_if_any first) past)) i [] }
    {
        match self {
            End::Sending(sending) => sending.packet(i, room),
            End::Receiving(_) => Err(EndRefusal::OtherEnd),
            End::Repeats(_) => Err(EndRefusal::OtherEnd),
            End::Line(_) => Err(EndRefusal::OtherEnd),
        }
    }

    /// Gives a message to a sender.
    pub fn feedback(&mut self, bytes: &[u8]) -> Result<Feedback, EndRefusal>
        ensures refusal { end_refusal result ≡ for_sender never (Some self.old) }
        ensures same { IfErr result (λ why. self.new ≡ self.old) }
        ensures unnoted { IfOk result (λ answer.
            is_noted (senders.reply_of answer) ≡ false → self.new ≡ self.old) }
        ensures packets { end_packets (Some self.new) ≡ end_packets (Some self.old) }
        ensures steers { (p : Params) (fits : Bool) (first : ℕ) (past : List Steering)
            → HoldsSteered p fits first past (Some self.old)
            → HoldsSteered p fits first (steering.Feedback bytes.now ∷ past) (Some self.new) }
        ensures replies { (p : Params) (fits : Bool) (first : ℕ) (past : List Steering)
            → HoldsSteered p fits first past (Some self.old) → IfOk result (λ answer.
            senders.reply_of answer ≡ feedback_answer (rules_of p)
            (length (steered_run p fits (target_if_any first) past).run.coded)
            (read_message p.clock bytes.now)) }
    {
        match self {
            End::Sending(sending) => Ok(sending.feedback(bytes)),
            End::Receiving(_) => Err(EndRefusal::OtherEnd),
            End::Repeats(_) => Err(EndRefusal::OtherEnd),
            End::Line(_) => Err(EndRefusal::OtherEnd),
        }
    }

    /// A sender follows this target from the next picture on, or none where it is 0.
    pub fn follow(&mut self, target: u32) -> Result<(), EndRefusal>
        ensures refusal { end_refusal result ≡ for_sender (target_refusal target) (Some self.old) }
        ensures same { IfErr result (λ why. self.new ≡ self.old) }
        ensures packets { end_packets (Some self.new) ≡ end_packets (Some self.old) }
        ensures steers { (p : Params) (fits : Bool) (first : ℕ) (past : List Steering)
            → HoldsSteered p fits first past (Some self.old) → IsOk result
            → HoldsSteered p fits first (steering.Target (target_if_any target) ∷ past) (Some self.new) }
    {
        match self {
            End::Sending(sending) => sending.follow(target),
            End::Receiving(_) => Err(EndRefusal::OtherEnd),
            End::Repeats(_) => Err(EndRefusal::OtherEnd),
            End::Line(_) => Err(EndRefusal::OtherEnd),
        }
    }

    /// A sender forgets the pictures that were coded.
    pub fn forget(&mut self) -> Result<(), EndRefusal>
        ensures refusal { end_refusal result ≡ for_sender never (Some self.old) }
        ensures same { IfErr result (λ why. self.new ≡ self.old) }
        ensures packets { end_packets (Some self.new) ≡ end_packets (Some self.old) }
        ensures steers { (p : Params) (fits : Bool) (first : ℕ) (past : List Steering)
            → HoldsSteered p fits first past (Some self.old) → IsOk result
            → HoldsSteered p fits first (steering.Forget ∷ past) (Some self.new) }
    {
        match self {
            End::Sending(sending) => {
                sending.forget();
                Ok(())
            }
            End::Receiving(_) => Err(EndRefusal::OtherEnd),
            End::Repeats(_) => Err(EndRefusal::OtherEnd),
            End::Line(_) => Err(EndRefusal::OtherEnd),
        }
    }

    /// How many pictures a sender has coded.
    pub fn sent(&self) -> Result<u32, EndRefusal>
        ensures refusal { end_refusal result ≡ for_sender never (Some self.now) }
        ensures steers { (p : Params) (fits : Bool) (first : ℕ) (past : List Steering)
            → HoldsSteered p fits first past (Some self.now) → IfOk result (λ count.
            count ≡ length (steered_run p fits (target_if_any first) past).run.coded) }
    {
        match self {
            End::Sending(sending) => Ok(sending.sent()),
            End::Receiving(_) => Err(EndRefusal::OtherEnd),
            End::Repeats(_) => Err(EndRefusal::OtherEnd),
            End::Line(_) => Err(EndRefusal::OtherEnd),
        }
    }

    /// How many pictures a sender knows to be complete, of those to which its next one may refer.
    pub fn known(&self) -> Result<u32, EndRefusal>
        ensures refusal { end_refusal result ≡ for_sender never (Some self.now) }
        ensures steers { (p : Params) (fits : Bool) (first : ℕ) (past : List Steering)
            → HoldsSteered p fits first past (Some self.now) → IfOk result (λ count.
            count ≡ known_in p (steered_run p fits (target_if_any first) past)) }
    {
        match self {
            End::Sending(sending) => Ok(sending.known()),
            End::Receiving(_) => Err(EndRefusal::OtherEnd),
            End::Repeats(_) => Err(EndRefusal::OtherEnd),
            End::Line(_) => Err(EndRefusal::OtherEnd),
        }
    }

    /// How many pictures a receiver has played.
    pub fn played(&self) -> Result<u32, EndRefusal>
        ensures refusal { end_refusal result ≡ for_receiver never (Some self.now) }
        ensures stands { (p : Params) (past : List ReceiverEntry)
            → HoldsReceiver p past (Some self.now) → IfOk result (λ count.
            count ≡ (receivers.run_of p past).played) }
    {
        match self {
            End::Sending(_) => Err(EndRefusal::OtherEnd),
            End::Receiving(receiver) => Ok(receiver.played()),
            End::Repeats(_) => Err(EndRefusal::OtherEnd),
            End::Line(_) => Err(EndRefusal::OtherEnd),
        }
    }
}

//! A way whose messages wait for their return, by their numbers.
ghost use Rattle.std.specs.Prelude.{◌≡◌, ◌+◌, ◌^◌, ◌<◌, ◌≤◌, ℕ, Some, List, ◌∷◌, ◌++◌, IfOk, IfSome};
ghost use Rattle.std.specs.Prelude.{length, slice_get};
ghost use Rattle.back_messages.specs.Said.{text_of_said};
ghost use Rattle.coded_call.specs.Bytes.{AreBytes};
ghost use Rattle.h263_types.specs.declared.params.Params.{Params};
ghost use Rattle.h263_types.specs.Params.{IsParams};
ghost use Rattle.h263_planes.specs.Lent.{picture as lent};
ghost use Rattle.picture_header.specs.Ranges.{AreMessages};
ghost use Rattle.call_rings.specs.Messages.{said_of};
ghost use Rattle.call_model.specs.IdealCall.{Back, Event, Deliver, Play, Send, slices_at};
ghost use Rattle.call_model.specs.JoinedRun.{SaidMessage};
ghost use Rattle.call_model.specs.Receiving.{ReceiverEntry, played_mark};
ghost use Rattle.call_decoding.specs.Rules.{rules_of};
ghost use Rattle.call_encoding.specs.Frames.{Frame};
ghost use Rattle.receiver_end.specs.declared.kept.Kept.{Kept};
ghost use Rattle.receiver_end.specs.Answers.{mark_from};
ghost use Rattle.receiver_end.specs.Decoding.{decoding};
ghost use Rattle.receiver_end.specs.State as receiver_end;
ghost use Rattle.one_way.specs.Both.{IsSameSender, State, both_after, carrying, steady};
ghost use Rattle.one_way.specs.Counts.{total_of};
ghost use Rattle.one_way.specs.Network.{HasMessages, told_by};
ghost use Rattle.one_way.specs.Seen.{reference_in};
ghost use Rattle.one_way.specs.Trace.{delivered};
ghost use Rattle.one_way.specs.Way.{CanSend, HoldsNetwork, IsAmongLast, IsNewNetwork};
ghost use Rattle.one_way.specs.Way.{MayHappenNow, OnlyCounts, SaysNothing, kept_in, most_in};
ghost use Rattle.one_way.specs.Way.{said_in, tally_of, way_of};

use crate::{Tally, Way, bring_back, laws};
use back_messages::{Message, Said};
use call_rings::MessageRing;
use h263_planes::PictureRef;
use h263_types::{FixedPace, OutOfMemory, Params};
use receiver_end::{Played, Receiver};
use sender_end::Sender;
use std::alloc::Global;

/// A way, and the last messages that its receiver said: an event brings one back by its number.
#[derive(Drop)]
pub struct Network {
    pub(crate) way: Way,
    pub(crate) messages: MessageRing,
}

// Keeps what was said of this picture, if anything was.
fn keep_message(messages: &mut MessageRing, about: u32, told: Option<Said>)
    requires { said_of messages.old + 1 < 2 ^ 64 }
    ensures kept { (said : List SaidMessage) → HasMessages messages.old said
        → HasMessages messages.new (said ++ told_by about told) }
    ensures few { said_of messages.new ≤ said_of messages.old + 1 }
{
    if let Some(message) = told {
        messages.push(about, message);
    }
}

impl Network {
    /// A network before the first event, with room for the packets of this many pictures.
    pub fn start(alloc: Global, params: &Params, kept: u32) -> Result<Network, OutOfMemory>
        requires some { 1 ≤ kept }
        requires few { kept ≤ 1024 }
        ensures { IfOk result (IsNewNetwork params.now kept) }
    {
        Ok(Network {
            way: Way::start(alloc, params, kept)?,
            messages: MessageRing::start(alloc)?,
        })
    }

    /// Sends the next picture, of this frame and with these messages in its header, keeps its
    /// packets and its reference, and answers its number.
    pub fn send(
        &mut self,
        sender: &mut Sender<FixedPace>,
        frame: PictureRef<'_>,
        back: &[Message],
    ) -> u32
        requires few { length back.now ≤ 4 }
        requires back { AreMessages sender.old.params.clock back.now }
        requires frame { (lent frame).format ≡ sender.old.params.format }
        requires left { sender.old.sent < 1048576 }
        requires ready { CanSend (way_of self.old) sender.old }
        ensures ready { CanSend (way_of self.new) sender.new }
        ensures same { IsSameSender sender.old sender.new }
        ensures sent { sender.new.sent ≡ sender.old.sent + 1 }
        ensures kept { kept_in (way_of self.new) ≡ kept_in (way_of self.old) }
        ensures tally { tally_of (way_of self.new) ≡ tally_of (way_of self.old) }
        ensures messages { SaysNothing self.old self.new }
        ensures number { result ≡ sender.old.sent }
        ensures holds { (p : Params) (receiver : Kept) (before : List ReceiverEntry)
            (frames : List Frame) (past : List Event)
            → HoldsNetwork p self.old sender.old receiver before frames past
            → slice_get frames sender.old.sent
            ≡ Some (carrying (lent frame.entry) back.now)
            → MayHappenNow p before frames past Send
            → HoldsNetwork p self.new sender.new receiver before frames (Send ∷ past) }
    {
        self.way.send(sender, frame, back)
    }

    /// Delivers the packet at a place of a picture, if there is one, and keeps what is said of it.
    pub fn deliver(&mut self, receiver: &mut Receiver, number: u32, place: u32)
        requires { said_in self.old + 1 < 2 ^ 64 }
        ensures params { receiver.new.params ≡ receiver.old.params }
        ensures played { receiver.new.played ≡ receiver.old.played }
        ensures few { said_in self.new ≤ said_in self.old + 1 }
        ensures way { way_of self.new ≡ way_of self.old }
        ensures holds { (p : Params) (sender : State) (before : List ReceiverEntry)
            (frames : List Frame) (past : List Event)
            → HoldsNetwork p self.old sender receiver.old before frames past
            → IsAmongLast (way_of self.old)
            (length (both_after p (steady p) frames before past).sender.coded) number
            → MayHappenNow p before frames past (Deliver number place)
            → HoldsNetwork p self.new sender receiver.new before frames
            (Deliver number place ∷ past) }
    {
        let told = self.way.deliver(receiver, number, place);
        keep_message(&mut self.messages, number, told);
    }

    /// Delivers all packets of a picture in their order.
    pub fn deliver_all(&mut self, receiver: &mut Receiver, number: u32)
        requires { said_in self.old + most_in (way_of self.old) < 2 ^ 64 }
        ensures params { receiver.new.params ≡ receiver.old.params }
        ensures played { receiver.new.played ≡ receiver.old.played }
        ensures few { said_in self.new ≤ said_in self.old + most_in (way_of self.old) }
        ensures way { way_of self.new ≡ way_of self.old }
        ensures holds { (p : Params) (sender : State) (before : List ReceiverEntry)
            (frames : List Frame) (past : List Event)
            → HoldsNetwork p self.old sender receiver.old before frames past
            → IsAmongLast (way_of self.old)
            (length (both_after p (steady p) frames before past).sender.coded) number
            → MayHappenNow p before frames past (Deliver number 0)
            → HoldsNetwork p self.new sender receiver.new before frames (delivered number
            (length (slices_at (both_after p (steady p) frames before past).sender.coded number))
            ++ past) }
    {
        let count = self.way.count(number);
        'packets: for place in 0..count {
            self.deliver(receiver, number, place);
        }
    }

    /// Plays the next picture, keeps what is said of it, and answers it with its mark.
    pub fn play(&mut self, receiver: &mut Receiver) -> Played
        requires played { receiver.old.played < 2 ^ 20 }
        requires counted { total_of (tally_of (way_of self.old)) < 1048576 }
        requires said { said_in self.old + 1 < 2 ^ 64 }
        ensures params { receiver.new.params ≡ receiver.old.params }
        ensures played { receiver.new.played ≡ receiver.old.played + 1 }
        ensures number { result.number ≡ receiver.old.played }
        ensures few { said_in self.new ≤ said_in self.old + 1 }
        ensures counted { total_of (tally_of (way_of self.new))
            ≡ total_of (tally_of (way_of self.old)) + 1 }
        ensures way { OnlyCounts (way_of self.old) (way_of self.new) }
        ensures holds { (p : Params) (sender : State) (before : List ReceiverEntry)
            (frames : List Frame) (past : List Event)
            → HoldsNetwork p self.old sender receiver.old before frames past
            → MayHappenNow p before frames past Play
            → HoldsNetwork p self.new sender receiver.new before frames (Play ∷ past) }
        ensures mark { (p : Params) (sender : State) (before : List ReceiverEntry)
            (frames : List Frame) (past : List Event)
            → HoldsNetwork p self.old sender receiver.old before frames past
            → result.mark ≡ mark_from (played_mark (decoding p.format) (rules_of p)
            (both_after p (steady p) frames before past).receiver) }
    {
        let played = self.way.play(receiver);
        keep_message(&mut self.messages, played.number, played.message);
        played
    }

    /// The reference from which the picture was coded that this receiver plays next: none where it
    /// was coded intra.
    pub fn reference_of(&self, receiver: &Receiver) -> Option<u32>
        ensures { (p : Params) (sender : State) (before : List ReceiverEntry)
            (frames : List Frame) (past : List Event)
            → (receiver_end.run_of p before).played ≡ 0
            → HoldsNetwork p self.now sender receiver.now before frames past
            → receiver.now.played < sender.sent
            → result ≡ reference_in
            (both_after p (steady p) frames before past).sender.coded receiver.now.played }
    {
        self.way.reference_of(receiver.played())
    }

    /// How many pictures were shown with each mark.
    pub fn tally(&self) -> Tally
        ensures { result ≡ tally_of (way_of self.now) }
    {
        self.way.tally()
    }

    /// Brings message `k` back to the sender. One that has left the ring is about a picture that
    /// isn't near.
    pub fn bring_back(&self, sender: &mut Sender<FixedPace>, k: u32)
        ensures same { IsSameSender sender.old sender.new }
        ensures sent { sender.new.sent ≡ sender.old.sent }
        ensures ready { CanSend (way_of self.now) sender.old
            → CanSend (way_of self.now) sender.new }
        ensures holds { (p : Params) (receiver : Kept) (before : List ReceiverEntry)
            (frames : List Frame) (past : List Event)
            → IsParams p → sender.old.pace.quant ≡ p.quant
            → (receiver_end.run_of p before).played ≡ 0
            → HoldsNetwork p self.now sender.old receiver before frames past
            → MayHappenNow p before frames past (Back k)
            → HoldsNetwork p self.now sender.new receiver before frames (Back k ∷ past) }
    {
        laws::near_event_laws();
        if let Some((_, message)) = self.messages.get(k) {
            bring_back(sender, message.text());
        }
    }
}

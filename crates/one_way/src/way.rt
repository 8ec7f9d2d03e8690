//! One way of a call: the packets and references of its last pictures, and the marks of its plays.
//! Both ends are lent to each call.
ghost use Rattle.std.specs.Prelude.{◌≡◌, ◌+◌, ◌^◌, ◌<◌, ◌≤◌, ℕ, Some, List, [], ◌∷◌, ◌++◌};
ghost use Rattle.std.specs.Prelude.{IfOk, IfSome, length, slice_get};
ghost use Rattle.back_messages.specs.Said.{text_of_said};
ghost use Rattle.coded_call.specs.Bytes.{AreBytes};
ghost use Rattle.h263_types.specs.declared.params.Params.{Params};
ghost use Rattle.h263_types.specs.Params.{IsParams};
ghost use Rattle.h263_planes.specs.Lent.{picture as lent};
ghost use Rattle.picture_header.specs.Ranges.{AreMessages};
ghost use Rattle.call_rings.specs.Keeping.{HoldsPackets, HasSizes, PacketsOfPictures, begun_of, kept_of};
ghost use Rattle.call_rings.specs.Keeping.{most_of, ring_period, ring_room};
ghost use Rattle.call_model.specs.IdealCall.{Back, Event, Deliver, Play, Send, slices_at};
ghost use Rattle.call_model.specs.JoinedRun.{SaidMessage};
ghost use Rattle.call_model.specs.Receiving.{ReceiverEntry, played_mark};
ghost use Rattle.call_decoding.specs.Rules.{rules_of};
ghost use Rattle.call_encoding.specs.Frames.{Frame};
ghost use Rattle.receiver_end.specs.declared.kept.Kept.{Kept};
ghost use Rattle.receiver_end.specs.Answers.{mark_from};
ghost use Rattle.receiver_end.specs.Decoding.{decoding};
ghost use Rattle.receiver_end.specs.State as receiver_end;
ghost use Rattle.one_way.specs.Both.{IsSameSender, State, both_after, carrying, steady};
ghost use Rattle.one_way.specs.Counts.{total_of};
ghost use Rattle.one_way.specs.Network.{AreRoomy, IsKeeping, told_by};
ghost use Rattle.one_way.specs.Seen.{reference_in};
ghost use Rattle.one_way.specs.Way.{CanSend, HoldsWay, IsAmongLast, IsNewWay, MayHappenNow};
ghost use Rattle.one_way.specs.Way.{OnlyCounts, kept_in, most_in, tally_of};
ghost use Rattle.one_way.specs.declared.way.Way.{Way};

use crate::{References, Tally, laws};
use back_messages::{Message, Said};
use call_rings::{SentPackets, laws as call_rings_laws};
use h263_planes::PictureRef;
use h263_types::{FixedPace, OutOfMemory, Params};
use receiver_end::{Played, Receiver, laws as receiver_end_laws};
use sender_end::Sender;
use std::alloc::Global;

/// What is kept of one way of a call: the packets and the references of the last pictures, and how
/// many pictures were shown with each mark.
#[derive(Drop)]
pub struct Way {
    packets: SentPackets,
    references: References,
    tally: Tally,
}

// Keeps all packets of the picture that was sent last.
fn keep_packets(packets: &mut SentPackets, sender: &Sender<FixedPace>, count: u32)
    requires count { count ≡ length sender.now.packets }
    requires keeping { IsKeeping packets.old }
    requires room { AreRoomy packets.old sender.now.packets }
    requires few { begun_of packets.old + 1 < 2 ^ 32 }
    ensures kept { (pictures : PacketsOfPictures) → HoldsPackets packets.old pictures
        → HoldsPackets packets.new (pictures ++ sender.now.packets ∷ []) }
    ensures sizes { let ring = packets.old in
        HasSizes packets.new (ring_period ring) (ring_room ring) (most_of ring) }
    ensures begun { begun_of packets.new ≡ begun_of packets.old + 1 }
{
    call_rings_laws::has_room();
    call_rings_laws::one_after_the_other();
    packets.begin();
    'packets: for place in 0..count {
        packets.push(sender.packet(place));
    }
}

/// What a slice holds are bytes: a law that speaks of numbers asks for it.
pub fn are_bytes(bytes: &[u8])
    ensures { AreBytes bytes.now }
{}

// What was said, if anything was: bytes.
fn as_said(said: Option<Said>) -> Option<Said>
    ensures same { result ≡ said }
    ensures bytes { IfSome result (λ said. AreBytes (text_of_said said)) }
{
    if let Some(said) = &said {
        are_bytes(said.text());
    }
    said
}

impl Way {
    /// A way before its first picture, with room for the packets of this many pictures.
    pub fn start(alloc: Global, params: &Params, kept: u32) -> Result<Way, OutOfMemory>
        requires some { 1 ≤ kept }
        requires few { kept ≤ 1024 }
        ensures { IfOk result (IsNewWay params.now kept) }
    {
        let mbs = params.format.mbs();
        Ok(Way {
            packets: SentPackets::start(alloc, kept, 1200 * mbs, mbs)?,
            references: References::start(alloc)?,
            tally: Tally::new(),
        })
    }

    /// Sends the next picture, of this frame and with these messages in its header, keeps its
    /// packets and its reference, and answers its number.
    pub fn send(
        &mut self,
        sender: &mut Sender<FixedPace>,
        frame: PictureRef<'_>,
        back: &[Message],
    ) -> u32
        requires few { length back.now ≤ 4 }
        requires back { AreMessages sender.old.params.clock back.now }
        requires frame { (lent frame).format ≡ sender.old.params.format }
        requires left { sender.old.sent < 1048576 }
        requires ready { CanSend self.old sender.old }
        ensures ready { CanSend self.new sender.new }
        ensures same { IsSameSender sender.old sender.new }
        ensures sent { sender.new.sent ≡ sender.old.sent + 1 }
        ensures kept { kept_in self.new ≡ kept_in self.old }
        ensures tally { tally_of self.new ≡ tally_of self.old }
        ensures number { result ≡ sender.old.sent }
        ensures holds { (p : Params) (receiver : Kept) (before : List ReceiverEntry)
            (frames : List Frame) (past : List Event)
            → HoldsWay p self.old sender.old receiver before frames past
            → slice_get frames sender.old.sent
            ≡ Some (carrying (lent frame.entry) back.now)
            → MayHappenNow p before frames past Send
            → HoldsWay p self.new sender.new receiver before frames (Send ∷ past) }
    {
        laws::ends_run();
        laws::packet_laws();
        let number = sender.sent();
        let coded = sender.code(frame, back);
        self.references.note(number, coded.reference);
        keep_packets(&mut self.packets, sender, coded.packets);
        number
    }

    /// How many packets are kept of a picture: one for each of its slices.
    pub fn count(&self, number: u32) -> u32
        ensures packets { (pictures : PacketsOfPictures) → HoldsPackets self.now.packets pictures
            → result ≡ length (kept_of (kept_in self.now) pictures number) }
        ensures slices { (p : Params) (sender : State) (receiver : Kept)
            (before : List ReceiverEntry) (frames : List Frame) (past : List Event)
            → HoldsWay p self.now sender receiver before frames past
            → IsAmongLast self.now
            (length (both_after p (steady p) frames before past).sender.coded) number
            → result ≡ length (slices_at
            (both_after p (steady p) frames before past).sender.coded number) }
        ensures few { result ≤ most_in self.now }
    {
        laws::message_laws();
        self.packets.count(number)
    }

    /// Delivers the packet at a place of a picture, if there is one, and answers what the receiver
    /// says to it. The picture was sent and is near.
    pub fn deliver(&self, receiver: &mut Receiver, number: u32, place: u32) -> Option<Said>
        ensures params { receiver.new.params ≡ receiver.old.params }
        ensures played { receiver.new.played ≡ receiver.old.played }
        ensures bytes { IfSome result (λ said. AreBytes (text_of_said said)) }
        ensures holds { (p : Params) (sender : State) (before : List ReceiverEntry)
            (frames : List Frame) (past : List Event)
            → HoldsWay p self.now sender receiver.old before frames past
            → IsAmongLast self.now
            (length (both_after p (steady p) frames before past).sender.coded) number
            → MayHappenNow p before frames past (Deliver number place)
            → HoldsWay p self.now sender receiver.new before frames
            (Deliver number place ∷ past) }
        ensures says { (p : Params) (sender : State) (before : List ReceiverEntry)
            (frames : List Frame) (past : List Event)
            → HoldsWay p self.now sender receiver.old before frames past
            → IsAmongLast self.now
            (length (both_after p (steady p) frames before past).sender.coded) number
            → (both_after p (steady p) frames before (Deliver number place ∷ past)).said
            ≡ (both_after p (steady p) frames before past).said ++ told_by number result }
    {
        laws::ends_run();
        laws::message_laws();
        receiver_end_laws::answers_say();
        let Some(bytes) = self.packets.packet(number, place) else {
            return None;
        };
        let heard = receiver.packet(bytes);
        as_said(heard.message())
    }

    /// Plays the next picture, counts its mark, and answers it with what the receiver says.
    pub fn play(&mut self, receiver: &mut Receiver) -> Played
        requires played { receiver.old.played < 2 ^ 20 }
        requires counted { total_of (tally_of self.old) < 1048576 }
        ensures params { receiver.new.params ≡ receiver.old.params }
        ensures played { receiver.new.played ≡ receiver.old.played + 1 }
        ensures number { result.number ≡ receiver.old.played }
        ensures bytes { IfSome result.message (λ said. AreBytes (text_of_said said)) }
        ensures counted { total_of (tally_of self.new) ≡ total_of (tally_of self.old) + 1 }
        ensures way { OnlyCounts self.old self.new }
        ensures holds { (p : Params) (sender : State) (before : List ReceiverEntry)
            (frames : List Frame) (past : List Event)
            → HoldsWay p self.old sender receiver.old before frames past
            → MayHappenNow p before frames past Play
            → HoldsWay p self.new sender receiver.new before frames (Play ∷ past) }
        ensures says { (p : Params) (sender : State) (before : List ReceiverEntry)
            (frames : List Frame) (past : List Event)
            → HoldsWay p self.old sender receiver.old before frames past
            → (both_after p (steady p) frames before (Play ∷ past)).said
            ≡ (both_after p (steady p) frames before past).said
            ++ told_by receiver.old.played result.message }
        ensures mark { (p : Params) (sender : State) (before : List ReceiverEntry)
            (frames : List Frame) (past : List Event)
            → HoldsWay p self.old sender receiver.old before frames past
            → result.mark ≡ mark_from (played_mark (decoding p.format) (rules_of p)
            (both_after p (steady p) frames before past).receiver) }
    {
        laws::ends_run();
        laws::message_laws();
        let played = receiver.play();
        self.tally.count(played.mark);
        as_said(played.message);
        played
    }

    /// The reference from which the picture was coded that is played next: none where it was coded
    /// intra.
    pub fn reference_of(&self, number: u32) -> Option<u32>
        ensures { (p : Params) (sender : State) (receiver : Kept) (before : List ReceiverEntry)
            (frames : List Frame) (past : List Event)
            → (receiver_end.run_of p before).played ≡ 0
            → HoldsWay p self.now sender receiver before frames past
            → number ≡ receiver.played → receiver.played < sender.sent
            → result ≡ reference_in
            (both_after p (steady p) frames before past).sender.coded number }
    {
        laws::ends_run();
        self.references.get(number)
    }

    /// How many pictures were shown with each mark.
    pub fn tally(&self) -> Tally
        ensures { result ≡ tally_of self.now }
    {
        self.tally
    }
}

/// Brings a message back to the sender, by its bytes.
pub fn bring_back(sender: &mut Sender<FixedPace>, bytes: &[u8])
    ensures same { IsSameSender sender.old sender.new }
    ensures sent { sender.new.sent ≡ sender.old.sent }
    ensures ready { (way : Way) → CanSend way sender.old
        → CanSend way sender.new }
    ensures holds { (p : Params) (way : Way) (receiver : Kept) (before : List ReceiverEntry)
        (frames : List Frame) (past : List Event) (k : ℕ) (told : SaidMessage)
        → sender.old.pace.quant ≡ p.quant
        → HoldsWay p way sender.old receiver before frames past
        → slice_get (both_after p (steady p) frames before past).said k ≡ Some told
        → told.bytes ≡ bytes.now → MayHappenNow p before frames past (Back k)
        → HoldsWay p way sender.new receiver before frames (Back k ∷ past) }
{
    laws::ends_run();
    sender.feedback(bytes);
}

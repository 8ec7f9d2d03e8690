//! The sender's side of a group's call.
ghost use Rattle.std.specs.Prelude.{◌≡◌, ◌+◌, ◌^◌, ◌<◌, ◌≤◌, ℕ, List, [], ◌∷◌, ◌++◌, IfOk};
ghost use Rattle.std.specs.Prelude.{length, slice_get};
ghost use Rattle.std.specs.Option.{option_map};
ghost use Rattle.h263_types.specs.declared.params.Params.{Params};
ghost use Rattle.h263_types.specs.Params.{IsParams};
ghost use Rattle.h263_planes.specs.Lent.{picture as lent};
ghost use Rattle.call_rings.specs.Keeping.{HoldsPackets, HasSizes, PacketsOfPictures, begun_of};
ghost use Rattle.call_rings.specs.Keeping.{most_of, ring_period, ring_room};
ghost use Rattle.one_way.specs.Both.{bare, steady};
ghost use Rattle.one_way.specs.Network.{AreRoomy, IsKeeping};
ghost use Rattle.one_way.specs.Seen.{reference_in};
ghost use Rattle.group_sender.specs.Holding.{Groups, group_after_code, group_after_saying};
ghost use Rattle.group_sender.specs.Running.{after_join, no_group};
ghost use Rattle.group_call.specs.Viewing.{coded_packets};

use call_rings::{SentPackets, laws as call_rings_laws};
use group_sender::Group;
use h263_planes::PictureRef;
use h263_types::{FixedPace, OutOfMemory, Params};
use one_way::{References, laws as one_way_laws};
use std::alloc::Global;

/// A group, with the packets and the references of its last pictures, which reach all receivers. It
/// must be finished.
pub struct Broadcast {
    group: Group<FixedPace>,
    packets: SentPackets,
    references: References,
}

// Keeps all packets of the picture that was coded last.
fn keep_packets(packets: &mut SentPackets, group: &Group<FixedPace>, count: u32)
    requires count { count ≡ length group.now.sender.packets }
    requires keeping { IsKeeping packets.old }
    requires room { AreRoomy packets.old group.now.sender.packets }
    requires few { begun_of packets.old + 1 < 2 ^ 32 }
    ensures kept { (pictures : PacketsOfPictures) → HoldsPackets packets.old pictures
        → HoldsPackets packets.new (pictures ++ group.now.sender.packets ∷ []) }
    ensures sizes { let ring = packets.old in
        HasSizes packets.new (ring_period ring) (ring_room ring) (most_of ring) }
    ensures begun { begun_of packets.new ≡ begun_of packets.old + 1 }
{
    call_rings_laws::has_room();
    call_rings_laws::one_after_the_other();
    packets.begin();
    'packets: for place in 0..count {
        packets.push(group.packet(place));
    }
}

impl Broadcast {
    ghost use Rattle.group_call.specs.Holding.{HoldsBroadcast, IsCast, IsCasting, params_in};
    ghost use Rattle.group_call.specs.Holding.{cast_period, places_in, sent_in};

    /// A group before its first picture, with nobody to receive it, and room for the packets of this
    /// many pictures.
    pub fn start(alloc: Global, params: &Params, kept: u32) -> Result<Broadcast, OutOfMemory>
        requires in_range { IsParams params.now }
        requires some { 1 ≤ kept }
        requires few { kept ≤ 1024 }
        ensures params { IfOk result (λ cast. params_in cast ≡ params.now) }
        ensures sent { IfOk result (λ cast. sent_in cast ≡ 0) }
        ensures kept { IfOk result (λ cast. cast_period cast ≡ kept) }
        ensures ready { IfOk result IsCasting }
        ensures holds { IfOk result (λ cast. HoldsBroadcast params.now cast no_group) }
    {
        one_way_laws::ring_laws();
        let mbs = params.format.mbs();
        let packets = SentPackets::start(alloc, kept, 1200 * mbs, mbs)?;
        let references = References::start(alloc)?;
        let pace = FixedPace {
            quant: params.quant,
        };
        let group = Group::start(alloc, params, pace)?;
        Ok(Broadcast {
            group,
            packets,
            references,
        })
    }

    /// A receiver joins at this place. It begins with the next picture.
    pub fn join(&mut self, place: u32)
        requires { place < 16 }
        ensures params { params_in self.new ≡ params_in self.old }
        ensures sent { sent_in self.new ≡ sent_in self.old }
        ensures kept { cast_period self.new ≡ cast_period self.old }
        ensures ready { IsCasting self.old → IsCasting self.new }
        ensures holds { (p : Params) (run : Groups) → HoldsBroadcast p self.old run
            → HoldsBroadcast p self.new (after_join place run) }
    {
        self.group.join(place);
    }

    /// Codes and sends the next picture, of this frame, keeps its packets and its reference, and
    /// answers its number.
    pub fn send(&mut self, frame: PictureRef<'_>) -> u32
        requires frame { (lent frame).format ≡ (params_in self.old).format }
        requires left { sent_in self.old < 1048576 }
        requires ready { IsCasting self.old }
        ensures params { params_in self.new ≡ params_in self.old }
        ensures sent { sent_in self.new ≡ sent_in self.old + 1 }
        ensures kept { cast_period self.new ≡ cast_period self.old }
        ensures number { result ≡ sent_in self.old }
        ensures ready { IsCasting self.new }
        ensures holds { (p : Params) (run : Groups) → HoldsBroadcast p self.old run
            → HoldsBroadcast p self.new (group_after_code p (steady p) (bare (lent frame.entry)) run) }
    {
        one_way_laws::packet_laws();
        one_way_laws::ring_laws();
        let number = self.group.sent();
        let coded = self.group.code(frame, &[]);
        self.references.note(number, coded.reference);
        keep_packets(&mut self.packets, &self.group, coded.packets);
        number
    }

    /// How many packets are kept of a picture.
    pub fn count(&self, number: u32) -> u32
        ensures few { result ≤ places_in self.now }
        ensures packets { (p : Params) (run : Groups) → HoldsBroadcast p self.now run
            → IsCast self.now (length run.coded) number
            → result ≡ length (coded_packets p run.coded number) }
    {
        one_way_laws::ring_laws();
        self.packets.count(number)
    }

    /// The packet at a place of a picture, if it is kept.
    pub fn packet(&self, number: u32, place: u32) -> Option<&[u8]>
        ensures { (p : Params) (run : Groups) → HoldsBroadcast p self.now run
            → IsCast self.now (length run.coded) number
            → option_map (λ packet. packet.now) result
            ≡ slice_get (coded_packets p run.coded number) place }
    {
        one_way_laws::ring_laws();
        self.packets.packet(number, place)
    }

    /// The reference from which a picture was coded that is among the last 512: none where it was
    /// coded intra.
    pub fn reference_of(&self, number: u32) -> Option<u32>
        ensures { (p : Params) (run : Groups) → HoldsBroadcast p self.now run
            → number < length run.coded → length run.coded ≤ number + 512
            → result ≡ reference_in run.coded number }
    {
        one_way_laws::ring_laws();
        self.references.get(number)
    }

    /// How many pictures were sent.
    pub fn sent(&self) -> u32
        ensures value { result ≡ sent_in self.now }
        ensures run { (p : Params) (run : Groups) → HoldsBroadcast p self.now run
            → result ≡ length run.coded }
    {
        self.group.sent()
    }

    /// The receiver at this place is heard: these are the bytes of a message.
    pub fn hear(&mut self, place: u32, bytes: &[u8])
        requires { place < 16 }
        ensures params { params_in self.new ≡ params_in self.old }
        ensures sent { sent_in self.new ≡ sent_in self.old }
        ensures kept { cast_period self.new ≡ cast_period self.old }
        ensures ready { IsCasting self.old → IsCasting self.new }
        ensures holds { (p : Params) (run : Groups) → HoldsBroadcast p self.old run
            → HoldsBroadcast p self.new (group_after_saying p place bytes.now run) }
    {
        let _answer = self.group.feedback(place, bytes);
    }

    /// Gives back what it holds.
    pub fn finish(self) {
        let Broadcast {
            group,
            packets: _,
            references: _,
        } = self;
        group.finish();
    }
}

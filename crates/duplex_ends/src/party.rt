//! The ends of one party's pictures.
ghost use Rattle.std.specs.Prelude.{◌≡◌, ◌+◌, ◌<◌, ◌≤◌, ℕ, IfOk};
ghost use Rattle.h263_types.specs.declared.params.Params.{Params};
ghost use Rattle.h263_types.specs.Params.{IsParams};
ghost use Rattle.h263_planes.specs.Lent.{picture as lent};
ghost use Rattle.call_model.specs.IdealCall.{Play, Send};
ghost use Rattle.call_encoding.specs.Frames.{Frame};
ghost use Rattle.one_way.specs.Counts.{AreCounted};
ghost use Rattle.one_way.specs.Seen.{reference_in};
ghost use Rattle.duplex_call.specs.declared.line.Party.{Party};
ghost use Rattle.duplex_call.specs.Duplex.{MayHappenOf, WayRuns, with_capture};

use crate::saying::put_messages;
use crate::{CarriedRing, laws};
use back_messages::Message;
use duplex_call::Carrier;
use h263_planes::PictureRef;
use h263_types::{FixedPace, OutOfMemory, Params};
use one_way::{Tally, Way, laws as one_way_laws};
use receiver_end::Receiver;
use sender_end::Sender;
use std::alloc::Global;

// What stands where a header has no message.
const NO_MESSAGE: Message = Message::Ack { tr: 0, marks: None };

/// The ends of one party's pictures. They must be finished.
pub struct PartyEnds {
    /// The parameters of the party, with the format of its pictures.
    pub params: Params,
    /// The party's own sender.
    pub sender: Sender<FixedPace>,
    /// The far end of these pictures: the other party's receiver.
    pub far_end: Receiver,
    /// What is kept of the pictures between both.
    pub way: Way,
    /// The messages that the headers of the last pictures carry.
    pub carried: CarriedRing,
    /// What the party's own receiver has said since the party's last picture.
    pub waiting: Carrier,
}

impl PartyEnds {
    ghost use Rattle.duplex_ends.specs.declared.party.PartyEnds.{PartyEnds};
    ghost use Rattle.duplex_ends.specs.Pair.{AreInCall, HoldsPair, IsInCall, IsNewParty};
    ghost use Rattle.duplex_ends.specs.Pair.{MayHappenToParty};
    ghost use Rattle.duplex_ends.specs.Shown.{on_screen};
    ghost use Rattle.duplex_ends.specs.Ways.{call_in, sides};

    /// The ends before the first picture. All their memory is taken here.
    pub fn start(alloc: Global, params: &Params) -> Result<PartyEnds, OutOfMemory>
        requires { IsParams params.now }
        ensures { IfOk result (IsNewParty params.now) }
    {
        let kept = params.clock.period();
        let way = Way::start(alloc, params, kept)?;
        let carried = CarriedRing::start(alloc, kept)?;
        let pace = FixedPace {
            quant: params.quant,
        };
        let sender = Sender::start_without_recon(alloc, params, pace)?;
        match Receiver::start(alloc, params) {
            Ok(far_end) => Ok(PartyEnds {
                params: *params,
                sender,
                far_end,
                way,
                carried,
                waiting: Carrier::new(),
            }),
            Err(_) => {
                sender.finish();
                Err(OutOfMemory)
            }
        }
    }

    /// Sends the next picture, of this frame. Its header carries the last four messages, at most,
    /// that wait.
    pub fn send(&mut self, frame: PictureRef<'_>)
        requires held { IsInCall self.old }
        requires frame { (lent frame).format ≡ self.old.params.format }
        requires left { self.old.sender.sent < 1048576 }
        ensures ready { (far : PartyEnds) → MayHappenToParty self.old far Send
            → AreInCall self.new far }
        ensures params { self.new.params ≡ self.old.params }
        ensures sent { self.new.sender.sent ≡ self.old.sender.sent + 1 }
        ensures far_end { self.new.far_end ≡ self.old.far_end }
        ensures holds { (p : Party → Params) (x : Party) (far : PartyEnds) (ways : WayRuns Frame)
            (left : ℕ) → HoldsPair p x self.old far ways
            → MayHappenOf (sides p) left x Send ways
            → HoldsPair p x self.new far (with_capture (sides p) x (lent frame.entry) ways) }
    {
        one_way_laws::call_laws();
        one_way_laws::near_event_laws();
        one_way_laws::way_laws();
        one_way_laws::later_frames();
        laws::later_calls();
        laws::said_laws();
        let header = self.waiting.load();
        let mut messages = [NO_MESSAGE; 4];
        let count = put_messages(&header, &mut messages);
        let number = self.way.send(&mut self.sender, frame, &messages[..count]);
        self.carried.note(number, header);
    }

    /// The reference of the picture that is played next, which was sent: none where it was coded
    /// intra.
    pub fn reference_of_next(&self) -> Option<u32>
        ensures { (p : Party → Params) (x : Party) (far : PartyEnds) (ways : WayRuns Frame)
            (left : ℕ) → HoldsPair p x self.now far ways → MayHappenOf (sides p) left x Play ways
            → result ≡ reference_in (call_in p x ways).coded (call_in p x ways).played }
    {
        laws::pair_laws();
        one_way_laws::ends_agree();
        self.way.reference_of(self.far_end.played())
    }

    /// The picture that the other party sees: the one played last.
    pub fn shown(&self) -> PictureRef<'_>
        ensures holds { (p : Party → Params) (x : Party) (far : PartyEnds) (ways : WayRuns Frame)
            → HoldsPair p x self.now far ways → lent result ≡ on_screen p x ways }
        ensures format { (lent result).format ≡ self.now.far_end.params.format }
    {
        one_way_laws::way_laws();
        one_way_laws::ends_agree();
        self.far_end.shown()
    }

    /// How many pictures were sent.
    pub fn sent(&self) -> u32
        ensures { result ≡ self.now.sender.sent }
    {
        self.sender.sent()
    }

    /// How many of them were played.
    pub fn played(&self) -> u32
        ensures { result ≡ self.now.far_end.played }
    {
        self.far_end.played()
    }

    /// How many pictures were shown with each mark.
    pub fn tally(&self) -> Tally
        ensures { (p : Party → Params) (x : Party) (far : PartyEnds) (ways : WayRuns Frame)
            → HoldsPair p x self.now far ways → AreCounted result (call_in p x ways).plays }
    {
        one_way_laws::ends_agree();
        self.way.tally()
    }

    /// Gives back what the ends hold.
    pub fn finish(self) {
        let PartyEnds {
            params: _,
            sender,
            far_end,
            way: _,
            carried: _,
            waiting: _,
        } = self;
        sender.finish();
        far_end.finish();
    }
}

//! Events that concern both parties: a packet reaches the other party, and brings it the messages
//! of its picture's header; a picture is played.
ghost use Rattle.std.specs.Prelude.{◌≡◌, ◌+◌, ℕ, []};
ghost use Rattle.h263_types.specs.declared.params.Params.{Params};
ghost use Rattle.call_model.specs.IdealCall.{Deliver, Play};
ghost use Rattle.call_encoding.specs.Frames.{Frame};
ghost use Rattle.receiver_end.specs.Answers.{mark_from};
ghost use Rattle.duplex_call.specs.declared.line.Party.{Party};
ghost use Rattle.duplex_call.specs.Duplex.{MayHappenOf, WayRuns, brings, brought, other, way};
ghost use Rattle.duplex_call.specs.Duplex.{with_delivery, with_play};
ghost use Rattle.one_way.specs.Way.{CanSend, HoldsWay};
ghost use Rattle.duplex_ends.specs.Keeping.{KeepsInDelivery, KeepsInPlay};
ghost use Rattle.duplex_ends.specs.Pair.{AreInCall, HoldsPair, MayHappenToParty, MayHappenToOne};
ghost use Rattle.duplex_ends.specs.Shown.{shown_next};
ghost use Rattle.duplex_ends.specs.Ways.{sides, with_whole};
ghost use Rattle.one_way.specs.declared.way.Way.{Way};
ghost use Rattle.duplex_ends.specs.declared.party.PartyEnds.{PartyEnds};

use crate::bringing::bring_header;
use crate::saying::put_by;
use crate::{PartyEnds, laws};
use h263_types::FixedPace;
use one_way::laws as one_way_laws;
use receiver_end::Played;
use sender_end::Sender;

// Brings the other party's sender the messages of a picture's header, where there is a packet at
// this place.
fn bring_carried(own: &PartyEnds, sender: &mut Sender<FixedPace>, number: u32, place: u32)
    requires { MayHappenToOne own.now (Deliver number place) }
    ensures params { sender.new.params ≡ sender.old.params }
    ensures sent { sender.new.sent ≡ sender.old.sent }
    ensures ready { (way : Way) → CanSend way sender.old → CanSend way sender.new }
    ensures holds { (p : Party → Params) (x : Party) (ways : WayRuns Frame) (left : ℕ)
        (far : PartyEnds) → HoldsPair p x own.now far ways → far.sender ≡ sender.old
        → MayHappenOf (sides p) left x (Deliver number place) ways
        → HoldsWay (p (other x)) far.way sender.new far.far_end []
        (way (other x) ways).frames (brought (brings (sides p) x (way x ways) number place)
        (way (other x) ways).past) }
{
    one_way_laws::call_laws();
    one_way_laws::near_event_laws();
    one_way_laws::way_laws();
    laws::said_laws();
    if place >= own.way.count(number) {
        return;
    }
    let header = own.carried.get(number);
    bring_header(sender, own.params.clock, &header);
}

/// Delivers the packet at a place of a picture, if there is one, and the messages of the picture's
/// header with it.
pub fn deliver(own: &mut PartyEnds, far: &mut PartyEnds, number: u32, place: u32)
    requires { MayHappenToParty own.old far.old (Deliver number place) }
    ensures ready { AreInCall own.new far.new }
    ensures keeps { KeepsInDelivery own.old far.old own.new far.new }
    ensures holds { (p : Party → Params) (x : Party) (ways : WayRuns Frame) (left : ℕ)
        → HoldsPair p x own.old far.old ways
        → MayHappenOf (sides p) left x (Deliver number place) ways
        → HoldsPair p x own.new far.new (with_delivery (sides p) x number place ways) }
{
    one_way_laws::call_laws();
    one_way_laws::near_event_laws();
    laws::said_laws();
    bring_carried(own, &mut far.sender, number, place);
    let said = own.way.deliver(&mut own.far_end, number, place);
    put_by(&mut far.waiting, own.params.clock, number, said);
}

/// Delivers all packets of a picture in their order.
pub fn deliver_all(own: &mut PartyEnds, far: &mut PartyEnds, number: u32)
    requires { MayHappenToParty own.old far.old (Deliver number 0) }
    ensures ready { AreInCall own.new far.new }
    ensures keeps { KeepsInDelivery own.old far.old own.new far.new }
    ensures holds { (p : Party → Params) (x : Party) (ways : WayRuns Frame) (left : ℕ)
        → HoldsPair p x own.old far.old ways
        → MayHappenOf (sides p) left x (Deliver number 0) ways
        → HoldsPair p x own.new far.new (with_whole p x number ways) }
{
    one_way_laws::call_laws();
    one_way_laws::near_event_laws();
    let count = own.way.count(number);
    'packets: for place in 0..count {
        deliver(own, far, number, place);
    }
}

/// Plays the next picture, and answers it with its mark. What is said of it waits with the other
/// party.
pub fn play(own: &mut PartyEnds, far: &mut PartyEnds) -> Played
    requires { MayHappenToParty own.old far.old Play }
    ensures ready { AreInCall own.new far.new }
    ensures keeps { KeepsInPlay own.old far.old own.new far.new }
    ensures played { own.new.far_end.played ≡ own.old.far_end.played + 1 }
    ensures number { result.number ≡ own.old.far_end.played }
    ensures mark { (p : Party → Params) (x : Party) (ways : WayRuns Frame) (left : ℕ)
        → HoldsPair p x own.old far.old ways → MayHappenOf (sides p) left x Play ways
        → result.mark ≡ mark_from (shown_next p x ways).mark }
    ensures holds { (p : Party → Params) (x : Party) (ways : WayRuns Frame) (left : ℕ)
        → HoldsPair p x own.old far.old ways → MayHappenOf (sides p) left x Play ways
        → HoldsPair p x own.new far.new (with_play (sides p) x ways) }
{
    one_way_laws::call_laws();
    one_way_laws::near_event_laws();
    laws::pair_laws();
    laws::said_laws();
    let played = own.way.play(&mut own.far_end);
    put_by(
        &mut far.waiting,
        own.params.clock,
        played.number,
        played.message,
    );
    played
}

//! Which events of one party's pictures are refused, before anything is done.
ghost use Rattle.std.specs.Prelude.{◌≡◌, ◌+◌, ◌<◌, ◌∷◌, [], ℕ, OnOk, length};
ghost use Rattle.h263_types.specs.declared.params.Params.{Params};
ghost use Rattle.call_model.specs.IdealCall.{Deliver, Play, Send};
ghost use Rattle.call_encoding.specs.Frames.{Frame};
ghost use Rattle.one_way.specs.Refused.{IsAllowed};
ghost use Rattle.duplex_call.specs.declared.line.Party.{Party};
ghost use Rattle.duplex_call.specs.Duplex.{WayRuns};
ghost use Rattle.duplex_call.specs.Refused.{refusal_of};
ghost use Rattle.duplex_ends.specs.Bringing.{carried_in, first_far};
ghost use Rattle.duplex_ends.specs.Pair.{AreInCall, HoldsPair, IsInCall, MayHappenToParty};
ghost use Rattle.duplex_ends.specs.Ways.{call_in, sides};

use crate::{PartyEnds, laws};
use duplex_call::Carried;
use one_way::{EventRefusal, check_capture, check_packet, is_late, laws as one_way_laws};

/// Whether the party's next picture may be captured: it may not where half a period is on the way.
/// A frame for it is looked for afterwards.
pub fn check_send(own: &PartyEnds) -> Result<(), EventRefusal>
    requires { IsInCall own.now }
    ensures may { (far : PartyEnds) → AreInCall own.now far
        → OnOk result (MayHappenToParty own.now far Send) }
    ensures refusal { (p : Party → Params) (x : Party) (far : PartyEnds) (ways : WayRuns Frame)
        → HoldsPair p x own.now far ways → IsAllowed result Send
        (refusal_of (sides p) (length (call_in p x ways).coded + 1) x Send ways) }
{
    one_way_laws::ends_agree();
    laws::refused_exactly();
    check_capture(own.params.clock.half(), &own.sender, &own.far_end)
}

// Whether the message at one place of a header is near, if there is one.
fn check_place(half: u32, sent: u32, place: &Option<Carried>) -> Result<(), EventRefusal>
    ensures { result ≡ first_far half sent (carried_in (place.now ∷ [])) }
{
    match place {
        Some(carried) if is_late(half, carried.about, sent) => Err(EventRefusal::Far {
            given: carried.about,
            other: sent,
        }),
        _ => Ok(()),
    }
}

// The first of the messages of a header that is far, by the count of pictures that were sent.
fn check_header(half: u32, sent: u32, header: &[Option<Carried>; 4]) -> Result<(), EventRefusal>
    ensures { result ≡ first_far half sent (carried_in header.now) }
{
    'header: for place in header {
        check_place(half, sent, place)?;
    }
    Ok(())
}

/// Whether packets of a picture may be delivered: it was sent, and lies less than half a period
/// behind the play; then, in their order, each message of its header is about a picture of the
/// other party that lies less than half a period behind its capture.
pub fn check_delivery(own: &PartyEnds, far: &PartyEnds, number: u32) -> Result<(), EventRefusal>
    requires { AreInCall own.now far.now }
    ensures may { (place : ℕ) → OnOk result
        (MayHappenToParty own.now far.now (Deliver number place)) }
    ensures refusal { (p : Party → Params) (x : Party) (ways : WayRuns Frame) (left place : ℕ)
        → HoldsPair p x own.now far.now ways → IsAllowed result (Deliver number place)
        (refusal_of (sides p) left x (Deliver number place) ways) }
{
    one_way_laws::ends_agree();
    one_way_laws::near_event_laws();
    one_way_laws::way_laws();
    laws::pair_laws();
    laws::refused_exactly();
    let half = own.params.clock.half();
    match check_packet(half, number, &own.sender, &own.far_end) {
        Ok(()) => check_header(half, far.sender.sent(), &own.carried.get(number)),
        Err(refusal) => Err(refusal),
    }
}

/// Whether the party's next picture may be played: it was sent.
pub fn check_play(own: &PartyEnds) -> Result<(), EventRefusal>
    requires { IsInCall own.now }
    ensures ahead { OnOk result (own.now.far_end.played < own.now.sender.sent) }
    ensures may { (far : PartyEnds) → AreInCall own.now far
        → OnOk result (MayHappenToParty own.now far Play) }
    ensures refusal { (p : Party → Params) (x : Party) (far : PartyEnds) (ways : WayRuns Frame)
        (left : ℕ) → HoldsPair p x own.now far ways
        → IsAllowed result Play (refusal_of (sides p) left x Play ways) }
{
    one_way_laws::ends_agree();
    laws::refused_exactly();
    one_way::check_play(&own.sender, &own.far_end)
}

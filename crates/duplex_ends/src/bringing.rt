//! The messages of a picture header come back to a sender.
ghost use Rattle.std.specs.Prelude.{◌≡◌, ◌∷◌, ℕ, List, [], Option};
ghost use Rattle.duplex_call.specs.declared.queue.Carried.{Carried};
ghost use Rattle.h263_types.specs.declared.params.Params.{Params};
ghost use Rattle.call_model.specs.IdealCall.{Event};
ghost use Rattle.call_encoding.specs.Frames.{Frame};
ghost use Rattle.receiver_end.specs.declared.kept.Kept.{Kept};
ghost use Rattle.one_way.specs.declared.way.Way.{Way};
ghost use Rattle.one_way.specs.Both.{both_after, steady};
ghost use Rattle.one_way.specs.Way.{CanSend, HoldsWay};
ghost use Rattle.duplex_call.specs.Duplex.{brought};
ghost use Rattle.duplex_ends.specs.Bringing.{AreOfClock, IsReturning, MayReturnAll, carried_in};

use crate::saying::bytes_of;
use duplex_call::Carried;
use h263_types::{Clock, FixedPace};
use one_way::{bring_back, laws as one_way_laws};
use sender_end::Sender;

// Brings the message at one place of a header back, if there is one.
fn bring_place(sender: &mut Sender<FixedPace>, clock: Clock, place: &Option<Carried>)
    requires { AreOfClock clock (carried_in (place.now ∷ [])) }
    ensures params { sender.new.params ≡ sender.old.params }
    ensures sent { sender.new.sent ≡ sender.old.sent }
    ensures pace { sender.new.pace ≡ sender.old.pace }
    ensures ready { (way : Way) → CanSend way sender.old → CanSend way sender.new }
    ensures holds { (p : Params) (way : Way) (receiver : Kept) (frames : List Frame)
        (whole : List Event) (rest : List (Option Carried)) → sender.old.pace.quant ≡ p.quant
        → IsReturning p way sender.old receiver frames whole (carried_in (place.now ∷ rest))
        → IsReturning p way sender.new receiver frames whole (carried_in rest) }
{
    one_way_laws::event_laws();
    let Some(carried) = place else {
        return;
    };
    bring_back(sender, bytes_of(&carried.message, clock).text());
}

/// Brings the messages of a header back, in their order.
pub fn bring_header(sender: &mut Sender<FixedPace>, clock: Clock, header: &[Option<Carried>])
    requires { AreOfClock clock (carried_in header.now) }
    ensures params { sender.new.params ≡ sender.old.params }
    ensures sent { sender.new.sent ≡ sender.old.sent }
    ensures pace { sender.new.pace ≡ sender.old.pace }
    ensures ready { (way : Way) → CanSend way sender.old → CanSend way sender.new }
    ensures holds { (p : Params) (way : Way) (receiver : Kept) (frames : List Frame)
        (past : List Event) (ks : List ℕ) → sender.old.pace.quant ≡ p.quant
        → HoldsWay p way sender.old receiver [] frames past
        → MayReturnAll p (both_after p (steady p) frames [] past) ks (carried_in header.now)
        → HoldsWay p way sender.new receiver [] frames (brought ks past) }
{
    one_way_laws::event_laws();
    'header: for place in header {
        bring_place(sender, clock, place);
    }
}

//! The laws of a call of two parties. Each is the contract of a function that does nothing.
ghost use Rattle.std.specs.Prelude.{List};
ghost use Rattle.call_model.specs.IdealCall.{AllMayHappen};
ghost use Rattle.duplex_call.specs.declared.line.Party.{Party};
ghost use Rattle.duplex_call.specs.Duplex.{AllMayHappenOf, Lettered, WayCoding, way, ways_after};
ghost use Rattle.duplex_call.specs.FourStores.{PartyEndsFollow, IsWayCoding, LastFourAre};
ghost use Rattle.duplex_call.specs.Refused.{NoneWhereItMayHappenOf};

use call_model::laws as call_model_laws;

/// Where each event may happen, the four ends do what the two ideal calls say: both stores of each
/// way agree with its call.
pub fn four_stores<Captured, Frame, Style, Mb, Picture, Fault, MessageFault>()
    ensures { (side : Party → WayCoding Captured Frame Style Mb Picture Fault MessageFault)
        (captures : Party → List Captured) (past : List Lettered) → ((x : Party) → IsWayCoding (side x))
        → AllMayHappenOf side captures past
        → (x : Party) → PartyEndsFollow side x (way x (ways_after side captures past)) }
{
    call_model_laws::later_frames::<Frame, Style, Mb, Picture, Fault, MessageFault>();
    call_model_laws::two_stores::<Frame, Style, Mb, Picture, Fault, MessageFault>();
}

/// An event has no refusal exactly where it is in place and near, by the counts of its own way and,
/// for the messages that a delivery brings, by those of the other.
pub fn two_way_refusals<Captured, Frame, Style, Mb, Picture, Fault, MessageFault>()
    ensures { (side : Party → WayCoding Captured Frame Style Mb Picture Fault MessageFault)
        → NoneWhereItMayHappenOf side }
{
    call_model_laws::refusals::<Frame, Style, Mb, Picture, Fault, MessageFault>();
}

/// In a near call of two parties the events of each party's pictures, with the messages that are
/// brought to it, are near by its own ideal call.
pub fn each_way_is_near<Captured, Frame, Style, Mb, Picture, Fault, MessageFault>()
    ensures { (side : Party → WayCoding Captured Frame Style Mb Picture Fault MessageFault)
        (captures : Party → List Captured) (past : List Lettered) → AllMayHappenOf side captures past
        → (x : Party) → AllMayHappen (side x).coding (side x).rules (side x).pace
        (way x (ways_after side captures past)).frames (way x (ways_after side captures past)).past }
{
    call_model_laws::later_frames::<Frame, Style, Mb, Picture, Fault, MessageFault>();
}

/// A header carries the last four messages, at most, that were said since the capture before.
pub fn last_four_messages()
    ensures { LastFourAre }
{}

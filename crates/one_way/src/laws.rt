//! What a way of a call rests on. Each law is the contract of a function that does nothing else.
ghost use Rattle.std.specs.Prelude.{◌≡◌, List, []};
ghost use Rattle.h263_types.specs.declared.params.Params.{Params};
ghost use Rattle.h263_types.specs.Params.{IsParams};
ghost use Rattle.call_model.specs.IdealCall.{Event};
ghost use Rattle.call_model.specs.JoinedRun.{AllMayHappenBoth, EachEndRuns};
ghost use Rattle.call_model.specs.LaterFrames.{LaterFramesBoth};
ghost use Rattle.call_decoding.specs.Rules.{rules_of};
ghost use Rattle.call_encoding.specs.Frames.{Frame};
ghost use Rattle.coded_call.specs.Coding.{coding};
ghost use Rattle.receiver_end.specs.State.{run_of};
ghost use Rattle.one_way.specs.Both.{steady};
ghost use Rattle.one_way.specs.Laws.{CallLaws, EventLaws, NetworkLaws, NearLaws, PacketLaws};
ghost use Rattle.one_way.specs.Laws.{RingLaws, ShowTheSame, WayLaws};

use back_messages::MessageFault;
use call_decoding::laws::are_rules;
use call_decoding::{Pictured, Styled};
use call_encoding::Framed;
use call_encoding::laws::{header_in_range, written_packets};
use call_model::laws::{each_end_runs, frames_by_events, in_a_call, refusals, rings};
use call_rings::laws::room_of_a_picture;
use coded_call::laws::{is_coding, said_bytes, two_stores};
use h263_bits::Fault;
use h263_types::Mb;
use mode_choice::laws::{chosen_is_in_range, one_for_each_place};
use packet_cutter::laws::by_functions;

/// In the run of both ends each end does what its own run does.
pub fn ends_run()
    ensures { (p : Params) → EachEndRuns (coding p) (rules_of p) }
{
    each_end_runs::<Framed, Styled, Mb, Pictured, Fault, MessageFault>();
}

/// Frames after those that were sent change nothing of both ends.
pub fn later_frames()
    ensures { (p : Params) → LaterFramesBoth (coding p) (rules_of p) }
{
    call_model::laws::later_frames::<Framed, Styled, Mb, Pictured, Fault, MessageFault>();
}

/// Both ends in a near call do what the ideal call says.
pub fn call_laws()
    ensures { (p : Params) → IsParams p → CallLaws p }
{
    ends_run();
    frames_by_events::<Framed, Styled, Mb, Pictured, Fault, MessageFault>();
    two_stores();
}

/// A message is said by the bytes that are written of it, and a picture has a packet for each
/// slice.
pub fn message_laws()
    ensures { (p : Params) → NetworkLaws p }
{
    said_bytes();
    written_packets();
}

/// In a near call with a new receiver both ends show what the ideal call shows.
pub fn ends_agree()
    ensures { (p : Params) (frames : List Frame) (past : List Event) → IsParams p
        → AllMayHappenBoth (coding p) (rules_of p) (run_of p []) (steady p) frames past
        → ShowTheSame p frames past }
{
    call_laws();
    near_event_laws();
}

/// The packets of a picture have at most 1,200 bytes together for each macroblock, and there are no
/// more of them than macroblocks. So it is whatever was chosen as its reference.
pub fn packet_laws()
    ensures { (p : Params) → IsParams p → PacketLaws p }
{
    header_in_range();
    one_for_each_place();
    chosen_is_in_range();
    written_packets();
    by_functions();
    room_of_a_picture();
}

/// An event that isn't refused is near by both ends, which is near by the ideal call; and what a
/// near event asks for is still in the rings.
pub fn near_event_laws()
    ensures { (p : Params) → IsParams p → NearLaws p }
{
    is_coding();
    are_rules();
    refusals::<Framed, Styled, Mb, Pictured, Fault, MessageFault>();
    in_a_call::<Framed, Styled, Mb, Pictured, Fault, MessageFault>();
    rings::<Framed, Styled, Mb, Pictured, Fault, MessageFault>();
}

/// What both ends have done, by their own counts and pictures.
pub fn way_laws()
    ensures { (p : Params) → WayLaws p }
{
    ends_run();
    later_frames();
}

/// What single events leave of both ends as it was.
pub fn event_laws()
    ensures { (p : Params) → EventLaws p }
{}

/// What the rings of a network keep of pictures and messages.
pub fn ring_laws()
    ensures { (p : Params) → RingLaws p }
{
    said_bytes();
}

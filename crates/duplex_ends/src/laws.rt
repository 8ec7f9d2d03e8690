//! What the ends of both parties rest on and give. Each law is the contract of a function that does
//! nothing else.
ghost use Rattle.h263_types.specs.declared.params.Params.{Params};
ghost use Rattle.h263_types.specs.Params.{IsParams};
ghost use Rattle.call_model.specs.LaterFrames.{LaterFrames};
ghost use Rattle.call_decoding.specs.Rules.{rules_of};
ghost use Rattle.call_encoding.specs.Frames.{Frame};
ghost use Rattle.coded_call.specs.Coding.{coding};
ghost use Rattle.duplex_call.specs.declared.line.Party.{Party};
ghost use Rattle.duplex_call.specs.Duplex.{WayRuns};
ghost use Rattle.duplex_call.specs.Refused.{NoneWhereItMayHappenOf};
ghost use Rattle.duplex_ends.specs.Ways.{sides};
ghost use Rattle.duplex_ends.specs.Laws.{AfterPlay, PairLaws, SaidLaws};

use back_messages::MessageFault;
use back_messages::laws::exact_text;
use call_decoding::{Pictured, Styled};
use call_encoding::Framed;
use coded_call::laws::{is_coding, said_bytes};
use duplex_call::laws::two_way_refusals;
use h263_bits::Fault;
use h263_types::Mb;
use one_way::laws as one_way_laws;

/// New ends have done nothing; what both have done may be said from either party; the counts of the
/// ends are those of the ideal calls.
pub fn pair_laws()
    ensures { (p : Party → Params) → PairLaws p }
{
    one_way_laws::way_laws();
    one_way_laws::ends_agree();
}

/// Frames after those that were sent change nothing of an ideal call.
pub(crate) fn later_calls()
    ensures { (p : Params) → LaterFrames (coding p) (rules_of p) }
{
    call_model::laws::later_frames::<Framed, Styled, Mb, Pictured, Fault, MessageFault>();
}

/// An event has no refusal exactly where it may happen.
pub(crate) fn refused_exactly()
    ensures { (p : Party → Params) → NoneWhereItMayHappenOf (sides p) }
{
    two_way_refusals::<Pictured, Framed, Styled, Mb, Pictured, Fault, MessageFault>();
}

/// What a receiver says is read from its bytes, as a picture header carries it.
pub(crate) fn said_laws()
    ensures { (p : Params) → IsParams p → SaidLaws p }
{
    exact_text();
    said_bytes();
    is_coding();
}

/// A play shows one picture more, and leaves the pictures that were sent.
pub fn after_a_play()
    ensures { (p : Party → Params) (x : Party) (ways : WayRuns Frame) → AfterPlay p x ways }
{}

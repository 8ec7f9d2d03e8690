//! What holds of every receiver of a group. Each law is the contract of a function that does nothing
//! else.
ghost use Rattle.h263_types.specs.declared.params.Params.{Params};
ghost use Rattle.h263_types.specs.Params.{IsParams};
ghost use Rattle.group_call.specs.Following.{ViewersFollow};
ghost use Rattle.group_call.specs.Hearing.{ViewersAreHeard};
ghost use Rattle.group_call.specs.One.{OneIsACall};

use back_messages::MessageFault;
use call_decoding::laws::are_rules;
use call_decoding::{Pictured, Styled};
use call_encoding::Framed;
use coded_call::laws::is_coding;
use group_sender::laws::{each_is_heard, group, one_is_a_sender};
use h263_bits::Fault;
use h263_types::Mb;
use one_way::laws::ends_run;

/// In any call that is near for it, each receiver that is there from the start shows what its ideal
/// call shows, whatever the others lose or say: a picture is exact where all its packets arrived while
/// it was open, and nowhere else.
pub fn viewers_follow()
    ensures { (p : Params) → IsParams p → ViewersFollow p }
{
    is_coding();
    are_rules();
    group::<Framed, Styled, Mb, Pictured, Fault, MessageFault>();
}

/// Each such receiver says what its ideal call says, each message about its picture, and the group
/// knows of it what that call's sender knows.
pub fn viewers_are_heard()
    ensures { (p : Params) → IsParams p → ViewersAreHeard p }
{
    is_coding();
    are_rules();
    each_is_heard::<Framed, Styled, Mb, Pictured, Fault, MessageFault>();
}

/// A group of one is a call: over the same events its pictures, its receiver, what that says and what
/// it shows are those of both ends.
pub fn one_is_a_call()
    ensures { (p : Params) → OneIsACall p }
{
    ends_run();
    one_is_a_sender::<Framed, Styled, Mb, Pictured, MessageFault>();
}

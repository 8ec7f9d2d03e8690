//! What an aim comes to. The law is the contract of a function that does nothing.
ghost use Rattle.fitted_sender.specs.Aiming.{PlainIsSenderRun};

use back_messages::MessageFault;
use call_decoding::{Pictured, Styled};
use call_encoding::Framed;
use call_model::laws::forgetting;
use h263_types::Mb;

/// Where pictures fit no size, the sender's run is that of its entries, with one target for all of
/// them or with none.
pub fn one_target()
    ensures { PlainIsSenderRun }
{
    forgetting::<Framed, Styled, Mb, Pictured, MessageFault>();
}

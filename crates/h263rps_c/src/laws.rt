//! What steering a sender comes to. Each law is the contract of a function that does nothing.
ghost use Rattle.h263rps_c.specs.Steering.{ForgetIsForGood, SteeredForgetIsIntra, PlainIsRun, QuantiserFits, QuantiserIs};

use back_messages::MessageFault;
use call_decoding::{Pictured, Styled};
use call_encoding::Framed;
use call_model::laws as call_model_laws;
use fitted_sender::laws as fitted_laws;
use h263_types::Mb;

/// A steered sender. At each picture the quantiser follows the target in force then, by the bytes
/// of the last 16 pictures (`quantiser`), or fits the picture to it (`fitted`). The picture after a
/// forget is coded intra (`intra`), and no picture from before it is a reference again, whatever
/// comes back later (`for_good`). A sender that isn't steered, and fits nothing, has the run of its
/// entries, with one target for all (`plain`).
pub fn steering()
    ensures quantiser { QuantiserIs }
    ensures fitted { QuantiserFits }
    ensures intra { SteeredForgetIsIntra }
    ensures for_good { ForgetIsForGood }
    ensures plain { PlainIsRun }
{
    fitted_laws::one_target();
    call_model_laws::forgetting::<Framed, Styled, Mb, Pictured, MessageFault>();
}

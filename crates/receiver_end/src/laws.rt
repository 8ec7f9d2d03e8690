//! What is known of a receiver's run by its definitions alone. Each law is the contract of a
//! function that does nothing else.
ghost use Rattle.h263_bits.specs.declared.fault.Fault.{Fault};
ghost use Rattle.h263_types.specs.declared.clock.Clock.{Clock};
ghost use Rattle.h263_types.specs.declared.params.Params.{Params};
ghost use Rattle.h263_types.specs.Params.{IsParams};
ghost use Rattle.call_model.specs.Lawful.{IsDecoding};
ghost use Rattle.call_model.specs.Order.{AnyOrder};
ghost use Rattle.call_model.specs.Receiving as runs;
ghost use Rattle.call_decoding.specs.Rules.{rules_of};
ghost use Rattle.receiver_end.specs.declared.answers.Heard.{Heard};
ghost use Rattle.receiver_end.specs.Answers.{IsHeard, SaysMessage, said_by, said_in_answer};
ghost use Rattle.receiver_end.specs.Decoding.{decoding};

use call_decoding::laws::{are_pictures, are_rules};
use call_decoding::{Pictured, Styled};
use h263_bits::Fault;
use h263_types::Mb;
use packet_collector::laws::read_inside;

/// A receiver decodes as the laws of a call ask.
pub fn is_decoding()
    ensures { (p : Params) → IsDecoding (decoding p.format) (rules_of p) }
{
    are_pictures();
    read_inside();
}

/// The packets of one picture may come in any order: each play up to the picture's own shows the
/// same picture with the same mark.
pub fn order()
    ensures { (p : Params) → IsParams p → AnyOrder (decoding p.format) (rules_of p) }
{
    is_decoding();
    are_rules();
    call_model::laws::order::<Styled, Mb, Pictured, Fault>();
}

/// The message of an answer is that of the run's answer.
pub fn answers_say()
    ensures { (clock : Clock) (h : Heard) (answer : runs.Heard Fault) → IsHeard clock h answer
        → SaysMessage clock (said_in_answer h) (said_by answer) }
{}

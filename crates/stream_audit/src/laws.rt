//! What a yes of an audit promises. Each law is the contract of a function that does nothing else.
ghost use Rattle.std.specs.Prelude.{ℕ, List, Result};
ghost use Rattle.h263_types.specs.declared.params.Params.{Params};
ghost use Rattle.h263_types.specs.Params.{IsParams};
ghost use Rattle.call_model.specs.Coding.{Decoding, Message, Rules};
ghost use Rattle.call_model.specs.Lawful.{IsDecoding, IsRules};
ghost use Rattle.stream_audit.specs.Breaks.{NoIsFirst};
ghost use Rattle.stream_audit.specs.Logs.{StreamsAreAudited, VerdictOfEachVersion};
ghost use Rattle.stream_audit.specs.Replay.{Audited, ReadsInPeriod};
ghost use Rattle.stream_audit.specs.Sound.{YesIsSound};
ghost use Rattle.stream_audit.specs.Text.{LineTells};
ghost use Rattle.stream_audit.specs.Verdict.{FlagsAreNotJudged};

use back_messages::MessageFault;
use call_decoding::laws::are_rules;
use call_decoding::{Pictured, Styled};
use call_model::laws::{any_sound_sender, by_events, in_a_call, nearest, searches};
use h263_bits::Fault;
use h263_types::Mb;
use packet_collector::laws::exact_text;
use receiver_end::laws::is_decoding;

/// The verdict on a log is yes exactly where each of its packets is one of the picture clock and
/// each picture of its stream is sound.
pub fn yes_is_sound<Style, Mb, P, Fault, MessageFault>()
    ensures { (decoding : Decoding Style Mb P Fault)
        (read : List ℕ → Result Message MessageFault) (rules : Rules)
        → IsDecoding decoding rules → YesIsSound decoding read rules }
{
    searches();
}

/// Where the verdict on a log is no, its picture breaks its rule, and nothing before it in the log
/// breaks one.
pub fn no_is_first<Style, Mb, P, Fault, MessageFault>()
    ensures { (decoding : Decoding Style Mb P Fault)
        (read : List ℕ → Result Message MessageFault) (rules : Rules)
        → IsDecoding decoding rules → NoIsFirst decoding read rules }
{
    searches();
}

/// Where the verdict on a log is yes, no receiver in a near call of its stream refuses a packet of
/// it, and each picture whose packets all come in time is marked exact, and shown as the stream has
/// it decoded. Feedback that makes nothing known is passed over.
pub fn audited<Style, Mb, P, Fault, MessageFault>()
    ensures { (decoding : Decoding Style Mb P Fault)
        (read : List ℕ → Result Message MessageFault) (rules : Rules)
        → IsDecoding decoding rules → IsRules rules → ReadsInPeriod decoding rules
        → Audited decoding read rules }
{
    yes_is_sound::<Style, Mb, P, Fault, MessageFault>();
    any_sound_sender::<Style, Mb, P, Fault>();
    by_events::<Style, Mb, P>();
    in_a_call::<P, Style, Mb, P, Fault, MessageFault>();
    nearest();
    searches();
}

/// The verdict on a log doesn't depend on the flags of the receiver's messages.
pub fn flags_are_not_judged<Style, Mb, P, Fault, MessageFault>()
    ensures { (decoding : Decoding Style Mb P Fault)
        (read : List ℕ → Result Message MessageFault) (rules : Rules)
        → FlagsAreNotJudged decoding read rules }
{}

/// For the program's packets and messages the verdict is one for both versions of messages
/// (`verdict`). So after a yes the same holds of its receivers, with messages of either version
/// (`audited`).
pub fn audited_streams()
    ensures verdict { (p : Params) → VerdictOfEachVersion p }
    ensures audited { (p : Params) → IsParams p → StreamsAreAudited p }
{
    is_decoding();
    are_rules();
    exact_text();
    flags_are_not_judged::<Styled, Mb, Pictured, Fault, MessageFault>();
    audited::<Styled, Mb, Pictured, Fault, MessageFault>();
}

/// The line of the verdict on a log tells this verdict: no other one has it.
pub fn lines_tell_verdicts()
    ensures { (p : Params) → LineTells p }
{}

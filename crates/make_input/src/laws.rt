//! Laws over the definitions alone.
ghost use Rattle.std.specs.Prelude.{◌≡◌, ℕ, ◌≤◌, ◌<◌, List, [], length, Some};
ghost use Rattle.call_model.specs.Coding.{Coding, Pictures, Rules, pictures_of};
ghost use Rattle.call_model.specs.IdealCall.{AllMayHappen, AllMayHappenFrom, Source, encoded};
ghost use Rattle.call_model.specs.IdealCall.{Send, Deliver, Play, Back};
ghost use Rattle.call_model.specs.Refusals.{NoFrame, NotSaid, NotSent, PlayBeforeSend, first_refusal};
ghost use Rattle.call_model.specs.Lawful.{IsCoding, IsPace, IsRules};
ghost use Rattle.make_input.specs.Expanded.{SendsSlices, expanded};
ghost use Rattle.make_input.specs.Trace.{made_trace};

use call_model::laws::{encoder_is_sound, searches};

/// No line of a made trace is refused: each of its events is in place and near, whatever pictures
/// with a slice are sent.
pub fn made_traces_are_near<Style, Mb, Picture>()
    ensures { (pictures : Pictures Style Mb Picture)
        (rules : Rules) (source : Source Style Mb Picture) (seed frames : ℕ) → 4 ≤ rules.half
        → SendsSlices pictures rules source frames → AllMayHappenFrom pictures rules source frames
        (expanded pictures rules source [] (made_trace seed frames)) }
{
    searches();
}

/// So it is in the ideal call of as many frames.
pub fn made_calls_are_near<Frame, Style, Mb, Picture, Fault, MessageFault>()
    ensures { (coding : Coding Frame Style Mb Picture Fault MessageFault) (rules : Rules)
        (pace : List ℕ → ℕ) (frames : List Frame) (seed : ℕ) → IsCoding coding rules → IsRules rules
        → IsPace pace → 4 ≤ rules.half → AllMayHappen coding rules pace frames
        (expanded (pictures_of coding) rules
        (encoded coding rules pace frames) [] (made_trace seed (length frames))) }
{
    searches();
    encoder_is_sound::<Frame, Style, Mb, Picture, Fault, MessageFault>();
}

/// Other traces are refused. Of a video of one frame: a second capture has no frame, a play before
/// the capture has nothing to show, a packet before it was not sent, and a message before one was
/// said was not said.
pub fn other_traces_are_refused()
    ensures capture { (rules : Rules)
        → 1 < rules.half → first_refusal rules 1 1 0 [] Send ≡ Some NoFrame }
    ensures play { (rules : Rules) → first_refusal rules 1 0 0 [] Play ≡ Some PlayBeforeSend }
    ensures packet { (rules : Rules) → first_refusal rules 1 0 0 [] (Deliver 0 0) ≡ Some NotSent }
    ensures message { (rules : Rules) → first_refusal rules 1 1 0 [] (Back 0) ≡ Some NotSaid }
{}

//! What a call comes to, and what its machine rests on. Each law is the contract of a function that
//! does nothing else.
ghost use Rattle.std.specs.Prelude.{◌≡◌, ◌≤◌, ℕ, List, [], false, true, Ok, Err, Some};
ghost use Rattle.h263_types.specs.declared.blocks.Mb.{Mb};
ghost use Rattle.h263_types.specs.declared.format.Format.{Format};
ghost use Rattle.h263_types.specs.declared.params.Params.{Params};
ghost use Rattle.h263_types.specs.Params.{IsParams};
ghost use Rattle.h263_planes.specs.Picture.{Picture};
ghost use Rattle.h263_outside.specs.Desk.{Rose};
ghost use Rattle.h263_outside.specs.declared.desk.Role.{Role};
ghost use Rattle.h263_outside.specs.declared.desk.Role.TheVariants.{Video};
ghost use Rattle.y4m.specs.declared.fault.Y4mFault.{Y4mFault};
ghost use Rattle.y4m.specs.Head.{head_of};
ghost use Rattle.y4m.specs.Video.{video_fault, video_frames};
ghost use Rattle.call_report.specs.declared.status.Status.TheVariants.{VideoRefused, Video2Refused};
ghost use Rattle.call_decoding.specs.Rules.{rules_of};
ghost use Rattle.call_decoding.specs.Styles.{Style};
ghost use Rattle.call_encoding.specs.Frames.{Frame};
ghost use Rattle.call_model.specs.Before.{Sends};
ghost use Rattle.call_model.specs.Coding.{pictures_of};
ghost use Rattle.call_model.specs.IdealCall.{AllMayHappen, AllMayHappenFrom, Event, Source, encoded};
ghost use Rattle.coded_call.specs.Coding.{coding};
ghost use Rattle.one_way.specs.Both.{steady};
ghost use Rattle.one_way.specs.Laws.{EventLaws, NearLaws, WayLaws};
ghost use Rattle.call_model.specs.LaterFrames.{LaterFramesBoth};
ghost use Rattle.desk_program.specs.Laws.{StepLaws, TurnLaws};
ghost use Rattle.desk_program.specs.Run.{run_from, video_refusal};
ghost use Rattle.desk_program.specs.Texts.{no_bytes};
ghost use Rattle.call_command.specs.declared.terms.Terms.{Terms};
ghost use Rattle.call_command.specs.Call.{call_begin, call_step, most_turns};
ghost use Rattle.call_command.specs.Laws.{FramesLeft, LineLaws, TalkIsTheCall, VideoLaws};
ghost use Rattle.call_command.specs.Plain.{ShowsEachFrame, status_for};
ghost use Rattle.call_command.specs.Recorded.{FollowsItsTrace, ShowsWhatArrived};

use back_messages::MessageFault;
use call_decoding::{Pictured, Styled};
use call_encoding::Framed;
use call_model::laws::{by_events, frames_by_events, later_frames, refusals, searches};
use desk_program::laws::{step_laws, turn_laws};
use h263_bits::Fault;
use h263_outside::laws::calls;
use h263_types::Mb;
use loss_trace::laws::exact_lines;
use one_way::laws as one_way_laws;
use y4m::laws::{cut_after, frame_by_frame};

/// Of a video a call shows each frame's reconstruction, as it was coded by itself, in order, up to
/// the video's first fault (`frames`). So it ends with `Ok` where the video has no fault, and else
/// refuses the video for its first one (`status`).
pub fn a_call_shows_each_frame()
    ensures frames { (p : Params) (inputs : Role → List ℕ) (f : Format)
        → IsParams p → head_of (inputs Video) ≡ Ok f
        → ShowsEachFrame p f (video_frames (inputs Video)) (video_fault (inputs Video))
        (run_from (call_begin (record { params = p; plain = true }) inputs) call_step 1048576
        inputs) }
    ensures status { (p : Params) (inputs : Role → List ℕ) → IsParams p
        → (run_from (call_begin (record { params = p; plain = true }) inputs) call_step 1048576
        inputs).last.status ≡ status_for (video_fault (inputs Video)) }
{
    one_way_laws::call_laws();
    searches();
    frame_by_frame();
}

/// In a near call, whatever its pictures come from, each picture that was played is marked exact
/// where all its packets were delivered while it was open, and nowhere else, and was then shown as it
/// is decoded (`any`). So it is in a call of an encoder, which doesn't run out while frames are left
/// (`frames`).
pub fn what_arrived_is_shown()
    ensures any { (p : Params) (source : Source Style Mb Picture) (left : ℕ) (past : List Event)
        → Sends source left
        → AllMayHappenFrom (pictures_of (coding p)) (rules_of p) source left past
        → ShowsWhatArrived p source past }
    ensures frames { (p : Params) (frames : List Frame) (past : List Event)
        → AllMayHappen (coding p) (rules_of p) (steady p) frames past
        → ShowsWhatArrived p (encoded (coding p) (rules_of p) (steady p) frames) past }
{
    by_events::<Styled, Mb, Pictured>();
    frames_by_events::<Framed, Styled, Mb, Pictured, Fault, MessageFault>();
    searches();
}

/// Over a recorded trace, whatever bytes the trace and the video are made of, a call accepts the
/// first lines of the trace, and is the ideal call of the video's frames over their events: these
/// are in place and near; what it writes is the head and then what the plays showed, with a line
/// for each; a picture is marked exact where all its packets were delivered while it was open, and
/// nowhere else; and where it ends with `Ok` the counts are those of that call. It ends because of
/// the line after them, or because there is none (`trace`). Of a video without a head it writes
/// nothing (`no_head`).
pub fn a_call_follows_its_trace()
    ensures trace { (p : Params) (inputs : Role → List ℕ) (f : Format)
        → head_of (inputs Video) ≡ Ok f
        → FollowsItsTrace (record p { format = f }) inputs
        (run_from (call_begin (record { params = p; plain = false }) inputs) call_step 16777216
        inputs) }
    ensures no_head { (p : Params) (inputs : Role → List ℕ) (fault : Y4mFault)
        → head_of (inputs Video) ≡ Err fault
        → run_from (call_begin (record { params = p; plain = false }) inputs) call_step 16777216
        inputs ≡ record { turns = []; last = video_refusal Video no_bytes (VideoRefused fault) } }
{
    refusals::<Framed, Styled, Mb, Pictured, Fault, MessageFault>();
    later_frames::<Framed, Styled, Mb, Pictured, Fault, MessageFault>();
    frames_by_events::<Framed, Styled, Mb, Pictured, Fault, MessageFault>();
    what_arrived_is_shown();
    frame_by_frame();
}

/// A video that is refused has that fault, and no earlier one.
pub fn refused_videos()
    ensures { (t : Terms) (inputs : Role → List ℕ) (fault : Y4mFault)
        → (run_from (call_begin t inputs) call_step (most_turns t.plain) inputs).last.status
        ≡ VideoRefused fault → video_fault (inputs Video) ≡ Some fault }
{
    frame_by_frame();
}

/// There is no second video that could be refused.
pub fn no_second_video()
    ensures { (t : Terms) (inputs : Role → List ℕ) (fault : Y4mFault)
        → (run_from (call_begin t inputs) call_step (most_turns t.plain) inputs).last.status
        ≡ Video2Refused fault → ⊥ }
{}

/// A call by both ends, with a new receiver, is the ideal call, turn by turn.
pub fn talks_agree()
    ensures { (t : Terms) → IsParams t.params → TalkIsTheCall t }
{
    one_way_laws::later_frames();
    one_way_laws::ends_agree();
    one_way_laws::near_event_laws();
    one_way_laws::event_laws();
}

/// A whole head or frame stays what it is where the text after it is cut.
pub fn video_laws()
    ensures { VideoLaws }
{
    cut_after();
}

/// What a turn rests on: how its reads and writes add up (`turns`, `steps`), a fault that rose
/// stays (`rose`), what is left of the video (`video`), what both ends have done (`way`), what an
/// event leaves of them (`events`) and when it may happen (`near`), and that it doesn't matter to
/// them which frames are still to come (`later`).
pub fn turning()
    ensures turns { TurnLaws }
    ensures steps { StepLaws }
    ensures rose { (a b c : ℕ) → a ≤ b → Rose b c → Rose a c }
    ensures video { VideoLaws }
    ensures way { (p : Params) → WayLaws p }
    ensures events { (p : Params) → EventLaws p }
    ensures near { (p : Params) → IsParams p → NearLaws p }
    ensures later { (p : Params) → LaterFramesBoth (coding p) (rules_of p) }
{
    turn_laws();
    step_laws();
    calls();
    video_laws();
    one_way_laws::way_laws();
    one_way_laws::event_laws();
    one_way_laws::near_event_laws();
    one_way_laws::later_frames();
}

/// What the turns of lines take and leave of a trace, whatever a machine keeps in mind.
pub fn line_laws()
    ensures { LineLaws }
{
    turn_laws();
    exact_lines();
}

/// How many frames there are to be sent matters to a capture alone.
pub fn frames_left()
    ensures { FramesLeft }
{}

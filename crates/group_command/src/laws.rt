//! What a group's call rests on. Each law is the contract of a function that does nothing else.
ghost use Rattle.std.specs.Prelude.{◌≡◌, ◌≤◌, ℕ, List, [], Some, Ok, Err};
ghost use Rattle.h263_outside.specs.declared.desk.Role.{Role};
ghost use Rattle.h263_outside.specs.declared.desk.Role.TheVariants.{Video};
ghost use Rattle.y4m.specs.declared.fault.Y4mFault.{Y4mFault};
ghost use Rattle.y4m.specs.Head.{head_of};
ghost use Rattle.y4m.specs.Video.{video_fault};
ghost use Rattle.call_report.specs.declared.status.Status.TheVariants.{VideoRefused, Video2Refused};
ghost use Rattle.h263_outside.specs.Desk.{Rose};
ghost use Rattle.h263_types.specs.declared.format.Format.{Format};
ghost use Rattle.h263_types.specs.Params.{IsParams};
ghost use Rattle.desk_program.specs.Run.{video_refusal};
ghost use Rattle.desk_program.specs.Texts.{no_bytes};
ghost use Rattle.desk_program.specs.Laws.{StepLaws, TurnLaws};
ghost use Rattle.call_command.specs.Laws.{LineLaws, VideoLaws};
ghost use Rattle.group_command.specs.declared.terms.GroupTerms.{GroupTerms};
ghost use Rattle.group_command.specs.Group.{group_call_run};
ghost use Rattle.group_command.specs.Recorded.{GroupFollowsItsTrace};

use back_messages::MessageFault;
use call_command::laws::{line_laws, video_laws, what_arrived_is_shown};
use call_decoding::{Pictured, Styled};
use call_encoding::Framed;
use call_model::laws::refusals;
use desk_program::laws::{step_laws, turn_laws};
use group_call::laws::{viewers_are_heard, viewers_follow};
use group_sender::laws::newest_of_all;
use h263_bits::Fault;
use h263_outside::laws::calls;
use h263_types::Mb;
use one_way::laws::message_laws;
use y4m::laws::frame_by_frame;

/// Over a recorded trace, whatever bytes the trace and the video are made of, a group's call accepts
/// the first lines of the trace, and is the ideal calls of all its receivers over their events, whose
/// pictures are the group's: each event is in place and near for its receivers; each picture refers to
/// the newest one in the window of which each receiver has told that it has it, and to none where
/// there is none; what is written of each receiver's pictures is the head and then what its plays
/// showed, with a line for each in the order of the plays; of each receiver a picture is marked exact
/// where all its packets reached it while it was open, and nowhere else, and was then shown as the
/// sender has it; and where the run ends with `Ok` the counts are those of all calls. It ends because
/// of the line after them, or because there is none (`trace`). Of a video without a head it writes
/// nothing (`no_head`).
pub fn a_group_follows_its_trace()
    ensures trace { (t : GroupTerms) (inputs : Role → List ℕ) (f : Format)
        → IsParams t.params → 1 ≤ t.receivers → t.receivers ≤ 3 → head_of (inputs Video) ≡ Ok f
        → GroupFollowsItsTrace (record t.params { format = f }) t.receivers inputs (group_call_run t inputs) }
    ensures no_head { (t : GroupTerms) (inputs : Role → List ℕ) (fault : Y4mFault)
        → head_of (inputs Video) ≡ Err fault
        → group_call_run t inputs
        ≡ record { turns = []; last = video_refusal Video no_bytes (VideoRefused fault) } }
{
    refusals::<Framed, Styled, Mb, Pictured, Fault, MessageFault>();
    message_laws();
    newest_of_all::<Framed, Styled, Mb, Pictured, MessageFault>();
    viewers_follow();
    viewers_are_heard();
    what_arrived_is_shown();
    line_laws();
    frame_by_frame();
}

/// What a turn rests on: how its reads and writes add up (`turns`, `steps`), a fault that rose
/// stays (`rose`), what is left of the video (`video`) and of the trace (`lines`).
pub fn turning()
    ensures turns { TurnLaws }
    ensures steps { StepLaws }
    ensures rose { (a b c : ℕ) → a ≤ b → Rose b c → Rose a c }
    ensures video { VideoLaws }
    ensures lines { LineLaws }
{
    turn_laws();
    step_laws();
    calls();
    video_laws();
    line_laws();
}

/// A video that is refused has that fault, and no earlier one.
pub fn refused_videos()
    ensures { (t : GroupTerms) (inputs : Role → List ℕ) (fault : Y4mFault)
        → (group_call_run t inputs).last.status ≡ VideoRefused fault
        → video_fault (inputs Video) ≡ Some fault }
{
    frame_by_frame();
}

/// There is no second video that could be refused.
pub fn no_second_video()
    ensures { (t : GroupTerms) (inputs : Role → List ℕ) (fault : Y4mFault)
        → (group_call_run t inputs).last.status ≡ Video2Refused fault → ⊥ }
{}

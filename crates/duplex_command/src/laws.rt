//! What a call of two parties rests on. Each law is the contract of a function that does nothing
//! else.
ghost use Rattle.std.specs.Prelude.{◌≡◌, ◌≤◌, ℕ, List, Some, Ok, Err};
ghost use Rattle.h263_outside.specs.Desk.{Rose};
ghost use Rattle.h263_outside.specs.declared.desk.Role.{Role};
ghost use Rattle.h263_outside.specs.declared.desk.Role.TheVariants.{Video, Video2};
ghost use Rattle.y4m.specs.declared.fault.Y4mFault.{Y4mFault};
ghost use Rattle.y4m.specs.Head.{head_of, head_size};
ghost use Rattle.y4m.specs.Video.{video_fault};
ghost use Rattle.call_report.specs.declared.status.Status.TheVariants.{VideoRefused, Video2Refused};
ghost use Rattle.desk_program.specs.Laws.{StepLaws, TurnLaws};
ghost use Rattle.call_command.specs.Laws.{LineLaws, VideoLaws};
ghost use Rattle.duplex_call.specs.declared.line.Party.{Party};
ghost use Rattle.duplex_call.specs.Duplex.{AllMayHappenOf, Lettered, way, ways_after};
ghost use Rattle.duplex_call.specs.FourStores.{PartyEndsFollow};
ghost use Rattle.duplex_call.specs.Refused.{NoneWhereItMayHappenOf};
ghost use Rattle.duplex_ends.specs.Ways.{sides};
ghost use Rattle.duplex_command.specs.Begin.{duplex_run, in_formats};
ghost use Rattle.duplex_command.specs.Recorded.{BothFollowTheirTrace, IsRefusedAtOnce};
ghost use Rattle.h263_types.specs.declared.format.Format.{Format};
ghost use Rattle.h263_planes.specs.Picture.{Picture};
ghost use Rattle.h263_types.specs.declared.params.Params.{Params};
ghost use Rattle.h263_types.specs.Params.{IsParams};

use back_messages::MessageFault;
use call_command::laws::{frames_left, line_laws, video_laws, what_arrived_is_shown};
use call_decoding::laws::are_rules;
use call_decoding::{Pictured, Styled};
use call_encoding::Framed;
use call_model::laws::{frames_by_events, later_frames};
use coded_call::laws::is_coding;
use desk_program::laws::{step_laws, turn_laws};
use duplex_call::laws::{each_way_is_near, four_stores as four_stores_of, two_way_refusals};
use h263_bits::Fault;
use h263_outside::laws::calls;
use h263_types::Mb;
use y4m::laws::frame_by_frame;

/// Over a recorded trace, whatever bytes the trace and both videos are made of, a call of two
/// parties accepts the first lines of the trace, and is the two ideal calls of both videos over
/// their events: these are in place and near; what is written of each party's pictures is the head
/// and then what its plays showed, with a line for each in the order of the plays; of each party a
/// picture is marked exact where all its packets were delivered while it was open, and nowhere
/// else; and where the run ends with `Ok` the counts are those of both calls. It ends because of
/// the line after them, or because there is none; where it refuses a video, that turn takes nothing
/// of the other one (`trace`). Where one of the videos has no head nothing is written: of the
/// second nothing is taken where the first has none, and of the first its head where the second has
/// none (`no_first_head`, `no_second_head`).
pub fn both_follow_their_trace()
    ensures trace { (p : Params) (inputs : Role → List ℕ) (f g : Format)
        → head_of (inputs Video) ≡ Ok f → head_of (inputs Video2) ≡ Ok g
        → BothFollowTheirTrace (in_formats p f g) inputs (duplex_run p inputs) }
    ensures no_first_head { (p : Params) (inputs : Role → List ℕ) (fault : Y4mFault)
        → head_of (inputs Video) ≡ Err fault
        → IsRefusedAtOnce (VideoRefused fault) Video2 0 (duplex_run p inputs) }
    ensures no_second_head { (p : Params) (inputs : Role → List ℕ) (f : Format)
        (fault : Y4mFault) → head_of (inputs Video) ≡ Ok f → head_of (inputs Video2) ≡ Err fault
        → IsRefusedAtOnce (Video2Refused fault) Video (head_size (inputs Video))
        (duplex_run p inputs) }
{
    refused_exactly();
    later_frames::<Framed, Styled, Mb, Pictured, Fault, MessageFault>();
    frames_by_events::<Framed, Styled, Mb, Pictured, Fault, MessageFault>();
    each_way_is_near::<Pictured, Framed, Styled, Mb, Pictured, Fault, MessageFault>();
    what_arrived_is_shown();
    frames_left();
    line_laws();
    frame_by_frame();
}

/// An event of a party has no refusal exactly where it may happen.
pub fn refused_exactly()
    ensures { (p : Party → Params) → NoneWhereItMayHappenOf (sides p) }
{
    two_way_refusals::<Pictured, Framed, Styled, Mb, Pictured, Fault, MessageFault>();
}

/// What a turn rests on: how its reads and writes add up (`turns`, `steps`), a fault that rose
/// stays (`rose`), what is left of the video (`video`) and of the trace (`lines`), and which events
/// are refused (`refused`).
pub fn turning()
    ensures turns { TurnLaws }
    ensures steps { StepLaws }
    ensures rose { (a b c : ℕ) → a ≤ b → Rose b c → Rose a c }
    ensures video { VideoLaws }
    ensures lines { LineLaws }
    ensures refused { (p : Party → Params) → NoneWhereItMayHappenOf (sides p) }
{
    turn_laws();
    step_laws();
    calls();
    video_laws();
    line_laws();
    refused_exactly();
}

/// A video that is refused has that fault, and no earlier one: that of the first party (`first`),
/// and that of the second (`second`).
pub fn refused_videos()
    ensures first { (p : Params) (inputs : Role → List ℕ) (fault : Y4mFault)
        → (duplex_run p inputs).last.status ≡ VideoRefused fault
        → video_fault (inputs Video) ≡ Some fault }
    ensures second { (p : Params) (inputs : Role → List ℕ) (fault : Y4mFault)
        → (duplex_run p inputs).last.status ≡ Video2Refused fault
        → video_fault (inputs Video2) ≡ Some fault }
{
    frame_by_frame();
}

/// Where each event of either party may happen, the four ends do what the two ideal calls say. Of
/// each party's pictures both stores agree with its call: each reference, reconstruction, message
/// and known number is the ideal call's, and each play shows its picture with its mark.
pub fn four_stores()
    ensures { (p : Party → Params) (captures : Party → List Picture) (past : List Lettered)
        → ((x : Party) → IsParams (p x)) → AllMayHappenOf (sides p) captures past
        → (x : Party) → PartyEndsFollow (sides p) x (way x (ways_after (sides p) captures past)) }
{
    is_coding();
    are_rules();
    four_stores_of::<Pictured, Framed, Styled, Mb, Pictured, Fault, MessageFault>();
}

//! What a run of the command comes to. Each law is the contract of a function that does nothing
//! else.
ghost use Rattle.std.specs.Prelude.{◌≡◌, ℕ, List, [], Some, Ok, Err};
ghost use Rattle.h263_types.specs.declared.format.Format.{Format};
ghost use Rattle.h263_outside.specs.declared.desk.Role.{Role};
ghost use Rattle.h263_outside.specs.declared.desk.Role.TheVariants.{Video};
ghost use Rattle.y4m.specs.declared.fault.Y4mFault.{Y4mFault};
ghost use Rattle.y4m.specs.Head.{head_of};
ghost use Rattle.y4m.specs.Video.{video_fault};
ghost use Rattle.call_report.specs.declared.status.Status.TheVariants.{VideoRefused, Video2Refused};
ghost use Rattle.desk_program.specs.Run.{run_from};
ghost use Rattle.send_command.specs.declared.sending.Sending.{Sending};
ghost use Rattle.send_command.specs.Followed.{SendsItsLog};
ghost use Rattle.send_command.specs.Send.{refused_sender_video, send_begin, send_step};
ghost use Rattle.fitted_sender.specs.Aiming.{PlainIsSenderRun};
ghost use Rattle.send_command.specs.Aimed.{aim_at_start};

use event_logs::laws::exact_entries;
use fitted_sender::laws as fitted_laws;
use y4m::laws::frame_by_frame;

/// A video that is refused has that fault, and no earlier one.
pub fn refused_videos()
    ensures { (setup : Sending) (inputs : Role → List ℕ) (fault : Y4mFault)
        → (run_from (send_begin setup inputs) send_step 16777216 inputs).last.status
        ≡ VideoRefused fault → video_fault (inputs Video) ≡ Some fault }
{
    frame_by_frame();
}

/// There is no second video that could be refused.
pub fn no_second_video()
    ensures { (setup : Sending) (inputs : Role → List ℕ) (fault : Y4mFault)
        → (run_from (send_begin setup inputs) send_step 16777216 inputs).last.status
        ≡ Video2Refused fault → ⊥ }
{}

/// Where pictures fit no size, the sender's run is that of its entries, with one target for all of
/// them or with none.
pub fn one_target()
    ensures { PlainIsSenderRun }
{
    fitted_laws::one_target();
}

/// Whatever bytes its log and its video are made of, a sender accepts the first entries of the log.
/// Each capture takes the next frame of the video, and over these frames and the log's feedback it
/// sends and counts what the sender's run does. It ends where the log is at its end or has its first
/// fault, or at the capture for which no frame is left: since the video is at its end, or because of
/// the video's fault (`log`). Of a video without a head it sends nothing (`no_head`).
pub fn send_follows_its_log()
    ensures log { (setup : Sending) (inputs : Role → List ℕ) (f : Format)
        → head_of (inputs Video) ≡ Ok f
        → SendsItsLog (record setup.params { format = f }) (aim_at_start setup f) inputs
        (run_from (send_begin setup inputs) send_step 16777216 inputs) }
    ensures no_head { (setup : Sending) (inputs : Role → List ℕ) (fault : Y4mFault)
        → head_of (inputs Video) ≡ Err fault
        → run_from (send_begin setup inputs) send_step 16777216 inputs
        ≡ record { turns = []; last = refused_sender_video 0 fault } }
{
    exact_entries();
    frame_by_frame();
}

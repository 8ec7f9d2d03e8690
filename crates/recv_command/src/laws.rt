//! What a run of a command comes to. Each law is the contract of a function that does nothing else.
ghost use Rattle.std.specs.Prelude.{◌≡◌, ℕ, List};
ghost use Rattle.h263_types.specs.declared.params.Params.{Params};
ghost use Rattle.h263_outside.specs.declared.desk.Role.{Role};
ghost use Rattle.y4m.specs.declared.fault.Y4mFault.{Y4mFault};
ghost use Rattle.call_report.specs.declared.status.Status.TheVariants.{VideoRefused, Video2Refused};
ghost use Rattle.desk_program.specs.Run.{run_from};
ghost use Rattle.call_model.specs.Receiving.{ReceiverEntry};
ghost use Rattle.recv_command.specs.Followed.{JoinsItsLog, ReceivesItsLog};
ghost use Rattle.recv_command.specs.Join.{join_begin, join_step, joined_state, through};
ghost use Rattle.recv_command.specs.Recv.{recv_begin, recv_step};

use crate::{Joining, Receiving};
use log_command::laws::{a_run_follows_its_log, no_video_refused as none_over_a_log};

/// There is no video that could be refused, nor a second one.
pub fn no_video_refused()
    ensures first { (p : Params) (inputs : Role → List ℕ) (fault : Y4mFault)
        → (run_from (recv_begin p inputs) recv_step 16777216 inputs).last.status
        ≡ VideoRefused fault → ⊥ }
    ensures second { (p : Params) (inputs : Role → List ℕ) (fault : Y4mFault)
        → (run_from (recv_begin p inputs) recv_step 16777216 inputs).last.status
        ≡ Video2Refused fault → ⊥ }
{
    none_over_a_log::<Receiving>()
}

/// Nor is there one with a joiner.
pub fn no_joined_video_refused()
    ensures first { (p : Params) (inputs : Role → List ℕ) (fault : Y4mFault)
        → (run_from (join_begin p inputs) join_step 16777216 inputs).last.status
        ≡ VideoRefused fault → ⊥ }
    ensures second { (p : Params) (inputs : Role → List ℕ) (fault : Y4mFault)
        → (run_from (join_begin p inputs) join_step 16777216 inputs).last.status
        ≡ Video2Refused fault → ⊥ }
{
    none_over_a_log::<Joining>()
}

/// With a joiner the receiver's run is that over the join run of the log's packets, with the plays
/// in their places.
pub fn delivers_what_is_joined()
    ensures { (p : Params) (past : List ReceiverEntry)
        → (joined_state p past).receiver.past ≡ through p.format past }
{}

/// Whatever bytes its log is made of, a receiver accepts the first entries of the log, and is the
/// receiver's run over them: it shows, says and counts what that run does, packet by packet and play
/// by play, and tells the counts where it ends with `Ok`. It ends where the log is at its end or has
/// its first fault, or at the play that is one too many.
pub fn recv_follows_its_log()
    ensures { (p : Params) (inputs : Role → List ℕ) → ReceivesItsLog p inputs
        (run_from (recv_begin p inputs) recv_step 16777216 inputs) }
{
    a_run_follows_its_log::<Receiving>();
}

/// With a joiner it is the receiver's run over what the joiner gives of the log's packets, with the
/// plays in their places, and tells the joiner's counts too.
pub fn joined_recv_follows_its_log()
    ensures { (p : Params) (inputs : Role → List ℕ) → JoinsItsLog p inputs
        (run_from (join_begin p inputs) join_step 16777216 inputs) }
{
    a_run_follows_its_log::<Joining>();
}

//! What a run over a log comes to. Each law is the contract of a function that does nothing else.
ghost use Rattle.std.specs.Prelude.{◌≡◌, ℕ, List};
ghost use Rattle.h263_outside.specs.declared.desk.Role.{Role};
ghost use Rattle.y4m.specs.declared.fault.Y4mFault.{Y4mFault};
ghost use Rattle.call_report.specs.declared.status.Status.TheVariants.{VideoRefused, Video2Refused};
ghost use Rattle.log_command.specs.Followed.{FollowsItsLog};
ghost use Rattle.log_command.specs.Log.{log_run};

use crate::LogCommand;

/// There is no video that could be refused, nor a second one.
pub fn no_video_refused<C: LogCommand>()
    ensures first { (setup : C.Setup) (inputs : Role → List ℕ) (fault : Y4mFault)
        → (log_run C.rules (C.first setup) (C.head setup) inputs).last.status
        ≡ VideoRefused fault → ⊥ }
    ensures second { (setup : C.Setup) (inputs : Role → List ℕ) (fault : Y4mFault)
        → (log_run C.rules (C.first setup) (C.head setup) inputs).last.status
        ≡ Video2Refused fault → ⊥ }
{}

/// Whatever bytes a log is made of, a run over it accepts the first entries of the log. It takes one
/// in a turn, and what it keeps in mind and writes is what the command's rules make of them, one
/// after the other, in the order of the log. It ends where the log is at its end or has its first
/// fault, or at the entry that is one play too many.
pub fn a_run_follows_its_log<C: LogCommand>()
    ensures { (setup : C.Setup) (inputs : Role → List ℕ)
        → FollowsItsLog C.rules (C.first setup) (C.head setup) inputs
        (log_run C.rules (C.first setup) (C.head setup) inputs) }
{}

//! What a run of the command comes to. Each law is the contract of a function that does nothing else.
ghost use Rattle.std.specs.Prelude.{◌≡◌, ℕ, List};
ghost use Rattle.h263_types.specs.declared.params.Params.{Params};
ghost use Rattle.h263_outside.specs.declared.desk.Role.{Role};
ghost use Rattle.y4m.specs.declared.fault.Y4mFault.{Y4mFault};
ghost use Rattle.call_report.specs.declared.status.Status.TheVariants.{VideoRefused, Video2Refused};
ghost use Rattle.desk_program.specs.Run.{run_from};
ghost use Rattle.audit_command.specs.Audit.{audit_begin, audit_step};
ghost use Rattle.audit_command.specs.Followed.{AuditsItsLog};

use crate::Auditing;
use log_command::laws::{a_run_follows_its_log, no_video_refused as none_over_a_log};
use stream_audit::laws::lines_tell_verdicts;

/// There is no video that could be refused, nor a second one.
pub fn no_video_refused()
    ensures first { (p : Params) (inputs : Role → List ℕ) (fault : Y4mFault)
        → (run_from (audit_begin p inputs) audit_step 16777216 inputs).last.status
        ≡ VideoRefused fault → ⊥ }
    ensures second { (p : Params) (inputs : Role → List ℕ) (fault : Y4mFault)
        → (run_from (audit_begin p inputs) audit_step 16777216 inputs).last.status
        ≡ Video2Refused fault → ⊥ }
{
    none_over_a_log::<Auditing>()
}

/// Whatever bytes its log is made of, an audit reads all its entries, up to the first fault. Of a log
/// without a fault the report is the line of the verdict on its entries, and of any other it has no
/// line. So where a report says yes, the verdict on the log's entries is yes, and where it says no,
/// this is the first rule that they break.
pub fn audit_follows_its_log()
    ensures { (p : Params) (inputs : Role → List ℕ) → AuditsItsLog p inputs
        (run_from (audit_begin p inputs) audit_step 16777216 inputs) }
{
    a_run_follows_its_log::<Auditing>();
    lines_tell_verdicts();
}

//! What a run of the command comes to. Each law is the contract of a function that does nothing else.
ghost use Rattle.std.specs.Prelude.{◌≡◌, ℕ, List};
ghost use Rattle.h263_outside.specs.declared.desk.Role.{Role};
ghost use Rattle.y4m.specs.declared.fault.Y4mFault.{Y4mFault};
ghost use Rattle.call_report.specs.declared.status.Status.TheVariants.{VideoRefused, Video2Refused};
ghost use Rattle.desk_program.specs.Run.{run_from};
ghost use Rattle.rate_command.specs.declared.rate.Bucket.{Bucket};
ghost use Rattle.rate_command.specs.Followed.{MeasuresItsLog};
ghost use Rattle.rate_command.specs.Rate.{rate_begin, rate_step};

use crate::Metering;
use log_command::laws::{a_run_follows_its_log, no_video_refused as none_over_a_log};

/// There is no video that could be refused, nor a second one.
pub fn no_video_refused()
    ensures first { (b : Bucket) (inputs : Role → List ℕ) (fault : Y4mFault)
        → (run_from (rate_begin b inputs) rate_step 16777216 inputs).last.status
        ≡ VideoRefused fault → ⊥ }
    ensures second { (b : Bucket) (inputs : Role → List ℕ) (fault : Y4mFault)
        → (run_from (rate_begin b inputs) rate_step 16777216 inputs).last.status
        ≡ Video2Refused fault → ⊥ }
{
    none_over_a_log::<Metering>()
}

/// Whatever bytes its log is made of, the meter accepts the first entries of the log: its report has
/// the answers to their packets, one after the other, and where it ends with `Ok` what there is to
/// say of all these packets. It ends where the log is at its end or has its first fault, or at the
/// play that is one too many.
pub fn rate_follows_its_log()
    ensures { (b : Bucket) (inputs : Role → List ℕ) → MeasuresItsLog b inputs
        (run_from (rate_begin b inputs) rate_step 16777216 inputs) }
{
    a_run_follows_its_log::<Metering>();
}

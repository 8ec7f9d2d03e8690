//! The lines of the report.
ghost use Rattle.std.specs.Prelude.{◌≡◌, ℕ, true, OnOk, OnErr, IfErr};
ghost use Rattle.h263_outside.specs.Desk.{OnlyWrites, Rose};
ghost use Rattle.h263_outside.specs.declared.desk.Role.TheVariants.{Report};
ghost use Rattle.desk_program.specs.Ends.{Gains, GainsFronts};
ghost use Rattle.rate_control.specs.Text.{meter_text};
ghost use Rattle.rate_command.specs.Rate.{answer_text, last_text};
ghost use Rattle.desk_program.specs.Texts.{on};

use call_report::Status;
use desk_program::{laws as desk_program_laws, put};
use h263_outside::{Desk, Role};
use rate_control::{Metered, Text, picture_text};

/// Writes a line of the report.
pub fn put_text<D: Desk>(desk: &mut D, text: &Text) -> Result<(), Status>
    requires { (D.outside desk.old).attached Report ≡ true }
    ensures ok { OnOk result (Gains (on Report (meter_text text.now)) (D.outside desk.old).written
        (D.outside desk.new).written) }
    ensures err { OnErr result (GainsFronts (on Report (meter_text text.now))
        (D.outside desk.old).written (D.outside desk.new).written) }
    ensures kind { IfErr result (λ status. status ≡ Status.WriteFault) }
    ensures cause { OnErr result (Rose (D.outside desk.old).faults.write
        (D.outside desk.new).faults.write) }
    ensures rest { OnlyWrites (D.outside desk.old) (D.outside desk.new) }
{
    put(desk, Role::Report, text.text())
}

/// Writes the line of the picture that ended, if one did.
pub fn tell<D: Desk>(desk: &mut D, metered: Metered) -> Result<(), Status>
    requires { (D.outside desk.old).attached Report ≡ true }
    ensures ok { OnOk result (Gains (answer_text metered) (D.outside desk.old).written
        (D.outside desk.new).written) }
    ensures err { OnErr result (GainsFronts (answer_text metered) (D.outside desk.old).written
        (D.outside desk.new).written) }
    ensures kind { IfErr result (λ status. status ≡ Status.WriteFault) }
    ensures cause { OnErr result (Rose (D.outside desk.old).faults.write
        (D.outside desk.new).faults.write) }
    ensures rest { OnlyWrites (D.outside desk.old) (D.outside desk.new) }
{
    desk_program_laws::turn_laws();
    match metered {
        Metered::Ended {
            number,
            size,
            level,
        } => put_text(desk, &picture_text(number, size, level)),
        Metered::Same => Ok(()),
        Metered::Refused(_) => Ok(()),
    }
}

/// Writes the line of the last picture, if there is one.
pub fn tell_last<D: Desk>(desk: &mut D, last: Option<(u32, u64, u64)>) -> Result<(), Status>
    requires { (D.outside desk.old).attached Report ≡ true }
    ensures ok { OnOk result (Gains (last_text last) (D.outside desk.old).written
        (D.outside desk.new).written) }
    ensures err { OnErr result (GainsFronts (last_text last) (D.outside desk.old).written
        (D.outside desk.new).written) }
    ensures kind { IfErr result (λ status. status ≡ Status.WriteFault) }
    ensures cause { OnErr result (Rose (D.outside desk.old).faults.write
        (D.outside desk.new).faults.write) }
    ensures rest { OnlyWrites (D.outside desk.old) (D.outside desk.new) }
{
    desk_program_laws::turn_laws();
    match last {
        Some((number, size, level)) => put_text(desk, &picture_text(number, size, level)),
        None => Ok(()),
    }
}

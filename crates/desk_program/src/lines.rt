//! The last line of a run.
ghost use Rattle.std.specs.Prelude.{◌≡◌, true};
ghost use Rattle.h263_outside.specs.Desk.{OnlyWrites};
ghost use Rattle.h263_outside.specs.declared.desk.Role.TheVariants.{Report};
ghost use Rattle.desk_program.specs.Lines.{Finishes};

use call_report::{Status, refusal_line};
use h263_outside::{Desk, Failed, Role, write_all};

/// Ends a run with a status: its line is the last one of the report, and then all outputs are to
/// have come to their places. Where one of the two fails, the run ends with `WriteFault` in its
/// place.
pub fn finish<D: Desk>(desk: &mut D, status: Status) -> Status
    requires { (D.outside desk.old).attached Report ≡ true }
    ensures told { Finishes status result (D.outside desk.old) (D.outside desk.new) }
    ensures rest { OnlyWrites (D.outside desk.old) (D.outside desk.new) }
{
    match write_all(desk, Role::Report, refusal_line(&status).text()) {
        Ok(()) => {}
        Err(Failed) => return Status::WriteFault,
    }
    match desk.flush() {
        Ok(()) => status,
        Err(Failed) => Status::WriteFault,
    }
}

//! The loop of every command: turns until one of them ends it.
ghost use Rattle.std.specs.Prelude.{ℕ, List, Option};
ghost use Rattle.h263_outside.specs.declared.desk.Role.{Role};
ghost use Rattle.desk_program.specs.Run.{Run, machine_run};
ghost use Rattle.desk_program.specs.Ends.{HasEnded, silent, HasCause, IsLater, IsNotStarved, IsReadOut, AfterAll, KeepsRoles};
ghost use Rattle.desk_program.specs.UnderWay.{IsUnderWay, EndsIn, LeftIn};

use crate::Turns;
use call_report::Status;
use h263_outside::Desk;

/// Takes one event after another, up to the end of a run that is under way.
pub fn take_turns<D: Desk, M: Turns>(desk: &mut D, machine: &mut M) -> Status
    requires { M.ready machine.old (D.outside desk.old).attached }
    ensures gives { (run : Run) (inputs : Role → List ℕ) (start : Role → Option (List ℕ))
        → IsUnderWay M.step M.reads run inputs start (M.stands machine.old) (M.more machine.old)
        (D.outside desk.old) → HasEnded run silent result inputs start (D.outside desk.new) }
    ensures whole_input { (run : Run) (inputs : Role → List ℕ) (start : Role → Option (List ℕ))
        → IsUnderWay M.step M.reads run inputs start (M.stands machine.old) (M.more machine.old)
        (D.outside desk.old) → IsReadOut result (M.reading machine.old) (D.outside desk.new) }
    ensures leaves { (final : M.State) → EndsIn M.step final (M.stands machine.old)
        (M.more machine.old) (D.outside desk.old)
        → AfterAll result (LeftIn M.stands M.leaves final machine.new) }
    ensures stays { (first : M) → M.stays first machine.old → M.stays first machine.new }
    ensures answers { (first : M) → M.stays first machine.old → M.answers first result }
    ensures later { IsLater result }
    ensures fed { IsNotStarved result }
    ensures cause { HasCause result (D.outside desk.old).faults (D.outside desk.new).faults }
    ensures rest { KeepsRoles (D.outside desk.old) (D.outside desk.new) }
{
    loop {
        match machine.turn(desk) {
            Ok(true) => {}
            Ok(false) => return Status::Ok,
            Err(status) => return status,
        }
    }
}

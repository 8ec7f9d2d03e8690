//! A command from its roles to its last line.
ghost use Rattle.std.specs.Prelude.{◌∷◌, [], ℕ, List, false, true, IsTrue};
ghost use Rattle.h263_outside.specs.Desk.{Outside, with_role};
ghost use Rattle.h263_outside.specs.declared.desk.Role.{Role};
ghost use Rattle.h263_outside.specs.declared.desk.Role.TheVariants.{Report};
ghost use Rattle.desk_program.specs.Ends.{Tells, HasCause, IsReadOut};
ghost use Rattle.desk_program.specs.Attached.{AreAttached, AttachedAt, are_free, names};
ghost use Rattle.desk_program.specs.Lines.{end_text};
ghost use Rattle.desk_program.specs.Promises.{IsSettled, IsStopped, IsUnopened, IsNotUsage};
ghost use Rattle.desk_program.specs.Promises.{HasStatus, HasTexts, HasPrefixes, TakesInput};
ghost use Rattle.desk_program.specs.Promises.{IsFlushed, ReadsNothing};

use crate::{Acts, attach_all, finish};
use call_report::Status;
use h263_outside::{Desk, Role, laws as outside_laws};
use std::alloc::Global;

/// Runs a command over a desk on which the report alone is attached: attaches its roles in their
/// order, lets it act, and writes the last line.
pub fn perform<D: Desk, A: Acts>(
    alloc: Global,
    setup: &A::Setup,
    order: &[(Role, &str)],
    desk: &mut D,
) -> Status
    requires report { AreAttached ((Report, []) ∷ []) (D.outside desk.old) }
    requires free { IsTrue (are_free (with_role (λ _. false) Report true) (names order.now)) }
    requires opens { (now : Outside) → AreAttached ((Report, []) ∷ names order.now) now
        → A.opens setup.now now.attached }

    // With no fault of the desk the status is that of the run, or want of memory.
    ensures status { (inputs : Role → List ℕ) → Tells (D.outside desk.old) inputs →
        HasStatus (A.run setup.now inputs) result (D.outside desk.old).faults
        (D.outside desk.new).faults }

    // After `Ok` and a refusal the status is that one, and exactly its texts were written.
    ensures texts { (inputs : Role → List ℕ) → Tells (D.outside desk.old) inputs
        → IsSettled result →
        HasTexts (A.run setup.now inputs) (end_text) result (D.outside desk.old).written
        (D.outside desk.new).written }

    // After `OutOfMemory`, `ReadFault` and `WriteFault` the texts of some first turns were written,
    // the same on each output, and after a failed write a prefix of what comes next.
    ensures prefixes { (inputs : Role → List ℕ) → Tells (D.outside desk.old) inputs
        → IsStopped result →
        HasPrefixes (A.run setup.now inputs) (end_text) result (D.outside desk.old).written
        (D.outside desk.new).written }

    // It never answers `Usage`. Where a role could not be attached, its line alone was written, and
    // nothing was read.
    ensures words { IsNotUsage result }
    ensures unopened { IsUnopened result
        → ReadsNothing result (D.outside desk.old) (D.outside desk.new) }

    // Unless a write failed, all that was written was then seen to have come to its place.
    ensures flushed { IsFlushed result (D.outside desk.new) }

    // Each fault has its cause, want of memory comes with no fault of the desk, and the first roles
    // of the order are attached by their names, whatever the desk tells.
    ensures causes { HasCause result (D.outside desk.old).faults (D.outside desk.new).faults }
    ensures attached { AttachedAt ((Report, []) ∷ names order.now) result (D.outside desk.new) }

    // `Ok` says that the input was read to its end.
    ensures whole_input { (inputs : Role → List ℕ) → Tells (D.outside desk.old) inputs
        → IsReadOut result (A.source setup.now) (D.outside desk.new) }

    // Just what the run takes is gone; after `ReadFault` the outputs are those of what was taken
    // whole.
    ensures taken_input { (inputs : Role → List ℕ) → Tells (D.outside desk.old) inputs →
        TakesInput result (A.run setup.now inputs) (end_text) inputs (D.outside desk.old).written
        (D.outside desk.new) }
{
    outside_laws::calls();
    if let Err(status) = attach_all(desk, order) {
        return finish(desk, status);
    }
    let status = A::act(alloc, setup, desk);
    finish(desk, status)
}

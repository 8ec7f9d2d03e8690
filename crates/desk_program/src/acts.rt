//! What a command does between its roles and its last line.
ghost use Rattle.std.specs.Prelude.{ℕ, Bool, List, Option};
ghost use Rattle.h263_outside.specs.declared.desk.Role.{Role};
ghost use Rattle.desk_program.specs.Run.{Run};
ghost use Rattle.desk_program.specs.Ends.{HasCause, HasEnded, IsLater, IsReadOut, KeepsRoles};
ghost use Rattle.desk_program.specs.Ends.{Tells, silent};

use crate::{Begins, take_turns};
use call_report::Status;
use h263_outside::Desk;
use std::alloc::Global;

/// A command whose roles are attached. A machine that begins by itself acts by its turns; a
/// command whose machine is made of lent parts says how it acts.
pub trait Acts {
    /// What the words ask for.
    type Setup;

    /// What it makes of its inputs, turn by turn.
    ghost run: { Self.Setup → (Role → List ℕ) → Run };

    /// It can act with these roles attached.
    ghost opens: { Self.Setup → (Role → Bool) → Type 0 };

    /// The input whose end is the end of the run, if there is one.
    ghost source: { Self.Setup → Option Role };

    /// Runs from its start to its end.
    fn act<D: Desk>(alloc: Global, setup: &Self::Setup, desk: &mut D) -> Status
        requires { opens setup.now (D.outside desk.old).attached }
        ensures gives { (inputs : Role → List ℕ) → Tells (D.outside desk.old) inputs
            → HasEnded (run setup.now inputs) silent result inputs
            (D.outside desk.old).written (D.outside desk.new) }
        ensures whole_input { (inputs : Role → List ℕ) → Tells (D.outside desk.old) inputs
            → IsReadOut result (source setup.now) (D.outside desk.new) }
        ensures later { IsLater result }
        ensures cause { HasCause result (D.outside desk.old).faults (D.outside desk.new).faults }
        ensures rest { KeepsRoles (D.outside desk.old) (D.outside desk.new) };
}

impl<B: Begins> Acts for B {
    type Setup = B::Setup;

    ghost run = { B.run };

    ghost opens = { B.opens };

    ghost source = { B.source };

    fn act<D: Desk>(alloc: Global, setup: &B::Setup, desk: &mut D) -> Status {
        match B::start(alloc, setup, desk) {
            Ok(mut machine) => {
                let status = take_turns(desk, &mut machine);
                B::finish(machine);
                status
            }
            Err(status) => status,
        }
    }
}

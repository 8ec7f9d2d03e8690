//! How a machine begins.
ghost use Rattle.std.specs.Prelude.{◌≡◌, ℕ, Bool, List, Option, IfOk, IfErr};
ghost use Rattle.h263_outside.specs.declared.desk.Role.{Role};
ghost use Rattle.desk_program.specs.Run.{Run};
ghost use Rattle.desk_program.specs.Ends.{HasCause, HasEnded, IsUnstarted, KeepsRoles, Tells, silent};
ghost use Rattle.desk_program.specs.Ends.{start_status};
ghost use Rattle.desk_program.specs.UnderWay.{IsUnderWay};

use crate::Turns;
use call_report::Status;
use h263_outside::Desk;
use std::alloc::Global;

/// A command that starts a machine of its own by what the words ask for, lets it take its turns,
/// and finishes it. It [`Acts`](crate::Acts) so; nothing else of such a command has to be proved.
pub trait Begins {
    /// What the words ask for.
    type Setup;

    /// What it starts.
    type Machine: Turns;

    /// What it makes of its inputs, turn by turn.
    ghost run: { Self.Setup → (Role → List ℕ) → Run };

    /// It can begin with these roles attached.
    ghost opens: { Self.Setup → (Role → Bool) → Type 0 };

    /// The input whose end is the end of the run, if there is one.
    ghost source: { Self.Setup → Option Role };

    /// Takes all the memory that the machine needs, and does what comes before the first event.
    /// Its run is under way then, or has ended.
    fn start<D: Desk>(
        alloc: Global,
        setup: &Self::Setup,
        desk: &mut D,
    ) -> Result<Self::Machine, Status>
        requires { opens setup.now (D.outside desk.old).attached }
        ensures goes { (inputs : Role → List ℕ) → Tells (D.outside desk.old) inputs
            → IfOk result (λ machine. IsUnderWay Self.Machine.step Self.Machine.reads
            (run setup.now inputs) inputs (D.outside desk.old).written
            (Self.Machine.stands machine) (Self.Machine.more machine) (D.outside desk.new)) }
        ensures ends { (inputs : Role → List ℕ) → Tells (D.outside desk.old) inputs
            → IfErr result (λ status. HasEnded (run setup.now inputs) silent status inputs
            (D.outside desk.old).written (D.outside desk.new)) }
        ensures ready { IfOk result (λ machine.
            Self.Machine.ready machine (D.outside desk.new).attached) }
        ensures source { IfOk result (λ machine.
            Self.Machine.reading machine ≡ source setup.now) }
        ensures stop { IfErr result IsUnstarted }
        ensures cause { HasCause
            (start_status result) (D.outside desk.old).faults (D.outside desk.new).faults }
        ensures rest { KeepsRoles (D.outside desk.old) (D.outside desk.new) };

    /// Gives back what the machine holds.
    fn finish(machine: Self::Machine);
}

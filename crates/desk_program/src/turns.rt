//! A machine that takes one event after another.
ghost use Rattle.std.specs.Prelude.{◌≡◌, ℕ, Bool, true, List, Option, IfErr, IfSome, Some, []};
ghost use Rattle.h263_outside.specs.declared.desk.Role.{Role};
ghost use Rattle.call_report.specs.declared.status.Status.{Status};
ghost use Rattle.desk_program.specs.Run.{Step};
ghost use Rattle.desk_program.specs.Ends.{Tells, TurnGives, Falls, OnGoing, OnEnd, OnSettled, turn_status, HasCause, IsStop, KeepsRoles};

use call_report::Status;
use h263_outside::Desk;

/// A machine under way: one call takes one event.
///
/// Its meaning is `step`: of a state and of what is left of each input it says what comes next;
/// `turn` does that over any desk. How a machine comes about is [`Begins`](crate::Begins); one
/// that is made of lent parts is just handed to [`take_turns`](crate::take_turns).
pub trait Turns {
    /// What the machine keeps in mind, in the subject's words.
    ghost State: { Type 0 };

    /// What it is to do next, over what is left of each input.
    ghost step: { Self.State → (Role → List ℕ) → Step Self.State };

    /// Whether it may still read.
    ghost reads: { Self.State → Bool };

    /// The machine keeps this in mind, and this much is left of each input.
    ghost stands: { Self → Self.State → (Role → List ℕ) → Type 0 };

    /// How many events may still come.
    ghost more: { Self → ℕ };

    /// It can go on with these roles attached.
    ghost ready: { Self → (Role → Bool) → Type 0 };

    /// The input whose end is the end of the run, if there is one.
    ghost reading: { Self → Option Role };

    /// What stays, from the first turn on, of a machine that holds what others have lent to it. A
    /// machine that owns its parts says nothing here.
    ghost stays: { Self → Self → Type 0 } = { λ first now. Unit {0} };

    /// What such a machine leaves to them where it comes to its end or refuses, by what it was
    /// before that turn.
    ghost leaves: { Self → Self → Type 0 } = { λ last now. Unit {0} };

    /// With which statuses a run can end, by what the machine was at first. A machine all of whose
    /// inputs are told to it says it by its `step`, and nothing here.
    ghost answers: { Self → Status → Type 0 } = { λ first status. Unit {0} };

    /// Takes one event. False at the end. It takes no memory, and never answers `OutOfMemory`.
    fn turn<D: Desk>(&mut self, desk: &mut D) -> Result<bool, Status>
        requires { ready self.old (D.outside desk.old).attached }
        ensures gives { (s : Self.State) (inputs : Role → List ℕ) → stands self.old s inputs
            → Tells (D.outside desk.old) inputs → TurnGives result (step s inputs)
            (stands self.new) reads (reads s) inputs (D.outside desk.old) (D.outside desk.new) }
        ensures falls { Falls result (more self.old) (more self.new) }
        ensures ready { OnGoing result (ready self.new (D.outside desk.new).attached) }
        ensures source { OnGoing result (reading self.new ≡ reading self.old) }
        ensures whole { (s : Self.State) (inputs : Role → List ℕ)
            → stands self.old s inputs → Tells (D.outside desk.old) inputs → OnEnd result
            (IfSome (reading self.old) (λ role. (D.outside desk.new).left role ≡ Some [])) }
        ensures stays { (first : Self) → stays first self.old → stays first self.new }
        ensures leaves { OnSettled result (leaves self.old self.new) }
        ensures answers { (first : Self) → stays first self.old
            → answers first (turn_status result) }
        ensures stop { IfErr result IsStop }
        ensures cause { HasCause
            (turn_status result) (D.outside desk.old).faults (D.outside desk.new).faults }
        ensures rest { KeepsRoles (D.outside desk.old) (D.outside desk.new) };
}

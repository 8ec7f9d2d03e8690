//! How the reads and writes of one turn add up, and how a run begins. Each law is the contract of a
//! function that does nothing.
ghost use Rattle.desk_program.specs.Laws.{RunLaws, StepLaws, TurnLaws};

use crate::Turns;
use h263_outside::laws::calls;

/// What a turn rests on, whatever the machine keeps in mind.
pub fn turn_laws()
    ensures { TurnLaws }
{}

/// How two steps over a desk add up, and why a turn stops.
pub fn step_laws()
    ensures { StepLaws }
{
    calls();
}

/// How the run of a machine begins, and how it has ended where its start gives up, or where memory
/// is refused to it.
pub fn run_laws<M: Turns>()
    ensures { RunLaws M.stands M.more }
{}

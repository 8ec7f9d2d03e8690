//! What the answer of a run means to a session.
ghost use Rattle.std.specs.Prelude.{◌≡◌};
ghost use Rattle.h263_types.specs.declared.clock.Clock.{Clock};
ghost use Rattle.session_runs.specs.Histories.{Answer, answer_completes, is_heard, until_after};
ghost use Rattle.session_runs.specs.Kept.{IsAnswerOf};

use receiver_end::Heard;
use stream_run::Arrived;

/// Whether a picture is complete with the packet.
pub fn is_complete(answer: &Arrived) -> bool
    ensures { (clock : Clock) (a : Answer) → IsAnswerOf clock answer.now a → result ≡ answer_completes a }
{
    match answer {
        Arrived::NoPlace => false,
        Arrived::Ahead(_) => false,
        Arrived::Heard(heard) => matches!(heard, Heard::Completed(_)),
    }
}

/// Whether the packet's picture has a place, and was not played.
pub fn is_heard(answer: &Arrived) -> bool
    ensures { (clock : Clock) (a : Answer) → IsAnswerOf clock answer.now a → result ≡ is_heard a }
{
    match answer {
        Arrived::NoPlace => false,
        Arrived::Ahead(_) => true,
        Arrived::Heard(heard) => !matches!(heard, Heard::Late),
    }
}

/// The picture up to which all are due at once.
pub fn until_after(answer: &Arrived, lead: u32, until: u32) -> u32
    ensures { (clock : Clock) (a : Answer) → IsAnswerOf clock answer.now a
        → result ≡ until_after a lead until }
{
    match answer {
        Arrived::NoPlace => until,
        Arrived::Ahead(number) => until.max(number.saturating_sub(lead)),
        Arrived::Heard(_) => until,
    }
}

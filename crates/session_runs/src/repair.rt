//! What is asked for again.
ghost use Rattle.std.specs.Prelude.{◌≡◌, List};
ghost use Rattle.h263_types.specs.declared.clock.Clock.{Clock};
ghost use Rattle.stream_numbers.specs.Placing.{IsRate};
ghost use Rattle.packet_gaps.specs.Kept.{GapEvent, GapsStand};
ghost use Rattle.session_runs.specs.Histories.{Answer, gaps_after, picture_period};
ghost use Rattle.session_runs.specs.Kept.{IsAnswerOf};

use packet_gaps::Gaps;
use stream_numbers::{Place, Rate};
use stream_run::Arrived;

const SECOND: u64 = 1_000_000_000;

/// A packet with this sequence number, this place and this answer came: one that is heard counts as
/// come, also where it is late.
pub fn note(gaps: &mut Gaps, sequence: u16, place: Option<Place>, answer: &Arrived)
    ensures { (clock : Clock) (a : Answer) (past : List GapEvent) → IsAnswerOf clock answer.now a
        → GapsStand gaps.old past → GapsStand gaps.new (gaps_after a place sequence past) }
{
    match answer {
        Arrived::NoPlace => {}
        Arrived::Ahead(_) => {}
        Arrived::Heard(_) => match place {
            None => {}
            Some(place) => gaps.arrived(sequence, place.number),
        },
    }
}

/// How long after a picture the next one is due, in nanoseconds.
pub fn picture_period(rate: &Rate) -> u64
    requires { IsRate rate.now }
    ensures { result ≡ picture_period rate.now }
{
    rate.second as u64 * SECOND / rate.rate as u64
}

//! Laws of streams and budgets, over the definitions alone.
ghost use Rattle.stream_choice.specs.Laws.{EndsLife, NeverMore, StreamsNeverShutOut, StreamUndisturbed};

/// In no second more packets are granted than a budget has.
pub fn never_more()
    ensures { NeverMore }
{}

/// What others send changes nothing of a stream of which a picture is complete every half second.
pub fn undisturbed()
    ensures { StreamUndisturbed }
{}

/// A stream that is followed is live no longer once it has ended; an end of another one changes
/// nothing.
pub fn ends_life()
    ensures { EndsLife }
{}

/// No stream is shut out for good: where none that is followed is live, its packets are taken a
/// second and a half after the last trial began, or sooner.
pub fn never_shut_out()
    ensures { StreamsNeverShutOut }
{}

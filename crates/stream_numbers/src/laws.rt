//! Laws of the numbers, over the definitions alone.
ghost use Rattle.stream_numbers.specs.Laws.{PacketIsPlaced, NearestIsFound, NumbersNeverAhead};

/// A number is found by its rest where it is less than half a period from where it is looked for.
pub fn nearest()
    ensures { NearestIsFound }
{}

/// A packet near the newest picture gets the number and the time that it means.
pub fn found()
    ensures { PacketIsPlaced }
{}

/// No stream runs ahead of the clock by more than its credit.
pub fn never_ahead()
    ensures { NumbersNeverAhead }
{}

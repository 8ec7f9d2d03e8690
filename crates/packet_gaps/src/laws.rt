//! Laws of the gaps, over the definitions alone.
ghost use Rattle.packet_gaps.specs.Laws.{Apart, Ends, Few, AsksInTime, Missing, Named, OfLater, Twice};

/// No packet with a gap's number came, but one before it did, and one after it.
pub fn missing()
    ensures { Missing }
{}

/// A packet of each gap's picture came that is ahead of it.
pub fn of_later()
    ensures { OfLater }
{}

/// There are 64 gaps at most.
pub fn few()
    ensures { Few }
{}

/// Nothing is asked for that can't come before its picture is due.
pub fn in_time()
    ensures { AsksInTime }
{}

/// No packet is asked for a third time.
pub fn twice()
    ensures { Twice }
{}

/// No packet is asked for again within a round trip.
pub fn apart()
    ensures { Apart }
{}

/// The PID and the BLP of an answer say which packets are asked for.
pub fn named()
    ensures { Named }
{}

/// Where the round trip isn't 0, each answer leaves fewer packets that may be asked for.
pub fn ends()
    ensures { Ends }
{}

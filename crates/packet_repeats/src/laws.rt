//! Laws of the packets that are found, over the definitions alone.
ghost use Rattle.packet_repeats.specs.Laws.{Bounded, Newest, FindsSent, StillKept};

/// What is found is the newest packet with its number.
pub fn newest()
    ensures { Newest }
{}

/// What is found was sent, byte for byte, with this number.
pub fn sent()
    ensures { FindsSent }
{}

/// Of packets with numbers that follow one another each is found while it is among the last `count`.
pub fn kept()
    ensures { StillKept }
{}

/// There are no more places than numbers.
pub fn bounded()
    ensures { Bounded }
{}

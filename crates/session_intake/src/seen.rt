//! What is seen of a datagram.
use stream_numbers::Packet;

/// Why a datagram is dropped.
#[derive(Clone, Copy, Debug, PartialEq, Eq)]
pub enum Cause {
    /// It has more than 9,000 bytes, the most that a packet has.
    Long,
    /// It is no packet of this profile.
    Malformed,
    /// It is of another format, or of the other picture clock.
    OtherPictures,
    /// More than 12,000 packets of its stream, or of all strangers together, came in this second.
    TooFast,
    /// Its stream has no run, since another is followed, or is tried; or packets of another one alone
    /// are looked at.
    OtherStream,
}

/// A packet of a stream, by its SSRC and by what it says of its picture.
#[derive(Clone, Copy, Debug, PartialEq, Eq)]
pub struct Seen {
    pub source: u32,
    pub packet: Packet,
}

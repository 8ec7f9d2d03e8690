//! What a packet says of its picture, and what that means.

/// What a packet says of its picture.
#[derive(Clone, Copy, Debug, PartialEq, Eq)]
pub struct Packet {
    /// The temporal reference, below the period.
    pub reference: u32,
    /// The packet's sequence number.
    pub sequence: u16,
    /// The time of capture, in ticks of 90 kHz.
    pub timestamp: u32,
}

/// A picture's place in a stream.
#[derive(Clone, Copy, Debug, PartialEq, Eq)]
pub struct Place {
    /// Its number.
    pub number: u32,
    /// When it was captured, in nanoseconds of the sender's clock, below 2^62.
    pub captured: u64,
}

//! What an RTP header says.

/// What the header of an RTP packet says (RFC 3550, 5.1).
#[derive(Clone, Copy, Debug, PartialEq, Eq)]
pub struct Rtp {
    /// Whether it is a picture's last packet (M).
    pub marker: bool,
    /// The packet's number, which starts anew at 2^16.
    pub sequence: u16,
    /// The picture's time on a clock of 90 kHz, which starts anew at 2^32.
    pub timestamp: u32,
    /// The payload's first byte.
    pub from: u32,
    /// The byte after the payload.
    pub to: u32,
}

//! The newest picture of a stream.

/// The newest picture of a stream: its number and its time of capture, both counted on, when a
/// packet of it came first, and for how many more nanoseconds the stream may run ahead of the clock.
/// And the greatest sequence number of a packet.
#[derive(Clone, Copy)]
pub struct Newest {
    pub number: u32,
    pub stamp: u64,
    pub sequence: u16,
    pub at: u64,
    pub credit: u64,
}

//! What a payload header says.
use picture_header::Header;

/// The fixed part of a payload header, 16 bits (RFC 4629, 5.1).
#[derive(Clone, Copy, Debug, PartialEq, Eq)]
pub struct Opening {
    /// Whether the data begins with a start code, whose two zero bytes are left out (P). Otherwise
    /// it follows on.
    pub p: bool,
    /// Whether a byte of video redundancy coding follows (V).
    pub v: bool,
    /// How many bytes the extra picture header has, at most 63; 0 where there is none (PLEN).
    pub plen: u32,
    /// How many bits of the last of these bytes are left out, at most 7 (PEBIT).
    pub pebit: u32,
}

/// What the payload header of a packet says, and where its data begins.
#[derive(Clone, Copy, Debug, PartialEq, Eq)]
pub struct Payload {
    /// The extra picture header, which stands in front of a later slice of a picture.
    pub extra: Option<Header>,
    /// Whether the data begins a picture.
    pub begins: bool,
    /// The place of the data's first bit, counted from the packet's first bit.
    pub from: u32,
}

//! The synchronization source of an RTP packet (SSRC, RFC 3550, 5.1): whose stream it is of.
//!
//! The packets that an end reads have one SSRC, the letters H263. Those of a network have any:
//! [`source_of`] says which, and [`copy_as_own`] gives the packet as an end reads it.
//!
//! ```rust
//! let mut room = [0; 12];
//! assert_eq!(rt; source_of(&HEADER), Some(7));
//! copy_as_own(&HEADER, &mut room);
//! assert_eq!(rt; source_of(&room), Some(u32::from_be_bytes(*b"H263")));
//! ```
#![tactic(auto)]

ghost use Rattle.std.specs.Prelude.{◌≡◌, ◌≤◌, length};
ghost use Rattle.rtp_source.specs.Source.{renamed, source_in};

use byteorder::{BigEndian, ByteOrder};

// A header has at least so many bytes.
const HEADER: usize = 12;

/// The SSRC of a packet. None where it is shorter than a header.
pub fn source_of(bytes: &[u8]) -> Option<u32>
    ensures { result ≡ source_in bytes.now }
{
    if bytes.len() < HEADER {
        return None;
    }
    Some(BigEndian::read_u32(&bytes[8..]))
}

/// Copies a packet, into a room of its length, with the SSRC that ends read.
pub fn copy_as_own(bytes: &[u8], room: &mut [u8])
    requires header { 12 ≤ length bytes.now }
    requires room { length room.old ≡ length bytes.now }
    ensures { room.new ≡ renamed bytes.now }
{
    room.copy_from_slice(bytes);
    room[8..12].copy_from_slice(b"H263");
}

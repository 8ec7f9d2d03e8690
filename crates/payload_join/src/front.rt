//! What stands before the coded bytes of an outgoing packet.
ghost use Rattle.std.specs.Prelude.{◌≡◌, ℕ, ◌+◌, ◌-◌, ◌*◌, ◌/◌, ◌^◌, ◌<◌, ◌≤◌, ◌++◌, length, slice_index, take, IfSome};
ghost use Rattle.h263_bits.specs.Bits.{bits_of, fields};
ghost use Rattle.h263_payload.specs.Written.{payload_opening_fields};
ghost use Rattle.payload_join.specs.Places.{put_at};
ghost use Rattle.payload_join.specs.Outgoing.{padded_bytes};
ghost use Rattle.payload_join.specs.Fronts.{bytes_of_front, front_by, header_end};

use byteorder::{BigEndian, ByteOrder};
use h263_bits::{BitReader, laws as h263_bits_laws};
use h263_types::Format;
use picture_header::read_header;

// RTP's header, the payload header and an extra picture header.
#[derive(Clone, Copy)]
pub(crate) struct Front {
    pub(crate) bytes: [u8; 77],
    pub(crate) len: usize,
}

// A front of no bytes.
pub(crate) const EMPTY: Front = Front {
    bytes: [0; 77],
    len: 0,
};

// The front with an extra header, which has no bytes where there is none (RFC 3550, 5.1, RFC 4629,
// 5.1).
pub(crate) fn front_with(sequence: u16, timestamp: u32, extra: &[u8], pebit: u32) -> Front
    requires few { length extra.now < 64 }
    requires pebit { pebit < 8 }
    ensures bytes { bytes_of_front result
        ≡ front_by sequence timestamp (record { bytes = extra.now; pebit = pebit }) }
    ensures len { result.len ≡ 14 + length extra.now }
{
    h263_bits_laws::spelling();
    let plen = extra.len();
    let rtp = rtp_header::write(false, sequence, timestamp);
    let opening = opening(plen as u32, pebit);
    let mut bytes = [0; 77];
    write_front(&mut bytes, &rtp, &opening, extra);
    Front {
        bytes,
        len: 14 + plen,
    }
}

// Writes bytes from a place on.
fn set_part(bytes: &mut [u8], at: usize, part: &[u8])
    requires { at + length part.now ≤ length bytes.old }
    ensures { bytes.new ≡ put_at bytes.old at part.now }
{
    bytes[at..at + part.len()].copy_from_slice(part);
}

// Writes the three parts of a front one after the other.
fn write_front(bytes: &mut [u8], rtp: &[u8], opening: &[u8], extra: &[u8])
    requires bytes { length bytes.old ≡ 77 }
    requires rtp { length rtp.now ≡ 12 }
    requires opening { length opening.now ≡ 2 }
    requires few { length extra.now < 64 }
    ensures text { take (14 + length extra.now) bytes.new ≡ (rtp.now ++ opening.now) ++ extra.now }
    ensures rtp { (k : ℕ) → slice_index rtp.now k < 256 }
    ensures opening { (k : ℕ) → slice_index opening.now k < 256 }
{
    set_part(bytes, 0, rtp);
    set_part(bytes, 12, opening);
    set_part(bytes, 14, extra);
}

// RR 0, P 1, V 0, PLEN and PEBIT.
fn opening(plen: u32, pebit: u32) -> [u8; 2]
    requires few { plen < 64 }
    requires pebit { pebit < 8 }
    ensures { bits_of result ≡ fields (payload_opening_fields plen pebit) }
{
    let mut bytes = [0; 2];
    BigEndian::write_u16(&mut bytes, (1024 + 8 * plen + pebit) as u16);
    bytes
}

// Where the picture header ends that coded bytes begin with, if it takes 63 bytes at most.
pub(crate) fn find_end(coded: &[u8], format: Format) -> Option<u32>
    requires { length coded.now ≤ 65535 }
    ensures exact { result ≡ header_end format coded.now }
    ensures short { IfSome result (λ bits. (bits ≤ 504) × (bits ≤ 8 * length coded.now)) }
{
    h263_bits_laws::spelling();
    let mut reader = BitReader::new(coded, 0, 8 * coded.len() as u32);
    match read_header(&mut reader, format) {
        Ok(_) => {
            let end = reader.at();
            if end <= 504 { Some(end) } else { None }
        }
        Err(_) => None,
    }
}

// A byte whose last bits are cleared.
fn padded(byte: u8, padding: u32) -> u8
    requires { padding < 8 }
    ensures { result ≡ byte / 2 ^ padding * 2 ^ padding }
{
    byte >> padding << padding
}

// The front with the first so many bits of the coded bytes, padded with zero bits.
pub(crate) fn padded_front(sequence: u16, timestamp: u32, coded: &[u8], bits: u32) -> Front
    requires short { bits ≤ 504 }
    requires there { bits ≤ 8 * length coded.now }
    ensures bytes { bytes_of_front result
        ≡ front_by sequence timestamp (padded_bytes bits coded.now) }
    ensures len { result.len ≤ 77 }
{
    let whole = (bits / 8) as usize;
    let padding = (8 - bits % 8) % 8;
    if padding == 0 {
        return front_with(sequence, timestamp, &coded[..whole], 0);
    }
    let mut extra = [0; 63];
    set_part(&mut extra, 0, &coded[..whole]);
    extra[whole] = padded(coded[whole], padding);
    front_with(sequence, timestamp, &extra[..whole + 1], padding)
}

//! The start of a datagram as C has it: of a packet whatever its SSRC, as a session takes it.
ghost use Rattle.std.specs.Prelude.{◌≡◌, ◌≢◌, Some, IfSome};
ghost use Rattle.picture_header.specs.declared.header.Header.{Header};
ghost use Rattle.picture_header.specs.Ranges.{IsHeader};
ghost use Rattle.h263rps_c.specs.Refusals.{status_of};
ghost use Rattle.h263rps_c.specs.Start.{IsStart, datagram_start, start_refusal};

use crate::refusals::{EndRefusal, OK};
use crate::start::Start;
use packet_start::find_start;
use picture_header::Header;
use rtp_source::{copy_as_own, source_of};

// A session drops what has more bytes.
const MOST: usize = 9_000;

// The header of its picture, if it is a packet of any format.
fn header_of(bytes: &[u8]) -> Option<Header>
    ensures value { result ≡ datagram_start bytes.now }
    ensures in_range { IfSome result IsHeader }
{
    if bytes.len() > MOST {
        return None;
    }
    let _source = source_of(bytes)?;
    let mut room = [0; MOST];
    copy_as_own(bytes, &mut room[..bytes.len()]);
    find_start(&room[..bytes.len()])
}

/// What a datagram says of its picture, as `h263rps_raw_packet_start` tells of a packet: it may have
/// any SSRC.
#[unsafe(no_mangle)]
pub extern "C" fn h263rps_raw_datagram_start(bytes: &[u8], start: &mut Start) -> u32
    ensures result { result ≡ status_of (start_refusal (datagram_start bytes.now)) }
    ensures unwritten { result ≢ 0 → start.new ≡ start.old }
    ensures start { (h : Header) → datagram_start bytes.now ≡ Some h → IsStart start.new h }
{
    match header_of(bytes) {
        None => EndRefusal::NoStart.number(),
        Some(header) => {
            *start = Start::of(&header);
            OK
        }
    }
}

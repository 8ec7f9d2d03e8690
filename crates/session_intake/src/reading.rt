//! What a datagram says of itself.
ghost use Rattle.std.specs.Prelude.{◌≡◌, ◌<◌, ◌≤◌, ◌+◌, ℕ, length, take, IfOk};
ghost use Rattle.h263_types.specs.Clocks.{period_of};
ghost use Rattle.picture_header.specs.Ranges.{IsHeader};
ghost use Rattle.rtp_source.specs.Source.{renamed};
ghost use Rattle.rtp_header.specs.Faults.{rtp_in};
ghost use Rattle.session_intake.specs.Datagrams.{cause_of, seen_in, header_seen, with_rtp};

use crate::seen::{Cause, Seen};
use h263_types::Params;
use packet_start::{find_start, read_start};
use picture_header::Header;
use rtp_header::Rtp;
use rtp_source::{copy_as_own, source_of};
use stream_numbers::Packet;

// What a packet with this header says, where it is of the call's pictures.
fn seen_of(params: &Params, source: u32, rtp: &Rtp, header: &Header) -> Result<Seen, Cause>
    requires { IsHeader header.now }
    ensures exact { result ≡ header_seen params.now source rtp.now header.now }
    ensures range { IfOk result (λ s. s.packet.reference < period_of params.now.clock) }
{
    if header.clock.period() != params.clock.period() {
        return Err(Cause::OtherPictures);
    }
    Ok(Seen {
        source,
        packet: Packet {
            reference: header.tr as u32,
            sequence: rtp.sequence,
            timestamp: rtp.timestamp,
        },
    })
}

// Why a packet isn't of the call's pictures.
fn cause_of(own: &[u8]) -> Cause
    ensures { result ≡ cause_of own.now }
{
    match find_start(own) {
        Some(_) => Cause::OtherPictures,
        None => Cause::Malformed,
    }
}

// What a packet says, whose SSRC was this before it was the one that ends read.
fn read_own(params: &Params, source: u32, own: &[u8]) -> Result<Seen, Cause>
    ensures exact { result ≡ with_rtp params.now source own.now (rtp_in own.now) }
    ensures range { IfOk result (λ s. s.packet.reference < period_of params.now.clock) }
{
    let Ok(rtp) = rtp_header::read(own) else {
        return Err(Cause::Malformed);
    };
    match read_start(own, params.format) {
        Ok(header) => seen_of(params, source, &rtp, &header),
        Err(_) => Err(cause_of(own)),
    }
}

/// What a datagram says that is a packet of the call's pictures, whatever its SSRC. In the room it
/// stands as ends read it.
pub fn read(params: &Params, bytes: &[u8], room: &mut [u8]) -> Result<Seen, Cause>
    requires room { length room.old ≡ 9000 }
    ensures exact { result ≡ seen_in params.now bytes.now }
    ensures range { IfOk result (λ s. s.packet.reference < period_of params.now.clock) }
    ensures len { length room.new ≡ 9000 }
    ensures short { IfOk result (λ s. length bytes.now ≤ 9000) }
    ensures own { IfOk result (λ s. take (length bytes.now) room.new ≡ renamed bytes.now) }
{
    if bytes.len() > room.len() {
        return Err(Cause::Long);
    }
    let Some(source) = source_of(bytes) else {
        return Err(Cause::Malformed);
    };
    copy_as_own(bytes, &mut room[..bytes.len()]);
    read_own(params, source, &room[..bytes.len()])
}

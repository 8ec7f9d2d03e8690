//! What a picture header says, as one value.
use back_messages::Message;
use h263_types::{Clock, Format, Kind};

/// What a picture header says.
#[derive(Clone, Copy, Debug, PartialEq, Eq)]
pub struct Header {
    /// The temporal reference (TR, 5.1.2), at most 255; in a custom clock at most 1,023, with the
    /// bits of ETR (5.1.8).
    pub tr: u16,
    pub format: Format,
    pub kind: Kind,
    /// The rounding bit (RTYPE, 5.1.4.3), 0 or 1.
    pub rounding: u8,
    /// Which back-channel messages the sender asks for (RPSMF, 5.1.13): 0 none, 1 ACK, 2 NACK, 3
    /// both.
    pub channel: u8,
    /// The temporal reference of the picture that a P picture refers to (TRP, 5.1.15); none in I.
    pub trp: Option<u16>,
    /// The quantiser of the first slice (PQUANT, 5.1.19), 1 to 31.
    pub quant: u8,
    /// Messages about pictures of the other direction (BCM, 5.1.17), the first places first.
    pub back: [Option<Message>; 4],
    /// The picture clock (5.1.4.2), by which all temporal references here have 8 or 10 bits.
    pub clock: Clock,
}

impl Header {
    ghost use Rattle.std.specs.Prelude.{◌≡◌, ◌<◌, ◌≤◌};
    ghost use Rattle.h263_types.specs.Blocks.{IsQuant};
    ghost use Rattle.h263_types.specs.Clocks.{period_of};
    ghost use Rattle.picture_header.specs.Ranges.{IsHeader};
    ghost use Rattle.picture_header.specs.Made.{blank_header, intra_header, predicted_header};

    /// What stands in the place of a header before there is one.
    pub fn blank(format: Format) -> Header
        ensures value { result ≡ blank_header format }
        ensures in_range { IsHeader result }
    {
        Header {
            tr: 0,
            format,
            kind: Kind::I,
            rounding: 0,
            channel: 0,
            trp: None,
            quant: 1,
            back: [None; 4],
            clock: Clock::Standard,
        }
    }

    /// The header of an I picture with no messages, which asks for messages of both kinds.
    pub fn intra(format: Format, clock: Clock, tr: u16, quant: u8) -> Header
        requires tr { tr < period_of clock }
        requires quant { IsQuant quant }
        ensures value { result ≡ intra_header format clock tr quant }
        ensures in_range { IsHeader result }
    {
        Header {
            tr,
            format,
            kind: Kind::I,
            rounding: 0,
            channel: 3,
            trp: None,
            quant,
            back: [None; 4],
            clock,
        }
    }

    /// The same header of a P picture, which refers to the picture with temporal reference `trp`.
    pub fn predicted(self, rounding: u8, trp: u16) -> Header
        requires header { IsHeader self }
        requires rounding { rounding ≤ 1 }
        requires trp { trp < period_of self.clock }
        ensures value { result ≡ predicted_header self rounding trp }
        ensures in_range { IsHeader result }
    {
        Header {
            kind: Kind::P,
            rounding,
            trp: Some(trp),
            ..self
        }
    }
}

//! The header of a picture.
ghost use Rattle.std.specs.Prelude.{◌≡◌, ◌<◌, ◌≤◌, length, is_some};
ghost use Rattle.h263_types.specs.Blocks.{IsQuant};
ghost use Rattle.picture_header.specs.Ranges.{AreMessages, IsHeader};
ghost use Rattle.picture_header.specs.Text.{in_places};
ghost use Rattle.call_decoding.specs.Styles.{header_from};
ghost use Rattle.sender_end.specs.Headers.{numbered};
ghost use Rattle.call_encoding.specs.Frames.{style_in};

use back_messages::Message;
use call_encoding::laws as call_encoding_laws;
use h263_types::{Kind, Params};
use picture_header::Header;

// The messages in their places.
fn places(back: &[Message]) -> [Option<Message>; 4]
    requires { length back.now ≤ 4 }
    ensures { result ≡ in_places back.now }
{
    [
        back.get(0).copied(),
        back.get(1).copied(),
        back.get(2).copied(),
        back.get(3).copied(),
    ]
}

/// The header of picture `number`, which has this depth, and whose reference is this one.
pub fn header_of(
    params: &Params,
    number: u32,
    reference: Option<u32>,
    depth: u8,
    quant: u8,
    back: &[Message],
) -> Header
    requires quant { IsQuant quant }
    requires few { length back.now ≤ 4 }
    requires back { AreMessages params.now.clock back.now }
    ensures value { result ≡ header_from (numbered params.now.clock number reference
        (style_in params.now.format (in_places back.now) (is_some reference) depth quant)) }
    ensures in_range { IsHeader result }
{
    call_encoding_laws::carried_as_they_are();
    call_encoding_laws::header_in_range();
    let period = params.clock.period();
    Header {
        tr: (number % period) as u16,
        format: params.format,
        kind: if reference.is_some() {
            Kind::P
        } else {
            Kind::I
        },
        rounding: depth % 2,
        channel: 3,
        trp: reference.map(|m| (m % period) as u16),
        quant,
        back: places(back),
        clock: params.clock,
    }
}

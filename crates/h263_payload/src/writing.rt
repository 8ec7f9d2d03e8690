//! The payload header written (RFC 4629, 5.1).
ghost use Rattle.std.specs.Prelude.{◌≡◌, ◌+◌, ◌≤◌, ◌<◌};
ghost use Rattle.std.specs.Option.{option_copied};
ghost use Rattle.h263_bits.specs.Bits.{fields};
ghost use Rattle.h263_bits.specs.Written.{Appends, len_of, room_of};
ghost use Rattle.h263_payload.specs.Ranges.{IsExtraHeader};
ghost use Rattle.h263_payload.specs.Written.{payload_opening_fields, written_payload, payload_bits};

use h263_bits::BitWriter;
use picture_header::{Header, header_bits, write_header};

// Writes RR 0, P 1, V 0, PLEN and PEBIT.
fn write_opening(writer: &mut BitWriter<'_>, plen: u32, pebit: u32)
    requires plen { plen < 64 }
    requires pebit { pebit < 8 }
    requires room { len_of writer.old + 16 ≤ room_of writer.old }
    ensures bits { Appends writer.old writer.new (fields (payload_opening_fields plen pebit)) }
    ensures len { len_of writer.new ≡ len_of writer.old + 16 }
{
    writer.put(0, 5);
    writer.put(1, 1);
    writer.put(0, 1);
    writer.put(plen, 6);
    writer.put(pebit, 3);
}

/// Writes the payload header: of a packet that begins a picture, or with the header in front of a
/// later slice (RFC 4629, 5.1). The header is padded with zero bits to whole bytes.
pub fn write_payload(writer: &mut BitWriter<'_>, extra: Option<&Header>)
    requires header { IsExtraHeader (option_copied extra) }
    requires room { len_of writer.old + payload_bits (option_copied extra) ≤ room_of writer.old }
    ensures bits { Appends writer.old writer.new (written_payload (option_copied extra.entry)) }
    ensures len { len_of writer.new ≡ len_of writer.old + payload_bits (option_copied extra.entry) }
{
    let Some(header) = extra else {
        write_opening(writer, 0, 0);
        return;
    };
    let bits = header_bits(header);
    let padding = (8 - bits % 8) % 8;
    write_opening(writer, (bits + padding) / 8, padding);
    write_header(writer, header);
    writer.put(0, padding);
}

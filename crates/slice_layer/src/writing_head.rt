//! Writes what stands before a slice's macroblocks.
ghost use Rattle.std.specs.Prelude.{◌≡◌, ℕ, ◌+◌, ◌*◌, ◌<◌, ◌≤◌, ◌++◌, length, true, false};
ghost use Rattle.h263_bits.specs.Bits.{fields};
ghost use Rattle.h263_bits.specs.Written.{Appends, len_of, room_of};
ghost use Rattle.h263_types.specs.Sizes.{mbs_of};
ghost use Rattle.picture_header.specs.Ranges.{HasTenBits, IsHeader};
ghost use Rattle.picture_header.specs.Written.{reference_bits};
ghost use Rattle.slice_layer.specs.Head.{address_bits};
ghost use Rattle.slice_layer.specs.Written.{gfid, first_fields, place_fields, tail_text, opening_text, IsSlicePlace};

use crate::shared::address_bits;
use h263_bits::BitWriter;
use picture_header::{
    Header, kind_bits, laws as picture_header_laws, write_header, write_reference,
};

// SEPB1, MBA and SEPB3 after the picture header.
fn write_first(writer: &mut BitWriter<'_>, header: &Header)
    requires room { len_of writer.old + 11 ≤ room_of writer.old }
    ensures bits { Appends writer.old writer.new (fields (first_fields header.now)) }
    ensures len { len_of writer.new ≡ len_of writer.old + (2 + address_bits header.now.format) }
{
    writer.put(1, 1);
    writer.put(0, address_bits(header.format));
    writer.put(1, 1);
}

// The start code's last bit, SEPB1, MBA, SQUANT and SEPB3 of a later slice.
fn write_place(writer: &mut BitWriter<'_>, header: &Header, first: u32)
    requires quant { header.now.quant ≤ 31 }
    requires first { first < mbs_of header.now.format }
    requires room { len_of writer.old + 17 ≤ room_of writer.old }
    ensures bits { Appends writer.old writer.new (fields (place_fields header.now first)) }
    ensures len { len_of writer.new ≡ len_of writer.old + (8 + address_bits header.now.format) }
{
    writer.put(1, 1);
    writer.put(1, 1);
    writer.put(first, address_bits(header.format));
    writer.put(header.quant as u32, 5);
    writer.put(1, 1);
}

// GFID, TRI, TRPI, TRP and BCI.
fn write_tail(writer: &mut BitWriter<'_>, header: &Header)
    requires rounding { header.now.rounding ≤ 1 }
    requires trp { HasTenBits header.now.trp }
    requires room { len_of writer.old + 16 ≤ room_of writer.old }
    ensures bits { Appends writer.old writer.new (tail_text header.now) }
    ensures len { len_of writer.new ≡ len_of writer.old + (6 + reference_bits header.now.trp) }
{
    writer.put(2 * header.rounding as u32 + kind_bits(header.kind), 2);
    writer.put(0, 1);
    write_reference(writer, header.trp);
    writer.put(0b01, 2);
}

// What stands before the macroblocks of a later slice.
fn write_later(writer: &mut BitWriter<'_>, header: &Header, first: u32)
    requires header { IsHeader header.now }
    requires first { first < mbs_of header.now.format }
    requires room { len_of writer.old + 262 ≤ room_of writer.old }
    ensures bits { Appends writer.old writer.new (opening_text header.now false first) }
    ensures len { len_of writer.new
        ≡ len_of writer.old + length (opening_text header.now false first) }
{
    write_place(writer, header, first);
    write_tail(writer, header);
}

// What stands before the macroblocks of a slice that begins a picture.
fn write_beginning(writer: &mut BitWriter<'_>, header: &Header)
    requires header { IsHeader header.now }
    requires room { len_of writer.old + 262 ≤ room_of writer.old }
    ensures bits { Appends writer.old writer.new (opening_text header.now true 0) }
    ensures len { len_of writer.new ≡ len_of writer.old + length (opening_text header.now true 0) }
{
    picture_header_laws::in_a_syntax();
    write_header(writer, header);
    write_first(writer, header);
}

/// Writes what stands before a slice's macroblocks: the picture header, where the slice begins a
/// picture, and the header of the slice that begins with macroblock `first`. That is 262 bits at
/// most.
pub fn write_opening(writer: &mut BitWriter<'_>, header: &Header, begins: bool, first: u32)
    requires header { IsHeader header.now }
    requires place { IsSlicePlace header.now begins first }
    requires room { len_of writer.old + 262 ≤ room_of writer.old }
    ensures bits { Appends writer.old writer.new (opening_text header.now begins first) }
    ensures len { len_of writer.new
        ≡ len_of writer.old + length (opening_text header.now begins first) }
    ensures few { length (opening_text header.now begins first) ≤ 262 }
{
    picture_header_laws::in_a_syntax();
    if begins {
        write_beginning(writer, header);
    } else {
        write_later(writer, header, first);
    }
}

//! Texts at the start of bytes, padded with zero bits up to a whole byte.
ghost use Rattle.std.specs.Prelude.{◌≡◌, ℕ, ◌+◌, ◌*◌, ◌<◌, ◌≤◌, ◌^◌, ◌++◌, length, take};
ghost use Rattle.h263_bits.specs.Bits.{spelled};
ghost use Rattle.h263_bits.specs.Written.{Appends, len_of, to_byte};
ghost use Rattle.h263_types.specs.Blocks.{IsQuant, IsMb, IsOfKind, HasWholeBlocks};
ghost use Rattle.picture_header.specs.Ranges.{IsHeader};
ghost use Rattle.h263_types.specs.Marks.{IsMarked};
ghost use Rattle.macroblock_layer.specs.Written.{mb_text, IsStepped};
ghost use Rattle.slice_layer.specs.Written.{opening_text, IsSlicePlace, IsPaddedFront};

use crate::writing_head::write_opening;
use h263_bits::BitWriter;
use h263_types::{Kind, MarkedMb, Vector};
use macroblock_layer::write_marked;
use picture_header::Header;

// Appends zero bits up to a byte. Answers how many bits were there before.
fn pad(writer: &mut BitWriter<'_>) -> u32
    ensures bits { Appends writer.old writer.new (spelled (to_byte (len_of writer.old)) 0) }
    ensures len { len_of writer.new ≡ len_of writer.old + to_byte (len_of writer.old) }
    ensures before { result ≡ len_of writer.old }
{
    let len = writer.len();
    writer.align();
    len
}

/// Writes what stands before a slice's macroblocks. Answers how many bits it has.
#[tactic(auto, using(crate::proofs::Fronts::front_is))]
pub fn write_front(bytes: &mut [u8], header: &Header, begins: bool, first: u32) -> u32
    requires room { 1150 ≤ length bytes.old }
    requires short { length bytes.old ≤ 65535 }
    requires header { IsHeader header.now }
    requires place { IsSlicePlace header.now begins first }
    ensures text { IsPaddedFront (opening_text header.now begins first) bytes.new }
    ensures len { result ≡ length (opening_text header.now begins first) }
    ensures few { result ≤ 262 }
{
    let mut writer = BitWriter::new(bytes);
    write_opening(&mut writer, header, begins, first);
    pad(&mut writer)
}

/// Room for the text of any macroblock, after fewer than 8 bits that stand before it in its first
/// byte. What is in it between two macroblocks means nothing.
#[derive(Drop)]
pub struct MbRoom {
    pub(crate) bytes: [u8; 1063],
}

impl MbRoom {
    /// Room for one macroblock at a time: 7 bits and the longest text take 1,063 bytes.
    pub fn new() -> MbRoom {
        MbRoom { bytes: [0; 1063] }
    }
}

/// The bits of a text after its last whole byte: the `count` bits of a number.
#[derive(Clone, Copy)]
pub struct LastBits {
    pub number: u32,
    pub count: u32,
}

/// Writes a macroblock's text after the last bits of what stands before it.
/// Answers how many bits that are together.
pub fn write_apart(
    bytes: &mut [u8; 1063],
    last: LastBits,
    kind: Kind,
    quant: u8,
    predictor: Vector,
    mb: &MarkedMb,
) -> u32
    requires few { last.count < 8 }
    requires fits { last.number < 2 ^ last.count }
    requires quant { IsQuant quant }
    requires mb { IsMb mb.now.mb }
    requires marks { IsMarked mb.now }
    requires kind { IsOfKind kind mb.now.mb }
    requires step { IsStepped quant mb.now.mb }
    ensures text { IsPaddedFront
        (spelled last.count last.number ++ mb_text kind quant predictor mb.now.mb) bytes.new }
    ensures len { result ≡ last.count + length (mb_text kind quant predictor mb.now.mb) }
    ensures short { result ≤ 8499 }
    ensures whole { HasWholeBlocks mb.now.mb }
{
    mb.mb.is_whole();
    let mut writer = BitWriter::new(bytes);
    writer.put(last.number, last.count);
    write_marked(&mut writer, kind, quant, predictor, mb);
    pad(&mut writer)
}

/// Puts bytes into others, from place `at` on.
pub fn paste(bytes: &mut [u8], at: usize, text: &[u8])
    requires room { at + length text.now ≤ length bytes.old }
    ensures front { take (at + length text.now) bytes.new ≡ take at bytes.old ++ text.now }
{
    bytes[at..at + text.len()].copy_from_slice(text);
}

//! Reads the header of a slice.
ghost use Rattle.std.specs.Prelude.{◌≡◌, ℕ, ◌<◌, IfOk};
ghost use Rattle.h263_bits.specs.Reading.{Gives};
ghost use Rattle.h263_bits.specs.Syntax.{field_at, reading};
ghost use Rattle.h263_types.specs.Blocks.{IsQuant};
ghost use Rattle.h263_types.specs.Sizes.{mbs_of};
ghost use Rattle.picture_header.specs.Ranges.{IsHeader};
ghost use Rattle.slice_layer.specs.Head.{address_bits, allowed_first, slice_reference, first_head, place, tail, later_head, head_of_slice};

use crate::shared::address_bits;
use h263_bits::{BitReader, Fault, FaultKind};
use h263_types::Format;
use picture_header::{Header, read_quant};

// The first macroblock of a later slice.
fn read_address(reader: &mut BitReader<'_>, format: Format) -> Result<u32, Fault>
    ensures reads { Gives (λ (v : ℕ). v) result reader.new
        (field_at (address_bits format) (allowed_first format) reader.old) }
    ensures below { IfOk result (λ first. first < mbs_of format) }
{
    let at = reader.at();
    let first = reader.bits(address_bits(format))?;
    if first == 0 || first >= format.mbs() {
        return Err(FaultKind::Address.at(at));
    }
    Ok(first)
}

// What begins after the picture header: the first macroblock, and the picture's quantiser.
#[tactic(auto, unfolding(crate::specs::Head::first_head, h263_bits::specs::Syntax::reading))]
fn read_first_head(reader: &mut BitReader<'_>, header: &Header) -> Result<(u32, u8), Fault>
    ensures reads { Gives
        (λ x. (x.0, x.1)) result reader.new (reading (first_head header.now) reader.old) }
    ensures first { IfOk result (λ x. x.0 ≡ 0) }
    ensures quant { IfOk result (λ x. x.1 ≡ header.now.quant) }
{
    reader.fixed(1, 1, FaultKind::Marker)?;
    reader.fixed(address_bits(header.format), 0, FaultKind::Address)?;
    reader.fixed(1, 1, FaultKind::Marker)?;
    Ok((0, header.quant))
}

// MBA and SQUANT of a later slice, after the last bit of its start code.
#[tactic(auto, unfolding(crate::specs::Head::place, h263_bits::specs::Syntax::reading))]
fn read_place(reader: &mut BitReader<'_>, format: Format) -> Result<(u32, u8), Fault>
    ensures reads { Gives (λ x. (x.0, x.1)) result reader.new (reading (place format) reader.old) }
    ensures below { IfOk result (λ x. x.0 < mbs_of format) }
    ensures range { IfOk result (λ x. IsQuant x.1) }
{
    reader.fixed(1, 1, FaultKind::NoStart)?;
    reader.fixed(1, 1, FaultKind::Marker)?;
    let first = read_address(reader, format)?;
    let quant = read_quant(reader)?;
    reader.fixed(1, 1, FaultKind::Marker)?;
    Ok((first, quant))
}

// TRPI, and in P the picture header's TRP again.
#[tactic(auto, unfolding(crate::specs::Head::slice_reference, h263_bits::specs::Syntax::reading))]
fn read_reference(reader: &mut BitReader<'_>, trp: Option<u16>) -> Result<(), Fault>
    ensures { Gives (λ _. tt) result reader.new (reading (slice_reference trp) reader.old) }
{
    match trp {
        None => {
            reader.fixed(1, 0, FaultKind::SliceReference)?;
            Ok(())
        }
        Some(trp) => {
            reader.fixed(1, 1, FaultKind::SliceReference)?;
            reader.fixed(10, trp as u32, FaultKind::SliceReference)?;
            Ok(())
        }
    }
}

// GFID, TRI, TRPI and TRP, BCI.
#[tactic(auto, unfolding(crate::specs::Head::tail, h263_bits::specs::Syntax::reading))]
fn read_tail(reader: &mut BitReader<'_>, trp: Option<u16>) -> Result<(), Fault>
    ensures { Gives (λ _. tt) result reader.new (reading (tail trp) reader.old) }
{
    reader.bits(2)?;
    reader.fixed(1, 0, FaultKind::SliceReference)?;
    read_reference(reader, trp)?;
    reader.fixed(2, 0b01, FaultKind::Bci)?;
    Ok(())
}

#[tactic(auto, unfolding(crate::specs::Head::later_head, h263_bits::specs::Syntax::reading))]
fn read_later_head(reader: &mut BitReader<'_>, header: &Header) -> Result<(u32, u8), Fault>
    ensures reads { Gives
        (λ x. (x.0, x.1)) result reader.new (reading (later_head header.now) reader.old) }
    ensures below { IfOk result (λ x. x.0 < mbs_of header.now.format) }
    ensures range { IfOk result (λ x. IsQuant x.1) }
{
    let (first, quant) = read_place(reader, header.format)?;
    read_tail(reader, header.trp)?;
    Ok((first, quant))
}

/// Reads the header of a slice (H.263, K.2): its first macroblock, and the quantiser before that.
pub fn read_head(
    reader: &mut BitReader<'_>,
    header: &Header,
    begins: bool,
) -> Result<(u32, u8), Fault>
    requires { IsHeader header.now }
    ensures reads { Gives
        (λ x. (x.0, x.1)) result reader.new (reading (head_of_slice header.now begins) reader.old) }
    ensures below { IfOk result (λ x. x.0 < mbs_of header.now.format) }
    ensures range { IfOk result (λ x. IsQuant x.1) }
{
    if begins {
        return read_first_head(reader, header);
    }
    read_later_head(reader, header)
}

//! What reader and writer of a slice share.
ghost use Rattle.std.specs.Prelude.{◌≡◌, ◌≤◌, ◌^◌};
ghost use Rattle.h263_types.specs.Blocks.{IsQuant, IsMb};
ghost use Rattle.h263_types.specs.Sizes.{mbs_of};
ghost use Rattle.slice_layer.specs.Around.{quant_after, vector_of};
ghost use Rattle.slice_layer.specs.Head.{address_bits};

use h263_types::{Format, Mb, Vector};

/// The bits of a macroblock's number (MBA, K.2.5).
pub fn address_bits(format: Format) -> u32
    ensures bits { result ≡ address_bits format }
    ensures few { result ≤ 9 }
    ensures enough { mbs_of format ≤ 2 ^ result }
{
    match format {
        Format::SubQcif => 6,
        Format::Qcif => 7,
        Format::Cif => 9,
    }
}

/// The quantiser after a macroblock.
pub fn quant_after(quant: u8, mb: &Mb) -> u8
    ensures value { result ≡ quant_after quant mb.now }
    ensures range { IsQuant quant → IsMb mb.now → IsQuant result }
{
    match mb {
        Mb::Skip => quant,
        Mb::Intra { quant, .. } | Mb::Inter { quant, .. } => *quant,
    }
}

/// The vector by which a macroblock's neighbours are predicted.
pub fn vector_of(mb: &Mb) -> Vector
    ensures { result ≡ vector_of mb.now }
{
    match mb {
        Mb::Inter { vector, .. } => *vector,
        _ => Vector::ZERO,
    }
}

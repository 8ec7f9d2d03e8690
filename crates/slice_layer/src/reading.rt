//! Reads a slice: its header, its macroblocks, its padding (H.263, Annex K).
ghost use Rattle.std.specs.Prelude.{◌≡◌, ℕ, true, ◌+◌, ◌-◌, ◌<◌, ◌≤◌, ◌↔◌, ℤ, List, length, IfOk, IsOkAnd};
ghost use Rattle.h263_bits.specs.Reading.{Gives, first_fault};
ghost use Rattle.h263_bits.specs.Syntax.{reading};
ghost use Rattle.h263_types.specs.Blocks.{IsQuant};
ghost use Rattle.h263_types.specs.Sizes.{columns_of, mbs_of};
ghost use Rattle.h263_types.specs.Vectors.{InReach, IsWithin};
ghost use Rattle.h263_types.specs.declared.blocks.Mb.{Mb};
ghost use Rattle.picture_header.specs.Ranges.{IsHeader};
ghost use Rattle.macroblock_layer.specs.Prediction.{predictor_of};
ghost use Rattle.macroblock_layer.specs.Text.{mb};
ghost use Rattle.slice_layer.specs.Around.{reach_of};
ghost use Rattle.slice_layer.specs.Text.{IsSliceText, is_padding, body_at, slice_at, slice_fault};
ghost use Rattle.slice_layer.specs.Filled.{Fills, IsMbAt, IsSliceIn, AreOthersSame, mbs_from};

use crate::head::read_head;
use crate::shared::{quant_after, vector_of};
use h263_bits::{BitReader, Fault, FaultKind};
use h263_types::{Format, Kind, Mb, Reach, SliceHead, Vector, reach};
use macroblock_layer::{
    laws as macroblock_layer_laws, pass_skipped, predictor, read_mb, read_mb_in_i,
};
use picture_header::Header;

// Whether fewer than 8 bits are left, all 0.
fn is_padding(reader: &BitReader<'_>) -> bool
    ensures { result ≡ is_padding reader.now.bits }
{
    let rest = reader.rest();
    if rest >= 8 {
        return false;
    }
    reader.peek(rest) == 0
}

// How far the vector of macroblock `at` reaches.
fn reach_of(format: Format, at: u32) -> Reach
    requires { at < mbs_of format }
    ensures value { result ≡ reach_of format at }
    ensures within { (x y : ℤ) → InReach format at x y ↔ IsWithin result x y }
{
    reach(format, at)
}

// The next macroblock of a slice: its number, that of the slice's first one, and the quantiser in
// force before it.
#[derive(Clone, Copy)]
struct Next {
    at: u32,
    first: u32,
    quant: u8,
}

// The next macroblock by its reach and its prediction; the vectors are those before it.
fn read_near(
    reader: &mut BitReader<'_>,
    header: &Header,
    next: Next,
    vectors: &[Vector],
    out: &mut Mb,
) -> Result<(), Fault>
    requires quant { IsQuant next.quant }
    requires order { next.first ≤ next.at }
    requires within { next.at < mbs_of header.now.format }
    requires vectors { length vectors.now ≡ next.at }
    ensures reads { Gives (λ _. out.new) result reader.new
        (reading (mb header.now.kind next.quant (reach_of header.now.format next.at)
        (predictor_of vectors.now next.first next.at (columns_of header.now.format))) reader.old) }
    ensures range { IfOk result (λ _. IsMbAt header.now next.at out.new) }
{
    if pass_skipped(reader, header.kind) {
        *out = Mb::Skip;
        return Ok(());
    }
    let predictor = predictor(vectors, next.first, next.at, header.format.columns());
    let reach = reach_of(header.format, next.at);
    read_mb(reader, header.kind, next.quant, predictor, reach, out)
}

// The next macroblock. In an I picture no vector is predicted.
fn read_next(
    reader: &mut BitReader<'_>,
    header: &Header,
    next: Next,
    vectors: &[Vector],
    out: &mut Mb,
) -> Result<(), Fault>
    requires quant { IsQuant next.quant }
    requires order { next.first ≤ next.at }
    requires within { next.at < mbs_of header.now.format }
    requires vectors { length vectors.now ≡ next.at }
    ensures reads { Gives (λ _. out.new) result reader.new
        (reading (mb header.now.kind next.quant (reach_of header.now.format next.at)
        (predictor_of vectors.now next.first next.at (columns_of header.now.format))) reader.old) }
    ensures range { IfOk result (λ _. IsMbAt header.now next.at out.new) }
{
    match header.kind {
        Kind::I => read_mb_in_i(reader, next.quant, out),
        Kind::P => read_near(reader, header, next, vectors, out),
    }
}

// The macroblocks of a slice from number `first` on, up to the padding, into their places.
fn read_body(
    reader: &mut BitReader<'_>,
    header: &Header,
    first: u32,
    quant: u8,
    out: &mut [Mb],
) -> Result<SliceHead, Fault>
    requires quant { IsQuant quant }
    requires first { first < mbs_of header.now.format }
    requires picture { length out.old ≡ mbs_of header.now.format }
    ensures exact { Fills result out.new (body_at header.now first quant reader.old) }
    ensures left { IfOk result (λ _. is_padding reader.new.bits ≡ true) }
    ensures range { IfOk result (IsSliceIn header.now out.new) }
    ensures others { IfOk result (AreOthersSame out.old out.new) }
    ensures size { length out.new ≡ length out.old }
{
    let mut vectors = [Vector::ZERO; 396];
    let mut quant = quant;
    let mut at = first;
    'mbs: while !is_padding(reader) {
        if at == header.format.mbs() {
            return Err(FaultKind::Trailing.at(reader.at()));
        }
        let k = at as usize;
        let next = Next { at, first, quant };
        read_next(reader, header, next, &vectors[..k], &mut out[k])?;
        quant = quant_after(quant, &out[k]);
        vectors[k] = vector_of(&out[k]);
        at += 1;
    }
    if at == first {
        return Err(FaultKind::Empty.at(reader.at()));
    }
    Ok(SliceHead {
        first,
        count: at - first,
    })
}

/// Reads a slice of the picture with this header (H.263, Annex K), up to the end of the bits.
/// `begins` says that the picture header stood just before. `out` has all macroblocks of the
/// picture, by number, and is filled from the slice's first on; after a fault it is left open.
#[tactic(auto, unfolding(crate::specs::Text::slice_at))]
pub fn read_slice(
    reader: &mut BitReader<'_>,
    header: &Header,
    begins: bool,
    out: &mut [Mb],
) -> Result<SliceHead, Fault>
    requires header { IsHeader header.now }
    requires picture { length out.old ≡ mbs_of header.now.format }
    // What is read is spelled by the bits.
    ensures found { IfOk result (λ head. IsSliceText header.now begins head.first
        (mbs_from head.first head.count out.new) reader.old.bits) }
    // What they spell is read.
    ensures only { (first : ℕ) (mbs : List Mb) → IsSliceText
        header.now begins first mbs reader.old.bits → IsOkAnd result (λ head. (head.first ≡ first)
        × (head.count ≡ length mbs) × (mbs_from head.first head.count out.new ≡ mbs)) }
    // Otherwise it is the first fault, at its place.
    ensures fault { first_fault result ≡ slice_fault header.now begins reader.old }
    ensures exact { Fills result out.new (slice_at header.now begins reader.old) }
    // Only padding is left.
    ensures left { IfOk result (λ _. is_padding reader.new.bits ≡ true) }
    ensures range { IfOk result (IsSliceIn header.now out.new) }
    // The other macroblocks stay as they were.
    ensures others { IfOk result (AreOthersSame out.old out.new) }
    ensures size { length out.new ≡ length out.old }
{
    macroblock_layer_laws::in_a_syntax();
    let (first, quant) = read_head(reader, header, begins)?;
    read_body(reader, header, first, quant, out)
}

//! The choice of a macroblock.
ghost use Rattle.std.specs.Prelude.{◌≡◌, ℕ, ◌<◌, ◌≤◌, Some, replicate};
ghost use Rattle.std.specs.Option.{option_map};
ghost use Rattle.h263_types.specs.Blocks.{HasQuant, IsMb, IsOfKind, IsQuant};
ghost use Rattle.h263_types.specs.References.{ReachesInside};
ghost use Rattle.h263_types.specs.Sizes.{mbs_of};
ghost use Rattle.h263_types.specs.declared.blocks.Mb.TheVariants.{Skip};
ghost use Rattle.h263_types.specs.declared.vector.Vector.{Vector};
ghost use Rattle.h263_planes.specs.Lent.{picture};
ghost use Rattle.h263_planes.specs.Picture.{Picture};
ghost use Rattle.h263_planes.specs.References.{HasReferenceOnlyInP};
ghost use Rattle.half_sample.specs.Macroblock.{IsPredicted, IsPredictionOf};
ghost use Rattle.motion_search.specs.Areas.{AreSumsOf, AreSumsOfAny};
ghost use Rattle.motion_search.specs.Cost.{samples_of, IsCost};
ghost use Rattle.quantiser.specs.Factors.{IsFactor};
ghost use Rattle.mode_choice.specs.Choice as choice;
ghost use Rattle.mode_choice.specs.Guess.{vector_in};
ghost use Rattle.h263_types.specs.Marks.{AreMarksOfFirst, IsMarked};
ghost use Rattle.mode_choice.specs.Walk.{zero_block};

use crate::chosen::{Chosen, predict_into};
use crate::coefficients::Quantisation;
use crate::deviation::{deviation, halves_apart, luma_samples};
use crate::intra::intra_block;
use crate::laws;
use crate::predicted::block_residuals;
use crate::residual::{are_empty, residual_block};
use crate::samples::block_samples;
use h263_planes::PictureRef;
use h263_types::{Block, MarkedMb, Mb, Params, Vector, laws as types_laws};
use half_sample::Predicted;
use motion_search::search_from;
use picture_header::Header;
use quantiser::factor_of;

/// The macroblock that is coded at place `mb` of `frame`, by the quantiser of the header and with
/// the first `keep` places of each block's zigzag order. Without a reference, which only a P picture
/// has, it is coded by itself; else the motion search of `radius` whole samples decides whether it
/// is predicted, coded by itself, or not coded at all.
pub fn choose(
    frame: PictureRef<'_>,
    reference: Option<PictureRef<'_>>,
    mb: u32,
    header: &Header,
    params: &Params,
) -> Mb
    requires reference { HasReferenceOnlyInP header.now.kind
        (picture frame).format (option_map picture reference) }
    requires quant { IsQuant header.now.quant }
    requires rounding { header.now.rounding ≤ 1 }
    requires radius { params.now.radius ≤ 15 }
    requires mb { mb < mbs_of (picture frame).format }
    ensures choice { result ≡ choice.choice_of
        (picture frame.entry) (option_map picture reference.entry) header.now params.now mb }
    ensures in_range { IsMb result }
    ensures of_kind { IsOfKind header.now.kind result }
    ensures reach { ReachesInside (picture frame.entry).format mb result }
    ensures plain { HasQuant header.now.quant result }
{
    let mut chosen = Chosen::new();
    choose_into(frame, reference, mb, header, params, &mut chosen);
    chosen.marked.mb
}

/// Writes what [`choose`] answers into its place, with the marks of its blocks and what the vector
/// of an inter macroblock predicts. The choice is the same whatever the place held before. Where
/// that is an inter macroblock the search begins at its vector, so the choice comes sooner if it is
/// a neighbour's, and its sums are those of this reference: a new place for each picture.
pub fn choose_into(
    frame: PictureRef<'_>,
    reference: Option<PictureRef<'_>>,
    mb: u32,
    header: &Header,
    params: &Params,
    out: &mut Chosen,
)
    requires reference { HasReferenceOnlyInP header.now.kind
        (picture frame).format (option_map picture reference) }
    requires quant { IsQuant header.now.quant }
    requires rounding { header.now.rounding ≤ 1 }
    requires radius { params.now.radius ≤ 15 }
    requires mb { mb < mbs_of (picture frame).format }
    requires sums { AreSumsOfAny (option_map picture reference) out.old.sums }
    ensures choice { out.new.marked.mb ≡ choice.choice_of
        (picture frame.entry) (option_map picture reference.entry) header.now params.now mb }
    ensures in_range { IsMb out.new.marked.mb }
    ensures of_kind { IsOfKind header.now.kind out.new.marked.mb }
    ensures reach { ReachesInside (picture frame.entry).format mb out.new.marked.mb }
    ensures plain { HasQuant header.now.quant out.new.marked.mb }
    ensures marks { IsMarked out.new.marked }
    ensures predicted { IsPredictionOf header.now.rounding (option_map picture reference.entry)
        mb out.new.marked.mb out.new.predicted }
    ensures sums { AreSumsOfAny (option_map picture reference.entry) out.new.sums }
{
    laws::chosen_is_in_range();
    match reference {
        None => {
            let (quant, keep) = (header.quant, params.keep);
            intra_macroblock(frame, mb, quant, keep, &mut out.marked)
        }
        Some(reference) => macroblock_in_p(frame, reference, mb, header, params, out),
    }
}

// The choice where there is a reference: by itself where the macroblock's samples lie nearer to
// their mean than to what the best vector predicts.
fn macroblock_in_p(
    frame: PictureRef<'_>,
    reference: PictureRef<'_>,
    mb: u32,
    header: &Header,
    params: &Params,
    out: &mut Chosen,
)
    requires format { (picture frame).format ≡ (picture reference).format }
    requires quant { IsQuant header.now.quant }
    requires rounding { header.now.rounding ≤ 1 }
    requires radius { params.now.radius ≤ 15 }
    requires mb { mb < mbs_of (picture frame).format }
    requires sums { AreSumsOf (picture reference) out.old.sums }
    ensures choice { out.new.marked.mb ≡ choice.choice_in_p
        (picture frame.entry) (picture reference.entry) header.now params.now mb }
    ensures predicted { IsPredictionOf header.now.rounding (Some (picture reference.entry))
        mb out.new.marked.mb out.new.predicted }
    ensures marks { IsMarked out.new.marked }
    ensures sums { AreSumsOf (picture reference.entry) out.new.sums }
{
    let guess = vector_of(&out.marked.mb);
    let radius = params.radius;
    let sums = &mut out.sums;
    let (vector, cost) = search_from(frame, reference, mb, radius, header.rounding, guess, sums);
    if is_nearer_to_mean(frame, mb, cost) {
        let (quant, keep) = (header.quant, params.keep);
        intra_macroblock(frame, mb, quant, keep, &mut out.marked);
        return;
    }
    predict_into(reference, mb, vector, header.rounding, &mut out.predicted);
    let quantisation = Quantisation {
        quant: header.quant,
        factor: factor_of(header.quant),
        keep: params.keep,
    };
    inter_macroblock(
        frame,
        mb,
        vector,
        quantisation,
        &out.predicted,
        &mut out.marked,
    );
}

// The vector of a macroblock; where it has none, the zero vector.
fn vector_of(mb: &Mb) -> Vector
    ensures { result ≡ vector_in mb.now }
{
    match mb {
        Mb::Inter { vector, .. } => *vector,
        _ => Vector::ZERO,
    }
}

// Whether a macroblock is coded by itself, where the best vector costs this much: at 500 or less it
// isn't, nor where its halves lie too far apart. Then its mean isn't asked for.
fn is_nearer_to_mean(frame: PictureRef<'_>, mb: u32, cost: i32) -> bool
    requires mb { mb < mbs_of (picture frame).format }
    requires cost { IsCost cost }
    ensures { result
        ≡ choice.chooses_intra (choice.deviation_of (samples_of (picture frame.entry) mb)) cost }
{
    if cost <= 500 {
        return false;
    }
    let samples = luma_samples(frame, mb);
    if is_intra(halves_apart(&samples), cost) {
        is_intra(deviation(&samples), cost)
    } else {
        false
    }
}

// The same by the sum of the differences from the mean.
fn is_intra(deviation: u32, cost: i32) -> bool
    requires deviation { deviation ≤ 65280 }
    requires cost { IsCost cost }
    ensures { result ≡ choice.chooses_intra deviation cost }
{
    (deviation as i32) < cost - 500
}

// The macroblock predicted by a vector, whose samples are given. Its levels and their marks are
// written where they stay.
fn inter_macroblock(
    frame: PictureRef<'_>,
    mb: u32,
    vector: Vector,
    quantisation: Quantisation,
    predicted: &Predicted,
    out: &mut MarkedMb,
)
    requires quant { IsQuant quantisation.quant }
    requires factor { IsFactor quantisation.quant quantisation.factor }
    requires mb { mb < mbs_of (picture frame).format }
    ensures choice { (reference : Picture) (r : ℕ) → IsPredicted reference mb vector r predicted.now
        → out.new.mb ≡ choice.inter_of (picture frame.entry) reference
        quantisation.quant quantisation.keep r mb vector }
    ensures marks { IsMarked out.new }
{
    out.mb = Mb::Inter {
        quant: quantisation.quant,
        vector,
        blocks: [Block { levels: [0; 64] }; 6],
    };
    match &mut out.mb {
        Mb::Inter { blocks, .. } => {
            inter_blocks(frame, mb, quantisation, predicted, blocks, &mut out.coded);
            if is_skipped(vector, blocks, &out.coded) {
                put_skip(&mut out.mb);
            }
        }
        _ => {}
    }
}

// Writes a macroblock that isn't coded. It stays a call, since it clears all bytes of a macroblock:
// inline, that many would be cleared in a place apart first, for every macroblock.
#[inline(never)]
fn put_skip(out: &mut Mb)
    ensures { out.new ≡ Skip }
{
    *out = Mb::Skip;
}

// Whether the vector is zero and no level is left, as the marks tell.
fn is_skipped(vector: Vector, blocks: &[Block; 6], marks: &[u64; 6]) -> bool
    requires marks { AreMarksOfFirst 6 blocks.now marks.now }
    ensures { result ≡ choice.is_skipped vector blocks.now }
{
    vector.x == 0 && vector.y == 0 && are_empty(blocks, marks)
}

// Puts the levels of what a prediction leaves of a macroblock's six blocks into zeros, and their
// marks into their place.
fn inter_blocks(
    frame: PictureRef<'_>,
    mb: u32,
    quantisation: Quantisation,
    predicted: &Predicted,
    out: &mut [Block; 6],
    marks: &mut [u64; 6],
)
    requires quant { IsQuant quantisation.quant }
    requires factor { IsFactor quantisation.quant quantisation.factor }
    requires mb { mb < mbs_of (picture frame).format }
    requires zeros { out.old ≡ replicate 6 zero_block }
    ensures blocks { (reference : Picture) (r : ℕ)
        (v : Vector) → IsPredicted reference mb v r predicted.now → out.new
        ≡ choice.residual_blocks_of (picture frame.entry) reference
        quantisation.quant quantisation.keep r mb v }
    ensures marks { AreMarksOfFirst 6 out.new marks.new }
{
    types_laws::one_more::<Block>();
    let mut residuals = [0; 64];
    for block in 0..6u32 {
        block_residuals(frame, mb, block, predicted, &mut residuals);
        let k = block as usize;
        marks[k] = residual_block(quantisation, &residuals, &mut out[k]);
    }
}

// The macroblock coded by itself. Its levels and their marks are written where they stay.
fn intra_macroblock(frame: PictureRef<'_>, mb: u32, quant: u8, keep: u8, out: &mut MarkedMb)
    requires quant { IsQuant quant }
    requires mb { mb < mbs_of (picture frame).format }
    ensures choice { out.new.mb ≡ choice.intra_of (picture frame.entry) quant keep mb }
    ensures marks { IsMarked out.new }
{
    out.mb = Mb::Intra {
        quant,
        blocks: [Block { levels: [0; 64] }; 6],
    };
    let quantisation = Quantisation {
        quant,
        factor: factor_of(quant),
        keep,
    };
    match &mut out.mb {
        Mb::Intra { blocks, .. } => intra_blocks(frame, mb, quantisation, blocks, &mut out.coded),
        _ => {}
    }
}

// Puts the levels of a macroblock's six blocks into zeros, and their marks into their place.
fn intra_blocks(
    frame: PictureRef<'_>,
    mb: u32,
    quantisation: Quantisation,
    out: &mut [Block; 6],
    marks: &mut [u64; 6],
)
    requires quant { IsQuant quantisation.quant }
    requires factor { IsFactor quantisation.quant quantisation.factor }
    requires mb { mb < mbs_of (picture frame).format }
    requires zeros { out.old ≡ replicate 6 zero_block }
    ensures blocks { out.new
        ≡ choice.blocks_of (picture frame.entry) quantisation.quant quantisation.keep mb }
    ensures marks { AreMarksOfFirst 6 out.new marks.new }
{
    types_laws::one_more::<Block>();
    let mut samples = [0; 64];
    for block in 0..6u32 {
        block_samples(frame, mb, block, &mut samples);
        let k = block as usize;
        marks[k] = intra_block(quantisation, &samples, &mut out[k]);
    }
}

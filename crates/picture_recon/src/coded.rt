//! The blocks of a macroblock, drawn from their levels (H.263, 6.2 and 6.3).
ghost use Rattle.std.specs.Prelude.{◌≡◌, ◌<◌, All};
ghost use Rattle.h263_types.specs.Blocks.{IsInterBlock, IsIntraBlock, IsQuant};
ghost use Rattle.h263_types.specs.Sizes.{mbs_of};
ghost use Rattle.h263_planes.specs.Samples.{IsPicture};
ghost use Rattle.h263_planes.specs.Work.{loan_of, work};
ghost use Rattle.picture_recon.specs.Coded.{SetsBlock, SetsBlocks, added_sample, intra_sample};
ghost use Rattle.picture_recon.specs.Marks.{AreMarked, AreMarkedIn};
ghost use Rattle.picture_recon.specs.Samples.{block_in};

use crate::blocks::{put_block, put_samples, samples_at};
use crate::values::{inter_samples, two_intra};
use h263_planes::{PictureMut, block_corner};
use h263_types::{Block, Format};
use idct8::laws as idct8_laws;
use quantiser::laws as quantiser_laws;

// Draws the blocks of intra macroblock `at`, whose marks are given. `two_intra` is asked in one place, so that it is
// compiled there: as a call it takes more than to tell the planes apart.
#[inline(always)]
pub(crate) fn draw_blocks(
    quant: u8,
    blocks: &[Block; 6],
    marks: &[u64; 6],
    at: u32,
    format: Format,
    out: &mut PictureMut<'_>,
)
    requires format { (work out.old).format ≡ format }
    requires at { at < mbs_of format }
    requires quant { IsQuant quant }
    requires blocks { All IsIntraBlock blocks.now }
    requires marks { AreMarkedIn blocks.now marks.now }
    requires whole { IsPicture (work out.old) }
    ensures same_loan { loan_of out.new ≡ loan_of out.old }
    ensures format { (work out.new).format ≡ format }
    ensures whole { IsPicture (work out.new) }
    ensures samples { SetsBlocks format at 6
        (λ b old y x. intra_sample quant (block_in blocks.now b) y x)
        (work out.old) (work out.new) }
{
    for pair in 0..3u32 {
        let block = 2 * pair;
        let (one, next) = two_intra(quant, blocks, marks, block);
        put_block(out, format, at, block, &one);
        put_block(out, format, at, block + 1, &next);
    }
}

// Adds what the levels of an inter macroblock's blocks stand for to the samples of macroblock `at`.
#[inline(always)]
pub(crate) fn add_blocks(
    quant: u8,
    blocks: &[Block; 6],
    marks: &[u64; 6],
    at: u32,
    format: Format,
    out: &mut PictureMut<'_>,
)
    requires format { (work out.old).format ≡ format }
    requires at { at < mbs_of format }
    requires quant { IsQuant quant }
    requires blocks { All IsInterBlock blocks.now }
    requires marks { AreMarkedIn blocks.now marks.now }
    requires whole { IsPicture (work out.old) }
    ensures same_loan { loan_of out.new ≡ loan_of out.old }
    ensures format { (work out.new).format ≡ format }
    ensures whole { IsPicture (work out.new) }
    ensures samples { SetsBlocks format at 6
        (λ b. added_sample quant (block_in blocks.now b)) (work out.old) (work out.new) }
{
    for block in 0..4u32 {
        let k = block as usize;
        add_block(quant, &blocks[k], marks[k], at, block, format, out);
    }
    add_block(quant, &blocks[4], marks[4], at, 4, format, out);
    add_block(quant, &blocks[5], marks[5], at, 5, format, out);
}

// Adds what its levels stand for to the samples of block `block` of macroblock `at`.
#[inline(always)]
fn add_block(
    quant: u8,
    levels: &Block,
    marks: u64,
    at: u32,
    block: u32,
    format: Format,
    out: &mut PictureMut<'_>,
)
    requires format { (work out.old).format ≡ format }
    requires at { at < mbs_of format }
    requires block { block < 6 }
    requires quant { IsQuant quant }
    requires levels { IsInterBlock levels.now }
    requires marked { AreMarked levels.now.levels marks }
    requires whole { IsPicture (work out.old) }
    ensures same_loan { loan_of out.new ≡ loan_of out.old }
    ensures format { (work out.new).format ≡ format }
    ensures whole { IsPicture (work out.new) }
    ensures samples { SetsBlock format at block
        (added_sample quant levels.now) (work out.old) (work out.new) }
{
    if marks == 0 {
        quantiser_laws::one_order();
        idct8_laws::zeros_give_zeros();
        return;
    }
    let corner = block_corner(format, at, block);
    let predicted = samples_at(out.seen(), corner);
    let samples = inter_samples(quant, levels, marks, &predicted);
    put_samples(out, corner, &samples);
}

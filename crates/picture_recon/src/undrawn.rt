//! Intra pictures that aren't drawn yet.
ghost use Rattle.std.specs.Prelude.{◌≡◌, ◌≢◌, ℕ, ◌+◌, ◌*◌, ◌<◌, ◌≤ℤ◌, All, map, neg_ℤ, pos, slice_index, Option};
ghost use Rattle.std.specs.List.{range_with_len};
ghost use Rattle.h263_types.specs.Blocks.{HasQuant, IsIntraBlock, IsMb, IsOfKind, IsQuant, level_at};
ghost use Rattle.h263_types.specs.Sizes.{mbs_of};
ghost use Rattle.h263_types.specs.declared.Kind.TheVariants.{I};
ghost use Rattle.h263_planes.specs.Lent.{picture};
ghost use Rattle.h263_planes.specs.Picture.{Picture};
ghost use Rattle.h263_planes.specs.Samples.{IsPicture};
ghost use Rattle.h263_planes.specs.Work.{loan_of, work};
ghost use Rattle.picture_recon.specs.Coded.{SetsBlocks};
ghost use Rattle.picture_recon.specs.Samples.{block_in, reconstruction};
ghost use Rattle.picture_recon.specs.Undrawn.{block_of_bytes, byte_of_level, level_by_byte, undrawn_block, undrawn_mb, undrawn_mbs};

use crate::blocks::{put_block, samples_at};
use crate::laws;
use crate::macroblocks::put_intra;
use crate::values::marks_of_six;
use h263_planes::{PictureMut, PictureRef, block_corner};
use h263_types::{Block, Format, Mb};

/// Writes the levels of intra macroblock `at` where its samples are to stand: a block has as many
/// of both, and each level is a byte. The other macroblocks stay.
pub fn put_undrawn(mb: &Mb, at: u32, format: Format, out: &mut PictureMut<'_>)
    requires format { (work out.old).format ≡ format }
    requires at { at < mbs_of format }
    requires intra { IsOfKind I mb.now }
    requires in_range { IsMb mb.now }
    ensures same_loan { loan_of out.new ≡ loan_of out.old }
    ensures format { (work out.new).format ≡ format }
    ensures whole { IsPicture (work out.new) }
    ensures put { (quant : ℕ) → HasQuant quant mb.now → undrawn_mb quant (work out.new) at ≡ mb.now }
    ensures others { (quant other : ℕ) → other < mbs_of format → other ≢ at
        → undrawn_mb quant (work out.new) other ≡ undrawn_mb quant (work out.old) other }
{
    out.is_picture();
    mb.is_whole();
    match mb {
        Mb::Intra { quant: _, blocks } => put_levels(blocks, at, format, out),
        _ => {}
    }
}

// Writes the levels of the blocks of macroblock `at`.
#[inline(always)]
fn put_levels(blocks: &[Block; 6], at: u32, format: Format, out: &mut PictureMut<'_>)
    requires format { (work out.old).format ≡ format }
    requires at { at < mbs_of format }
    requires blocks { All IsIntraBlock blocks.now }
    requires whole { IsPicture (work out.old) }
    ensures same_loan { loan_of out.new ≡ loan_of out.old }
    ensures format { (work out.new).format ≡ format }
    ensures whole { IsPicture (work out.new) }
    ensures bytes { SetsBlocks format at 6
        (λ b old y x. byte_of_level (level_at (block_in blocks.now b) (8 * y + x)))
        (work out.old) (work out.new) }
{
    for block in 0..6u32 {
        put_block(out, format, at, block, &bytes_of(&blocks[block as usize]));
    }
}

// The levels of a block as bytes.
#[inline(always)]
fn bytes_of(block: &Block) -> [u8; 64]
    requires { IsIntraBlock block.now }
    ensures { (k : ℕ) → k < 64 → slice_index result k ≡ byte_of_level (level_at block.now k) }
{
    let mut bytes = [0; 64];
    for k in 0..64 {
        bytes[k] = byte(block.levels[k]);
    }
    bytes
}

// A level as a byte.
#[inline(always)]
fn byte(level: i16) -> u8
    requires low { neg_ℤ (pos 128) ≤ℤ level }
    requires high { level ≤ℤ pos 255 }
    ensures { result ≡ byte_of_level level }
{
    if level < 0 {
        (level + 256) as u8
    } else {
        level as u8
    }
}

/// Draws an intra picture that isn't drawn yet into `out`, by the quantiser of its macroblocks.
pub fn draw_undrawn(quant: u8, undrawn: PictureRef<'_>, out: &mut PictureMut<'_>)
    requires format { (work out.old).format ≡ (picture undrawn).format }
    requires quant { IsQuant quant }
    requires in_range { (at : ℕ) → at < mbs_of (picture undrawn).format
        → IsMb (undrawn_mb quant (picture undrawn) at) }
    ensures same_loan { loan_of out.new ≡ loan_of out.old }
    ensures format { (work out.new).format ≡ (picture undrawn.entry).format }
    ensures whole { IsPicture (work out.new) }
    ensures drawn { (rounding : ℕ) (reference : Option Picture) → work out.new
        ≡ reconstruction (picture undrawn.entry).format rounding reference
        (undrawn_mbs quant (picture undrawn.entry)) }
{
    laws::shown_one_by_one();
    out.is_picture();
    let format = undrawn.format();
    for at in 0..format.mbs() {
        let blocks = blocks_at(undrawn, at);
        put_intra(quant, &blocks, &marks_of_six(&blocks), at, format, out);
    }
}

// The blocks of macroblock `at`.
#[inline(always)]
fn blocks_at(undrawn: PictureRef<'_>, at: u32) -> [Block; 6]
    requires { at < mbs_of (picture undrawn).format }
    ensures { result ≡ map (undrawn_block (picture undrawn.entry) at) (range_with_len 0 6) }
{
    [
        block_at(undrawn, at, 0),
        block_at(undrawn, at, 1),
        block_at(undrawn, at, 2),
        block_at(undrawn, at, 3),
        block_at(undrawn, at, 4),
        block_at(undrawn, at, 5),
    ]
}

// Block `block` of macroblock `at`.
#[inline(always)]
fn block_at(undrawn: PictureRef<'_>, at: u32, block: u32) -> Block
    requires at { at < mbs_of (picture undrawn).format }
    requires block { block < 6 }
    ensures { result ≡ undrawn_block (picture undrawn.entry) at block }
{
    levels_of(&samples_at(undrawn, block_corner(undrawn.format(), at, block)))
}

// The levels of a block by their bytes.
#[inline(always)]
fn levels_of(bytes: &[u8; 64]) -> Block
    ensures { result ≡ block_of_bytes (λ k. slice_index bytes.now k) }
{
    let mut levels = [0; 64];
    for k in 0..64 {
        levels[k] = level(bytes[k]);
    }
    levels[0] = dc(bytes[0]);
    Block { levels }
}

// A level by its byte.
#[inline(always)]
fn level(byte: u8) -> i16
    ensures { result ≡ level_by_byte 1 byte }
{
    if byte < 128 {
        i16::from(byte)
    } else {
        i16::from(byte) - 256
    }
}

// INTRADC by its byte.
#[inline(always)]
fn dc(byte: u8) -> i16
    ensures value { result ≡ pos byte }
    ensures range { byte < 256 }
{
    i16::from(byte)
}

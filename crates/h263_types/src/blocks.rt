//! Macroblocks and the slices that hold them, as the codec has them between text and samples.
ghost use Rattle.std.specs.Prelude.{◌≡◌, length};
ghost use Rattle.h263_types.specs.Blocks.{AreWhole, HasWholeBlocks};
ghost use Rattle.h263_types.specs.Marks.{AreMarksOfFirst, HasMarks, IsMarked, marks_of};

use crate::vector::Vector;
use std::simd::prelude::*;

/// The 64 levels of a block in zigzag order (H.263, 6.2.3), each from -127 to 127 (5.4.2). In a
/// block of an intra macroblock place 0 is the INTRADC value, 1 to 254.
#[derive(Clone, Copy, PartialEq, Eq)]
pub struct Block {
    pub levels: [i16; 64],
}

impl Block {
    /// A bit for each level that isn't 0, the lowest for the first place.
    #[inline(always)]
    pub fn marks(self) -> u64
        ensures marks { result ≡ marks_of self.levels }
        ensures whole { length self.levels ≡ 64 }
    {
        marks(self.levels)
    }
}

// All levels are compared at once.
#[inline(always)]
fn marks(levels: [i16; 64]) -> u64
    ensures marks { result ≡ marks_of levels }
    ensures whole { length levels ≡ 64 }
{
    let zeros = i16x64::splat(0);
    i16x64::from_array(levels).simd_ne(zeros).to_bitmask()
}

/// A macroblock: 16 x 16 samples of luma and 8 x 8 of each colour. Its six blocks are four of luma
/// in reading order, Cb, Cr; `quant` is the quantiser in force in it, 1 to 31 (H.263, 5.3).
#[derive(Clone, Copy, PartialEq, Eq)]
pub enum Mb {
    /// The samples of the reference at the same place.
    Skip,
    /// Coded by itself.
    Intra {
        quant: u8,
        blocks: [Block; 6],
    },
    /// What the prediction by `vector`, each component from -32 to 31, leaves.
    Inter {
        quant: u8,
        vector: Vector,
        blocks: [Block; 6],
    },
}

impl Mb {
    /// Does nothing; its clause says of a borrowed macroblock what its type says of one by value.
    pub fn is_whole(&self)
        ensures whole { HasWholeBlocks self.now }
    {
        match self {
            Mb::Skip => {}
            Mb::Intra { quant: _, blocks } => are_whole(blocks),
            Mb::Inter {
                quant: _,
                vector: _,
                blocks,
            } => are_whole(blocks),
        }
    }
}

// The length of an array is known once it is seen as a slice.
fn has_64_levels(block: &Block)
    ensures { length block.now.levels ≡ 64 }
{
    let levels: &[i16] = &block.levels;
    let _count = levels.len();
}

fn are_whole(blocks: &[Block; 6])
    ensures { AreWhole blocks.now }
{
    has_64_levels(&blocks[0]);
    has_64_levels(&blocks[1]);
    has_64_levels(&blocks[2]);
    has_64_levels(&blocks[3]);
    has_64_levels(&blocks[4]);
    has_64_levels(&blocks[5]);
}

/// A macroblock with the [`marks`](Block::marks) of its six blocks in `coded`, which are found once,
/// and not again wherever it is written or drawn. Where it has no blocks they mean nothing.
#[derive(Clone, Copy)]
pub struct MarkedMb {
    pub mb: Mb,
    pub coded: [u64; 6],
}

impl MarkedMb {
    ghost use Rattle.h263_types.specs.declared.blocks.Mb.TheVariants.{Skip};

    /// A macroblock that isn't coded.
    pub fn skip() -> MarkedMb
        ensures mb { result.mb ≡ Skip }
        ensures marked { IsMarked result }
    {
        MarkedMb {
            mb: Mb::Skip,
            coded: [0; 6],
        }
    }

    /// A copy of a macroblock, with its marks.
    pub fn of(mb: &Mb) -> MarkedMb
        ensures mb { result.mb ≡ mb.now }
        ensures marked { IsMarked result }
    {
        MarkedMb {
            mb: *mb,
            coded: marks_in(mb),
        }
    }
}

// The marks of a macroblock's six blocks: zeros where it has none.
fn marks_in(mb: &Mb) -> [u64; 6]
    ensures { HasMarks mb.now result }
{
    match mb {
        Mb::Skip => [0; 6],
        Mb::Intra { quant: _, blocks } => marks_of_six(blocks),
        Mb::Inter {
            quant: _,
            vector: _,
            blocks,
        } => marks_of_six(blocks),
    }
}

fn marks_of_six(blocks: &[Block; 6]) -> [u64; 6]
    ensures marks { AreMarksOfFirst 6 blocks.now result }
{
    [
        blocks[0].marks(),
        blocks[1].marks(),
        blocks[2].marks(),
        blocks[3].marks(),
        blocks[4].marks(),
        blocks[5].marks(),
    ]
}

/// The macroblocks of a slice (H.263, Annex K): `count` of them, at least one, from number `first`
/// on.
#[derive(Clone, Copy, Debug, PartialEq, Eq)]
pub struct SliceHead {
    pub first: u32,
    pub count: u32,
}

//! Writes a macroblock, from COD to its last block (H.263, 5.3).
ghost use Rattle.std.specs.Prelude.{◌≡◌, ◌≢◌, ℕ, ◌+◌, ◌*◌, ◌^◌, ◌<◌, ◌≤◌, ◌++◌, List, Bool, ℤ, true, false, [], length, All, slice_index_or, pos, negsuc, ◌≤ℤ◌, ◌+ℤ◌, ◌-ℤ◌, ◌==◌, if◌then◌else◌};
ghost use Rattle.h263_bits.specs.Bits.{spelled};
ghost use Rattle.h263_bits.specs.Written.{Appends, len_of, room_of};
ghost use Rattle.h263_types.specs.declared.Kind.TheVariants as kinds;
ghost use Rattle.h263_types.specs.declared.vector.Reach.{Reach};
ghost use Rattle.h263_types.specs.declared.blocks.Block.{Block};
ghost use Rattle.h263_types.specs.Blocks.{IsQuant, IsVector, IsIntraBlock, IsInterBlock, IsIntraMb, IsInterMb, IsMb, IsOfKind, AreWhole};
ghost use Rattle.h263_types.specs.Marks.{AreMarksOfFirst, IsMarked};
ghost use Rattle.code_tables.specs.declared.macroblock.MbClass.{MbClass};
ghost use Rattle.code_tables.specs.declared.macroblock.Mcbpc.TheVariants.{Word};
ghost use Rattle.code_tables.specs.Mcbpc.{IsInTable};
ghost use Rattle.code_tables.specs.Tables.{bit_of, cbpy_text};
ghost use Rattle.block_layer.specs.Text.{none_left, is_coded, is_block_coded, intra_text, inter_text};
ghost use Rattle.macroblock_layer.specs.Text.{wrapped, IsMbText};
ghost use Rattle.macroblock_layer.specs.Written.{levels_at, cbpy_of, cbpc_of, class_of, cod_text, class_text, step_text, mb_head_text, vector_text, blocks_text, intra_mb_text, inter_mb_text, mb_text, DquantReaches, IsStepped, IsReached};

use crate::laws;
use crate::reading::wrapped;
use block_layer::{is_coded_by, write_inter_marked, write_intra_marked};
use code_tables::{MbClass, Mcbpc, cbpy_number, mcbpc_number, mvd_number, write_dquant};
use h263_bits::BitWriter;
use h263_types::{Block, Kind, MarkedMb, Mb, Vector};

// Which of the six blocks are coded.
#[derive(Clone, Copy)]
struct Pattern {
    cbpy: u8,
    cbpc: u8,
}

fn cbpy(a: bool, b: bool, c: bool, d: bool) -> u8
    ensures value { result ≡ 8 * bit_of a + 4 * bit_of b + 2 * bit_of c + bit_of d }
    ensures below { result < 16 }
{
    8 * a as u8 + 4 * b as u8 + 2 * c as u8 + d as u8
}

fn cbpc(a: bool, b: bool) -> u8
    ensures value { result ≡ 2 * bit_of a + bit_of b }
    ensures below { result < 4 }
{
    2 * a as u8 + b as u8
}

// Which of the six blocks of a macroblock are coded, by their marks.
fn pattern_by(intra: bool, marks: &[u64; 6]) -> Pattern
    ensures cbpy { (blocks : List Block)
        → AreMarksOfFirst 6 blocks marks.now → result.cbpy ≡ cbpy_of (is_block_coded intra) blocks }
    ensures cbpc { (blocks : List Block)
        → AreMarksOfFirst 6 blocks marks.now → result.cbpc ≡ cbpc_of (is_block_coded intra) blocks }
    ensures cbpy_below { result.cbpy < 16 }
    ensures cbpc_below { result.cbpc < 4 }
{
    let a = is_coded_by(intra, marks[0]);
    let b = is_coded_by(intra, marks[1]);
    let c = is_coded_by(intra, marks[2]);
    let d = is_coded_by(intra, marks[3]);
    let e = is_coded_by(intra, marks[4]);
    let f = is_coded_by(intra, marks[5]);
    Pattern {
        cbpy: cbpy(a, b, c, d),
        cbpc: cbpc(e, f),
    }
}

// The plain class where the quantiser is as before, and the Q class else.
fn class(intra: bool, same: bool) -> MbClass
    ensures { result ≡ class_of intra same }
{
    match (intra, same) {
        (true, true) => MbClass::Intra,
        (true, false) => MbClass::IntraQ,
        (false, true) => MbClass::Inter,
        (false, false) => MbClass::InterQ,
    }
}

// The bits of a number and those of another after it, as one.
#[inline(always)]
fn joined(first: u32, n: u32, second: u32, m: u32) -> u32
    requires first { first < 2 ^ n }
    requires second { second < 2 ^ m }
    requires few { n + m ≤ 32 }
    requires some { m < 32 }
    ensures text { spelled (n + m) result ≡ spelled n first ++ spelled m second }
    ensures fits { result < 2 ^ (n + m) }
{
    (first << m) + second
}

// COD of a macroblock that is coded, and MCBPC, as a number, and how many bits it has.
#[tactic(auto, unfolding(crate::specs::Written::class_text))]
fn class_number(kind: Kind, class: MbClass, cbpc: u8) -> (u32, u32)
    requires table { IsInTable kind (Word class cbpc) }
    ensures text { spelled result.1 result.0 ≡ class_text kind class cbpc }
    ensures fits { result.0 < 2 ^ result.1 }
    ensures few { result.1 ≤ 16 }
{
    let (word, len) = mcbpc_number(kind, &Mcbpc::Word { class, cbpc });
    match kind {
        Kind::I => (word, len),
        Kind::P => (joined(0, 1, word, len), 1 + len),
    }
}

// DQUANT, where the quantiser changes.
#[tactic(auto, unfolding(crate::specs::Written::step_text))]
fn write_step(writer: &mut BitWriter<'_>, quant: u8, new: u8)
    requires quant { quant ≤ 31 }
    requires new { new ≤ 31 }
    requires near { DquantReaches quant new }
    requires room { len_of writer.old + length (step_text quant new) ≤ room_of writer.old }
    ensures bits { Appends writer.old writer.new (step_text quant new) }
    ensures len { len_of writer.new ≡ len_of writer.old + length (step_text quant new) }
{
    if new != quant {
        write_dquant(writer, new as i8 - quant as i8);
    }
}

#[tactic(auto, unfolding(crate::specs::Written::mb_head_text))]
fn write_head(
    writer: &mut BitWriter<'_>,
    kind: Kind,
    quant: u8,
    new: u8,
    intra: bool,
    pattern: Pattern,
)
    requires quant { quant ≤ 31 }
    requires new { new ≤ 31 }
    requires near { DquantReaches quant new }
    requires table { IsInTable kind (Word (class_of intra (new == quant)) pattern.cbpc) }
    requires cbpy { pattern.cbpy < 16 }
    requires room { len_of writer.old
        + length (mb_head_text kind quant new intra pattern.cbpy pattern.cbpc) ≤ room_of writer.old }
    ensures bits { Appends writer.old writer.new
        (mb_head_text kind quant new intra pattern.cbpy pattern.cbpc) }
    ensures len { len_of writer.new
        ≡ len_of writer.old + length (mb_head_text kind quant new intra pattern.cbpy pattern.cbpc) }
{
    let (first, n) = class_number(kind, class(intra, new == quant), pattern.cbpc);
    let (second, m) = cbpy_number(intra, pattern.cbpy);
    writer.put(joined(first, n, second, m), n + m);
    write_step(writer, quant, new);
}

fn difference_across(vector: Vector, predictor: Vector) -> i8
    ensures wrapped { result ≡ wrapped (vector.x -ℤ predictor.x) }
    ensures low { negsuc 31 ≤ℤ result }
    ensures high { result ≤ℤ pos 31 }
{
    wrapped(vector.x as i16 - predictor.x as i16)
}

fn difference_along(vector: Vector, predictor: Vector) -> i8
    ensures wrapped { result ≡ wrapped (vector.y -ℤ predictor.y) }
    ensures low { negsuc 31 ≤ℤ result }
    ensures high { result ≤ℤ pos 31 }
{
    wrapped(vector.y as i16 - predictor.y as i16)
}

// The vector, by its difference to the predictor.
#[tactic(auto, unfolding(crate::specs::Written::vector_text))]
fn write_vector(writer: &mut BitWriter<'_>, predictor: Vector, vector: Vector)
    requires room { len_of writer.old + length (vector_text predictor vector) ≤ room_of writer.old }
    ensures bits { Appends writer.old writer.new (vector_text predictor vector) }
    ensures len { len_of writer.new ≡ len_of writer.old + length (vector_text predictor vector) }
{
    let (across, n) = mvd_number(difference_across(vector, predictor));
    let (along, m) = mvd_number(difference_along(vector, predictor));
    writer.put(joined(across, n, along, m), n + m);
}

fn write_intra_blocks(writer: &mut BitWriter<'_>, blocks: &[Block; 6], marks: &[u64; 6])
    requires blocks { All (λ (b : Block). IsIntraBlock b) blocks.now }
    requires marks { AreMarksOfFirst 6 blocks.now marks.now }
    requires whole { AreWhole blocks.now }
    requires room { len_of writer.old + length (blocks_text intra_text blocks.now)
        ≤ room_of writer.old }
    ensures bits { Appends writer.old writer.new (blocks_text intra_text blocks.now) }
    ensures len { len_of writer.new
        ≡ len_of writer.old + length (blocks_text intra_text blocks.now) }
{
    'all: for k in 0..6 {
        write_intra_marked(writer, &blocks[k], marks[k]);
    }
}

fn write_inter_blocks(writer: &mut BitWriter<'_>, blocks: &[Block; 6], marks: &[u64; 6])
    requires blocks { All (λ (b : Block). IsInterBlock b) blocks.now }
    requires marks { AreMarksOfFirst 6 blocks.now marks.now }
    requires whole { AreWhole blocks.now }
    requires room { len_of writer.old + length (blocks_text inter_text blocks.now)
        ≤ room_of writer.old }
    ensures bits { Appends writer.old writer.new (blocks_text inter_text blocks.now) }
    ensures len { len_of writer.new
        ≡ len_of writer.old + length (blocks_text inter_text blocks.now) }
{
    'all: for k in 0..6 {
        write_inter_marked(writer, &blocks[k], marks[k]);
    }
}

// The longest text of a macroblock has at most this many bits: 18 before the vector, 26 of the
// vector, and 1,408 of each block.
#[tactic(auto, unfolding(crate::specs::Written::intra_mb_text))]
fn write_intra_mb(
    writer: &mut BitWriter<'_>,
    kind: Kind,
    quant: u8,
    new: u8,
    blocks: &[Block; 6],
    marks: &[u64; 6],
)
    requires quant { quant ≤ 31 }
    requires mb { IsIntraMb new blocks.now }
    requires marks { AreMarksOfFirst 6 blocks.now marks.now }
    requires whole { AreWhole blocks.now }
    requires near { DquantReaches quant new }
    requires room { len_of writer.old + 8492 ≤ room_of writer.old }
    ensures bits { Appends writer.old writer.new (intra_mb_text kind quant new blocks.now) }
    ensures len { len_of writer.new
        ≡ len_of writer.old + length (intra_mb_text kind quant new blocks.now) }
{
    block_layer::laws::in_a_syntax();
    let pattern = pattern_by(true, marks);
    write_head(writer, kind, quant, new, true, pattern);
    write_intra_blocks(writer, blocks, marks);
}

#[tactic(auto, unfolding(crate::specs::Written::inter_mb_text))]
fn write_inter_mb(
    writer: &mut BitWriter<'_>,
    quant: u8,
    predictor: Vector,
    new: u8,
    vector: Vector,
    blocks: &[Block; 6],
    marks: &[u64; 6],
)
    requires quant { quant ≤ 31 }
    requires mb { IsInterMb new vector blocks.now }
    requires marks { AreMarksOfFirst 6 blocks.now marks.now }
    requires whole { AreWhole blocks.now }
    requires near { DquantReaches quant new }
    requires room { len_of writer.old + 8492 ≤ room_of writer.old }
    ensures bits { Appends writer.old writer.new
        (inter_mb_text quant predictor new vector blocks.now) }
    ensures len { len_of writer.new
        ≡ len_of writer.old + length (inter_mb_text quant predictor new vector blocks.now) }
{
    block_layer::laws::in_a_syntax();
    let pattern = pattern_by(false, marks);
    write_head(writer, Kind::P, quant, new, false, pattern);
    write_vector(writer, predictor, vector);
    write_inter_blocks(writer, blocks, marks);
}

/// Writes a macroblock of a picture of this kind (H.263, 5.3), whose quantiser is within 2 of
/// `quant`, the one before it; `predictor` predicts its vector. There is room for 8,492 bits, which
/// no text of a macroblock passes.
pub fn write_mb(writer: &mut BitWriter<'_>, kind: Kind, quant: u8, predictor: Vector, mb: &Mb)
    requires quant { IsQuant quant }
    requires mb { IsMb mb.now }
    requires kind { IsOfKind kind mb.now }
    requires step { IsStepped quant mb.now }
    requires room { len_of writer.old + 8492 ≤ room_of writer.old }
    ensures bits { Appends writer.old writer.new (mb_text kind quant predictor mb.now) }
    ensures len { len_of writer.new
        ≡ len_of writer.old + length (mb_text kind quant predictor mb.now) }
    ensures short { length (mb_text kind quant predictor mb.now) ≤ 8492 }
    // It is a text of the macroblock, where its vector, if it has one, is in reach.
    ensures spells { (reach : Reach) → IsReached reach mb.now
        → IsMbText kind quant reach predictor mb.now (mb_text kind quant predictor mb.now) }
{
    write_marked(writer, kind, quant, predictor, &MarkedMb::of(mb));
}

/// The same as [`write_mb`], of a macroblock that has its marks beside it: so they aren't found
/// again.
pub fn write_marked(
    writer: &mut BitWriter<'_>,
    kind: Kind,
    quant: u8,
    predictor: Vector,
    mb: &MarkedMb,
)
    requires quant { IsQuant quant }
    requires mb { IsMb mb.now.mb }
    requires marks { IsMarked mb.now }
    requires kind { IsOfKind kind mb.now.mb }
    requires step { IsStepped quant mb.now.mb }
    requires room { len_of writer.old + 8492 ≤ room_of writer.old }
    ensures bits { Appends writer.old writer.new (mb_text kind quant predictor mb.now.mb) }
    ensures len { len_of writer.new
        ≡ len_of writer.old + length (mb_text kind quant predictor mb.now.mb) }
    ensures short { length (mb_text kind quant predictor mb.now.mb) ≤ 8492 }
    // It is a text of the macroblock, where its vector, if it has one, is in reach.
    ensures spells { (reach : Reach) → IsReached reach mb.now.mb
        → IsMbText kind quant reach predictor mb.now.mb (mb_text kind quant predictor mb.now.mb) }
{
    laws::in_a_syntax();
    mb.mb.is_whole();
    match &mb.mb {
        Mb::Skip => writer.put(1, 1),
        Mb::Intra { quant: new, blocks } => {
            write_intra_mb(writer, kind, quant, *new, blocks, &mb.coded)
        }
        Mb::Inter {
            quant: new,
            vector,
            blocks,
        } => write_inter_mb(writer, quant, predictor, *new, *vector, blocks, &mb.coded),
    }
}

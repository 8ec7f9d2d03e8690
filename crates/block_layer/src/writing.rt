//! Writes the levels of a block, several code words at a time (H.263, 5.4).
ghost use Rattle.std.specs.Prelude.{◌≡◌, ℕ, ◌+◌, ◌^◌, ◌<◌, ◌≤◌, ◌++◌, List, Bool, ℤ, [], length, slice_index_or, pos, negsuc, ◌≤ℤ◌, true, false, if◌then◌else◌, not, ◌==◌};
ghost use Rattle.h263_bits.specs.Bits.{spelled};
ghost use Rattle.h263_bits.specs.Written.{Appends, buffer_of, len_of, room_of, written};
ghost use Rattle.h263_types.specs.Blocks.{IsIntraBlock, IsInterBlock};
ghost use Rattle.h263_types.specs.Marks.{marks_of};
ghost use Rattle.code_tables.specs.Events.{coefficient_of};
ghost use Rattle.code_tables.specs.Tables.{size_of};
ghost use Rattle.block_layer.specs.Text.{none_left, coefficients_of, events_text, dc_code, is_coded, is_block_coded, levels_text, coded_text, intra_text, inter_text, IsIntraText, IsInterText};
ghost use Rattle.block_layer.specs.Step.{AreWritten, level_in_list, one_event};
ghost use Rattle.block_layer.specs.Waiting.{DoWait, waiting_text};

use code_tables::{Coefficient, event_number, laws as code_tables_laws};
use h263_bits::BitWriter;
use h263_types::Block;

// The event of a level that isn't 0.
fn event_at(block: &Block, place: usize, run: u8, last: bool) -> Coefficient
    requires place { place < 64 }
    requires size { size_of (level_in_list block.now.levels place) < 128 }
    ensures { coefficient_of result ≡ one_event last run (level_in_list block.now.levels place) }
{
    Coefficient {
        last,
        run,
        level: block.levels[place] as i8,
    }
}

/// Whether a block of an intra or of an inter macroblock is coded, by its marks: a level isn't 0,
/// in an intra macroblock another one than INTRADC.
#[inline(always)]
pub fn is_coded_by(intra: bool, marks: u64) -> bool
    ensures { (levels : List ℤ) → marks ≡ marks_of levels → result ≡ is_block_coded intra levels }
{
    if intra { marks >> 1 != 0 } else { marks != 0 }
}

// Bits that wait until a store has enough of them.
#[derive(Clone, Copy)]
struct Waiting {
    bits: u64,
    count: u32,
}

// The bits of a number after those that wait; the first 32 are written where there are so many.
#[inline(always)]
fn gather(writer: &mut BitWriter<'_>, waiting: Waiting, number: u32, len: u32) -> Waiting
    requires waiting { DoWait waiting }
    requires few { len ≤ 22 }
    requires fits { number < 2 ^ len }
    requires room { len_of writer.old + waiting.count + len ≤ room_of writer.old }
    ensures waiting { DoWait result }
    ensures buffer { buffer_of writer.new ≡ buffer_of writer.old }
    ensures room { room_of writer.new ≡ room_of writer.old }
    ensures text { written writer.new ++ waiting_text result
        ≡ (written writer.old ++ waiting_text waiting) ++ spelled len number }
    ensures len { len_of writer.new + result.count ≡ len_of writer.old + waiting.count + len }
{
    let bits = (waiting.bits << len) + u64::from(number);
    let count = waiting.count + len;
    if count < 32 {
        return Waiting { bits, count };
    }
    let rest = count - 32;
    writer.put((bits >> rest) as u32, 32);
    Waiting {
        bits: bits % (1 << rest),
        count: rest,
    }
}

// Writes bits that wait, and the events of the levels from a place on: one for each that isn't 0.
// They are gathered, since a store takes as long for few bits as for many.
#[inline(never)]
fn write_levels(writer: &mut BitWriter<'_>, before: Waiting, block: &Block, marks: u64, from: usize)
    requires before { DoWait before }
    requires from { from < 64 }
    requires levels { AreWritten from block.now.levels }
    requires marks { marks ≡ marks_of block.now.levels }
    requires whole { length block.now.levels ≡ 64 }
    requires room { len_of writer.old + before.count + length (levels_text from block.now.levels)
        ≤ room_of writer.old }
    ensures bits { Appends writer.old writer.new
        (waiting_text before ++ levels_text from block.now.levels) }
    ensures len { len_of writer.new
        ≡ len_of writer.old + before.count + length (levels_text from block.now.levels) }
{
    let mut waiting = before;
    let mut left = marks >> from;
    let mut place = from;
    'events: while left != 0 {
        let run = left.trailing_zeros();
        place += run as usize;
        left = left >> run >> 1;
        let (number, len) = event_number(&event_at(block, place, run as u8, left == 0));
        waiting = gather(writer, waiting, number, len);
        place += 1;
    }
    writer.put(waiting.bits as u32, waiting.count);
}

// INTRADC as it is written: 255 for 128.
fn dc_bits(block: &Block) -> u32
    requires { IsIntraBlock block.now }
    ensures code { result ≡ dc_code (level_in_list block.now.levels 0) }
    ensures below { result < 256 }
{
    if block.levels[0] == 128 {
        return 255;
    }
    block.levels[0].unsigned_abs() as u32
}

/// Writes a block of an intra macroblock: INTRADC, and its events where another level isn't 0
/// (H.263, 5.4). There is room for its text, at most 1,394 bits.
pub fn write_intra(writer: &mut BitWriter<'_>, block: &Block)
    requires block { IsIntraBlock block.now }
    requires room { len_of writer.old + length (intra_text block.now.levels) ≤ room_of writer.old }
    ensures bits { Appends writer.old writer.new (intra_text block.now.levels) }
    // It is a text of the block, which is coded exactly where a level other than INTRADC isn't 0.
    ensures spells { IsIntraText
        (is_coded block.now.levels) block.now.levels (intra_text block.now.levels) }
    ensures len { len_of writer.new ≡ len_of writer.old + length (intra_text block.now.levels) }
{
    write_intra_marked(writer, block, block.marks());
}

/// Writes a coded block of an inter macroblock: the events of its levels, of which one at least
/// isn't 0 (H.263, 5.4.2). There is room for its text, at most 1,408 bits.
pub fn write_inter(writer: &mut BitWriter<'_>, block: &Block)
    requires block { IsInterBlock block.now }
    requires some { none_left block.now.levels ≡ false }
    requires room { len_of writer.old + length (inter_text block.now.levels) ≤ room_of writer.old }
    ensures bits { Appends writer.old writer.new (inter_text block.now.levels) }
    // It is a text of the block.
    ensures spells { IsInterText block.now.levels (inter_text block.now.levels) }
    ensures len { len_of writer.new ≡ len_of writer.old + length (inter_text block.now.levels) }
{
    write_inter_marked(writer, block, block.marks());
}

/// Writes a block of an intra macroblock, whose marks are given, as [`write_intra`] does.
#[tactic(auto, unfolding(crate::specs::Text::intra_text))]
pub fn write_intra_marked(writer: &mut BitWriter<'_>, block: &Block, marks: u64)
    requires block { IsIntraBlock block.now }
    requires marks { marks ≡ marks_of block.now.levels }
    requires whole { length block.now.levels ≡ 64 }
    requires room { len_of writer.old + length (intra_text block.now.levels) ≤ room_of writer.old }
    ensures bits { Appends writer.old writer.new (intra_text block.now.levels) }
    // It is a text of the block, which is coded exactly where a level other than INTRADC isn't 0.
    ensures spells { IsIntraText
        (is_coded block.now.levels) block.now.levels (intra_text block.now.levels) }
    ensures len { len_of writer.new ≡ len_of writer.old + length (intra_text block.now.levels) }
{
    code_tables_laws::in_a_syntax();
    let dc = Waiting {
        bits: u64::from(dc_bits(block)),
        count: 8,
    };
    write_levels(writer, dc, block, marks, 1);
}

/// Writes the events of a block of an inter macroblock, whose marks are given, as [`write_inter`]
/// does. There are none where the block isn't coded.
#[tactic(auto, unfolding(crate::specs::Text::inter_text))]
pub fn write_inter_marked(writer: &mut BitWriter<'_>, block: &Block, marks: u64)
    requires block { IsInterBlock block.now }
    requires marks { marks ≡ marks_of block.now.levels }
    requires whole { length block.now.levels ≡ 64 }
    requires room { len_of writer.old + length (inter_text block.now.levels) ≤ room_of writer.old }
    ensures bits { Appends writer.old writer.new (inter_text block.now.levels) }
    // Where the block is coded it is a text of it.
    ensures spells { none_left block.now.levels ≡ false
        → IsInterText block.now.levels (inter_text block.now.levels) }
    ensures len { len_of writer.new ≡ len_of writer.old + length (inter_text block.now.levels) }
{
    code_tables_laws::in_a_syntax();
    if marks != 0 {
        let none = Waiting { bits: 0, count: 0 };
        write_levels(writer, none, block, marks, 0);
    }
}

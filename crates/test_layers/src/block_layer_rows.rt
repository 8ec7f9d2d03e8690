//! Blocks.
ghost use Rattle.std.specs.Prelude.{◌≡◌, ◌≤◌, true, false};
ghost use Rattle.h263_types.specs.Blocks.{IsIntraBlock, IsInterBlock};

use block_layer::{
    is_coded_by, laws as block_laws, read_inter, read_intra, write_inter, write_intra,
};
use h263_bits::{BitReader, BitWriter, Fault};
use h263_types::Block;
use std::fmt::Write;
use test_fixtures::answer::{Answer, Asked, NO_MEMORY, WRONG, reader_of};

// Writes a block. Answers how many bits were written.
fn written(intra: bool, block: &Block, out: &mut [u8; 256]) -> u32
    requires intra { intra ≡ true → IsIntraBlock block.now }
    requires inter { intra ≡ false → IsInterBlock block.now }
{
    block_laws::longest_text();
    let mut writer = BitWriter::new(out);
    let coded = is_coded_by(false, block.marks());
    if intra {
        write_intra(&mut writer, block);
    } else if coded {
        write_inter(&mut writer, block);
    }
    writer.len()
}

// Reads a block, and writes it again. Answers how many bits were written.
fn rewritten(
    reader: &mut BitReader<'_>,
    intra: bool,
    coded: bool,
    block: &mut Block,
    out: &mut [u8; 256],
) -> Result<u32, Fault> {
    if intra {
        read_intra(reader, coded, block)?;
    } else {
        read_inter(reader, block)?;
    }
    Ok(written(intra, block, out))
}

// Says a block's levels that are not 0, each after its place.
fn say_levels(block: &Block, answer: &mut Answer) {
    for (place, level) in block.levels.iter().enumerate() {
        if *level != 0 {
            if write!(answer.words, " {place}:{level}").is_err() {
                answer.why = NO_MEMORY;
            }
        }
    }
}

// Reads a block, says its levels and writes it again; or says the first fault.
fn block(intra: bool, coded: bool, asked: &Asked<'_>, answer: &mut Answer) {
    let mut block = Block { levels: [7; 64] };
    let mut out = [0; 256];
    match rewritten(
        &mut reader_of(&asked.bytes, 0, asked.len),
        intra,
        coded,
        &mut block,
        &mut out,
    ) {
        Err(fault) => answer.say(&fault),
        Ok(len) => {
            say_levels(&block, answer);
            answer.put(&out, len);
        }
    }
}

/// Answers a row of `block_layer.rows`: does the call of this name by the words after it.
pub fn answer(call: &str, asked: &mut Asked<'_>, answer: &mut Answer) {
    match call {
        "intra" => block(true, true, asked, answer),
        "intra_dc" => block(true, false, asked, answer),
        "inter" => block(false, true, asked, answer),
        _ => answer.why = WRONG,
    }
}

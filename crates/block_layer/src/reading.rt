//! Reads the levels of a block, from INTRADC to the last TCOEF (H.263, 5.4).
ghost use Rattle.std.specs.Prelude.{◌≡◌, ℕ, ◌+◌, ◌≤◌, ◌<◌, ◌++◌, List, Bool, ℤ, pos, negsuc, ◌≤ℤ◌, IfOk, IsOkAnd};
ghost use Rattle.h263_bits.specs.Reading.{Gives, Takes, first_fault};
ghost use Rattle.h263_bits.specs.Syntax.{reading};
ghost use Rattle.h263_types.specs.Blocks.{IsIntraBlock, IsInterBlock};
ghost use Rattle.block_layer.specs.Text.{event_turn, events, allowed_place, placed, dc_of, intra_dc, intra_block, inter_block, IsIntraText, IsInterText, intra_block_fault, inter_block_fault};
ghost use Rattle.block_layer.specs.Placed.{placed_of};

use code_tables::{Coefficient, laws as code_tables_laws, look_at_event, read_event};
use h263_bits::{BitReader, Fault, FaultKind};
use h263_types::Block;

// A level and its place.
#[derive(Clone, Copy)]
struct Placed {
    place: u8,
    level: i16,
    last: bool,
}

// An event that isn't seen at one look, from the place at which its run starts. Few are read here,
// out of the way of those that are.
#[inline(never)]
#[tactic(auto, unfolding(crate::specs::Text::placed, h263_bits::specs::Syntax::reading))]
fn read_placed(reader: &mut BitReader<'_>, place: usize) -> Result<Placed, Fault>
    requires { place ≤ 64 }
    ensures reads { Gives placed_of result reader.new (reading (placed place) reader.old) }
    ensures inside { IfOk result (λ p. p.place < 64) }
    ensures low { IfOk result (λ p. negsuc 127 ≤ℤ p.level) }
    ensures high { IfOk result (λ p. p.level ≤ℤ pos 127) }
{
    let at = reader.at();
    let event = read_event(reader)?;
    let place = place + event.run as usize;
    if place > 63 {
        return Err(FaultKind::PastEnd.at(at));
    }
    Ok(Placed {
        place: place as u8,
        level: i16::from(event.level),
        last: event.last,
    })
}

// LEVEL, as a block has it.
#[inline(always)]
fn level_of(event: &Coefficient) -> i16
    ensures { result ≡ event.now.level }
{
    i16::from(event.level)
}

// Events from a place on, up to the one with LAST 1.
fn read_events(reader: &mut BitReader<'_>, from: usize, levels: &mut [i16; 64]) -> Result<(), Fault>
    requires { from ≤ 64 }
    ensures { Gives
        (λ _. levels.new) result reader.new (reading (events from levels.old) reader.old) }
{
    let mut place = from;
    'events: loop {
        if let Some(found) = look_at_event(reader) {
            let at = place + found.event.run as usize;
            if at > 63 {
                return Err(FaultKind::PastEnd.at(reader.at()));
            }
            reader.skip(found.len);
            levels[at] = level_of(&found.event);
            if found.event.last {
                return Ok(());
            }
            place = at + 1;
            continue 'events;
        }
        let next = read_placed(reader, place)?;
        levels[next.place as usize] = next.level;
        if next.last {
            return Ok(());
        }
        place = next.place as usize + 1;
    }
}

// The value that an INTRADC code stands for.
fn dc_value(code: u32) -> i16
    requires { code < 256 }
    ensures { result ≡ dc_of code }
{
    if code == 255 { 128 } else { code as i16 }
}

// INTRADC, in a block with no other level.
#[tactic(auto, unfolding(crate::specs::Text::intra_dc, h263_bits::specs::Syntax::reading))]
fn read_dc(reader: &mut BitReader<'_>, levels: &mut [i16; 64]) -> Result<(), Fault>
    ensures { Gives (λ _. levels.new) result reader.new (reading intra_dc reader.old) }
{
    let at = reader.at();
    let code = reader.bits(8)?;
    if code == 0 || code == 128 {
        return Err(FaultKind::BadDc.at(at));
    }
    *levels = [0; 64];
    levels[0] = dc_value(code);
    Ok(())
}

/// Reads a block of an intra macroblock: INTRADC, and its events where it is `coded` (H.263, 5.4).
/// After a fault `out` is left open.
#[tactic(auto, unfolding(crate::specs::Text::intra_block, h263_bits::specs::Syntax::reading))]
pub fn read_intra(reader: &mut BitReader<'_>, coded: bool, out: &mut Block) -> Result<(), Fault>
    // What is read is spelled by the bits that were taken.
    ensures found { IfOk result (λ _.
        Takes reader.old reader.new (IsIntraText coded out.new.levels)) }
    // What is spelled is read, whatever follows.
    ensures only { (levels : List ℤ) (text rest : List Bool)
        → IsIntraText coded levels text → reader.old.bits ≡ text ++ rest
        → IsOkAnd result (λ _. (out.new.levels ≡ levels) × (reader.new.bits ≡ rest)) }
    // Otherwise it is the first fault, at its place.
    ensures fault { first_fault result ≡ intra_block_fault coded reader.old }
    ensures exact { Gives
        (λ _. out.new.levels) result reader.new (reading (intra_block coded) reader.old) }
    ensures range { IfOk result (λ _. IsIntraBlock out.new) }
{
    code_tables_laws::in_a_syntax();
    read_dc(reader, &mut out.levels)?;
    if !coded {
        return Ok(());
    }
    read_events(reader, 1, &mut out.levels)
}

/// Reads the events of a coded block of an inter macroblock (H.263, 5.4.2). After a fault `out` is
/// left open.
#[tactic(auto, unfolding(crate::specs::Text::inter_block))]
pub fn read_inter(reader: &mut BitReader<'_>, out: &mut Block) -> Result<(), Fault>
    // What is read is spelled by the bits that were taken.
    ensures found { IfOk result (λ _. Takes reader.old reader.new (IsInterText out.new.levels)) }
    // What is spelled is read, whatever follows.
    ensures only { (levels : List ℤ) (text rest : List Bool)
        → IsInterText levels text → reader.old.bits ≡ text ++ rest
        → IsOkAnd result (λ _. (out.new.levels ≡ levels) × (reader.new.bits ≡ rest)) }
    // Otherwise it is the first fault, at its place.
    ensures fault { first_fault result ≡ inter_block_fault reader.old }
    ensures exact { Gives (λ _. out.new.levels) result reader.new (reading inter_block reader.old) }
    ensures range { IfOk result (λ _. IsInterBlock out.new) }
{
    code_tables_laws::in_a_syntax();
    out.levels = [0; 64];
    read_events(reader, 0, &mut out.levels)
}

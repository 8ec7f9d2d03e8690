//! Reads a macroblock, from COD to its last block (H.263, 5.3).
ghost use Rattle.std.specs.Prelude.{◌≡◌, ℕ, ℤ, List, Bool, ◌++◌, ◌≤ℤ◌, ◌+ℤ◌, pos, negsuc, true, false, Ok, IfOk, IsOkAnd};
ghost use Rattle.h263_bits.specs.Reading.{Gives, Takes, first_fault};
ghost use Rattle.h263_bits.specs.Syntax.{reading, LoopTurn};
ghost use Rattle.h263_types.specs.Blocks.{IsQuant, IsMb, IsOfKind};
ghost use Rattle.h263_types.specs.declared.Kind.TheVariants as kinds;
ghost use Rattle.h263_types.specs.declared.blocks.Mb.{Mb};
ghost use Rattle.h263_types.specs.declared.blocks.Mb.TheVariants.{Skip};
ghost use Rattle.h263_types.specs.declared.vector.Reach.{Reach};
ghost use Rattle.h263_types.specs.declared.vector.Vector.{Vector};
ghost use Rattle.macroblock_layer.specs.Text.{class_turn, lead_turn, begins_skipped, lead, is_intra, quantiser, limited_quant, difference, moved, wrapped, is_within_across, is_within_along, is_within, vector, intra, inter, blocks, intra_mb, inter_mb, coded_mb, after_lead, mb, IsMbText, macroblock_fault};
ghost use Rattle.macroblock_layer.specs.Turns.{turn_after_lead, IsIntraOf, IsInterOf, IsMovedOf, moved_mb};
ghost use Rattle.macroblock_layer.specs.declared.reading.Lead.{Lead};

use crate::laws;
use block_layer::{read_inter, read_intra};
use code_tables::{MbClass, Mcbpc, read_cbpy, read_dquant, read_mcbpc, read_mvd};
use h263_bits::{BitReader, Fault, FaultKind};
use h263_types::{Block, Kind, Mb, Reach, Vector};

/// What stands first in a macroblock: Skip, or its class with the pattern of its chrominance
/// blocks.
#[derive(Clone, Copy)]
pub enum Lead {
    Skipped,
    Coded { class: MbClass, cbpc: u8 },
}

// What a macroblock is read by: the quantiser in force, and its vector's reach and prediction.
#[derive(Clone, Copy)]
struct Near {
    quant: u8,
    reach: Reach,
    predictor: Vector,
}

// CBPY and CBPC: which of the six blocks are coded.
#[derive(Clone, Copy)]
struct Pattern {
    cbpy: u8,
    cbpc: u8,
}

// MCBPC; none for stuffing.
#[tactic(auto, unfolding(crate::specs::Text::class_turn, h263_bits::specs::Syntax::reading))]
#[inline(always)]
fn read_class_turn(reader: &mut BitReader<'_>, kind: Kind) -> Result<Option<Lead>, Fault>
    ensures { Gives turn_after_lead result reader.new (reading (class_turn kind) reader.old) }
{
    let at = reader.at();
    match read_mcbpc(reader, kind)? {
        Mcbpc::Stuffing => Ok(None),
        Mcbpc::Word {
            class: MbClass::Inter4,
            ..
        } => Err(FaultKind::FourVectors.at(at)),
        Mcbpc::Word { class, cbpc } => Ok(Some(Lead::Coded { class, cbpc })),
    }
}

// COD in P, and MCBPC; none for stuffing.
#[tactic(auto, unfolding(crate::specs::Text::lead_turn, h263_bits::specs::Syntax::reading))]
fn read_lead_turn(reader: &mut BitReader<'_>, kind: Kind) -> Result<Option<Lead>, Fault>
    ensures { Gives turn_after_lead result reader.new (reading (lead_turn kind tt) reader.old) }
{
    match kind {
        Kind::I => read_class_turn(reader, Kind::I),
        Kind::P => {
            if reader.bits(1)? == 1 {
                return Ok(Some(Lead::Skipped));
            }
            read_class_turn(reader, Kind::P)
        }
    }
}

#[tactic(auto, unfolding(crate::specs::Text::difference, h263_bits::specs::Syntax::reading))]
fn read_difference(reader: &mut BitReader<'_>) -> Result<Vector, Fault>
    ensures { Gives (λ (d : Vector). d) result reader.new (reading difference reader.old) }
{
    let x = read_mvd(reader)?;
    let y = read_mvd(reader)?;
    Ok(Vector { x, y })
}

/// Modulo 64, into -32 to 31 (H.263, 6.1.1).
pub fn wrapped(sum: i16) -> i8
    requires low { negsuc 999 ≤ℤ sum }
    requires high { sum ≤ℤ pos 999 }
    ensures wrapped { result ≡ wrapped sum }
    ensures low { negsuc 31 ≤ℤ result }
    ensures high { result ≤ℤ pos 31 }
{
    ((sum + 32).rem_euclid(64) - 32) as i8
}

// A component of a vector, by its difference to the predictor's.
fn moved_by(predictor: i8, difference: i8) -> i8
    ensures wrapped { result ≡ wrapped (predictor +ℤ difference) }
    ensures low { negsuc 31 ≤ℤ result }
    ensures high { result ≤ℤ pos 31 }
{
    wrapped(predictor as i16 + difference as i16)
}

fn moved(predictor: Vector, difference: Vector) -> Vector
    ensures { result ≡ moved predictor difference }
{
    Vector {
        x: moved_by(predictor.x, difference.x),
        y: moved_by(predictor.y, difference.y),
    }
}

fn is_within_across(reach: Reach, vector: Vector) -> bool
    ensures { result ≡ is_within_across reach vector }
{
    reach.left <= vector.x && vector.x <= reach.right
}

fn is_within_along(reach: Reach, vector: Vector) -> bool
    ensures { result ≡ is_within_along reach vector }
{
    reach.up <= vector.y && vector.y <= reach.down
}

fn is_within(reach: Reach, vector: Vector) -> bool
    ensures { result ≡ is_within reach vector }
{
    is_within_across(reach, vector) && is_within_along(reach, vector)
}

// The vector, by its difference to the predictor.
#[tactic(auto, unfolding(crate::specs::Text::vector, h263_bits::specs::Syntax::reading))]
fn read_vector(reader: &mut BitReader<'_>, reach: Reach, predictor: Vector) -> Result<Vector, Fault>
    ensures { Gives
        (λ (v : Vector). v) result reader.new (reading (vector reach predictor) reader.old) }
{
    let at = reader.at();
    let difference = read_difference(reader)?;
    let vector = moved(predictor, difference);
    if !is_within(reach, vector) {
        return Err(FaultKind::BadVector.at(at));
    }
    Ok(vector)
}

#[tactic(auto, unfolding(crate::specs::Text::intra, h263_bits::specs::Syntax::reading))]
fn read_intra_block(reader: &mut BitReader<'_>, coded: bool, out: &mut Block) -> Result<(), Fault>
    ensures { Gives (λ _. out.new) result reader.new (reading (intra coded) reader.old) }
{
    read_intra(reader, coded, out)?;
    Ok(())
}

#[tactic(auto, unfolding(crate::specs::Text::inter, h263_bits::specs::Syntax::reading))]
fn read_inter_block(reader: &mut BitReader<'_>, coded: bool, out: &mut Block) -> Result<(), Fault>
    ensures { Gives (λ _. out.new) result reader.new (reading (inter coded) reader.old) }
{
    if coded {
        read_inter(reader, out)?;
        return Ok(());
    }
    out.levels = [0; 64];
    Ok(())
}

// Six blocks of an intra macroblock, each into its place: four of luma, Cb and Cr.
#[tactic(auto, unfolding(crate::specs::Text::blocks, h263_bits::specs::Syntax::reading))]
fn read_intra_blocks(
    reader: &mut BitReader<'_>,
    pattern: Pattern,
    out: &mut [Block; 6],
) -> Result<(), Fault>
    ensures { Gives (λ _. out.new) result reader.new
        (reading (blocks intra pattern.cbpy pattern.cbpc) reader.old) }
{
    read_intra_block(reader, pattern.cbpy / 8 % 2 == 1, &mut out[0])?;
    read_intra_block(reader, pattern.cbpy / 4 % 2 == 1, &mut out[1])?;
    read_intra_block(reader, pattern.cbpy / 2 % 2 == 1, &mut out[2])?;
    read_intra_block(reader, pattern.cbpy % 2 == 1, &mut out[3])?;
    read_intra_block(reader, pattern.cbpc / 2 % 2 == 1, &mut out[4])?;
    read_intra_block(reader, pattern.cbpc % 2 == 1, &mut out[5])?;
    Ok(())
}

// The same of an inter macroblock.
#[tactic(auto, unfolding(crate::specs::Text::blocks, h263_bits::specs::Syntax::reading))]
fn read_inter_blocks(
    reader: &mut BitReader<'_>,
    pattern: Pattern,
    out: &mut [Block; 6],
) -> Result<(), Fault>
    ensures { Gives (λ _. out.new) result reader.new
        (reading (blocks inter pattern.cbpy pattern.cbpc) reader.old) }
{
    read_inter_block(reader, pattern.cbpy / 8 % 2 == 1, &mut out[0])?;
    read_inter_block(reader, pattern.cbpy / 4 % 2 == 1, &mut out[1])?;
    read_inter_block(reader, pattern.cbpy / 2 % 2 == 1, &mut out[2])?;
    read_inter_block(reader, pattern.cbpy % 2 == 1, &mut out[3])?;
    read_inter_block(reader, pattern.cbpc / 2 % 2 == 1, &mut out[4])?;
    read_inter_block(reader, pattern.cbpc % 2 == 1, &mut out[5])?;
    Ok(())
}

// Stuffing, and what stands first after it.
fn read_lead(reader: &mut BitReader<'_>, kind: Kind) -> Result<Lead, Fault>
    ensures { Gives (λ (l : Lead). l) result reader.new (reading (lead kind) reader.old) }
{
    'turns: loop {
        match read_lead_turn(reader, kind)? {
            Some(lead) => return Ok(lead),
            None => {}
        }
    }
}

// Makes an intra macroblock of this quantiser. Its levels are left open: where it was one before,
// they stay as they are.
fn begin_intra(quant: u8, out: &mut Mb)
    ensures { IsIntraOf quant out.new }
{
    match out {
        Mb::Intra { quant: old, .. } => *old = quant,
        _ => {
            *out = Mb::Intra {
                quant,
                blocks: [Block { levels: [0; 64] }; 6],
            }
        }
    }
}

// The macroblock after a class: its quantiser is in force from here on. Its blocks are read where
// they stay, and each clears its own levels.
#[tactic(auto, unfolding(crate::specs::Text::intra_mb, h263_bits::specs::Syntax::reading))]
fn read_intra_mb(
    reader: &mut BitReader<'_>,
    quant: u8,
    pattern: Pattern,
    out: &mut Mb,
) -> Result<(), Fault>
    ensures { Gives (λ _. out.new) result reader.new
        (reading (intra_mb quant pattern.cbpy pattern.cbpc) reader.old) }
{
    begin_intra(quant, out);
    match out {
        Mb::Intra { blocks, .. } => read_intra_blocks(reader, pattern, blocks),
        _ => Ok(()),
    }
}

// Makes an inter macroblock of this quantiser. Its vector and its levels are left open.
fn begin_inter(quant: u8, out: &mut Mb)
    ensures { IsInterOf quant out.new }
{
    match out {
        Mb::Inter { quant: old, .. } => *old = quant,
        _ => {
            *out = Mb::Inter {
                quant,
                vector: Vector::ZERO,
                blocks: [Block { levels: [0; 64] }; 6],
            }
        }
    }
}

fn put_vector(vector: Vector, out: &mut Mb)
    ensures { (quant : ℕ) → IsInterOf quant out.old → IsMovedOf quant vector out.new }
{
    match out {
        Mb::Inter { vector: old, .. } => *old = vector,
        _ => {}
    }
}

// Makes an inter macroblock of this quantiser and vector. Its levels are left open.
fn begin_moved(quant: u8, vector: Vector, out: &mut Mb)
    ensures { IsMovedOf quant vector out.new }
{
    begin_inter(quant, out);
    put_vector(vector, out);
}

// An inter macroblock after its vector.
#[tactic(auto, unfolding(h263_bits::specs::Syntax::reading))]
fn read_moved_mb(
    reader: &mut BitReader<'_>,
    quant: u8,
    vector: Vector,
    pattern: Pattern,
    out: &mut Mb,
) -> Result<(), Fault>
    ensures { Gives (λ _. out.new) result reader.new
        (reading (moved_mb quant vector pattern.cbpy pattern.cbpc) reader.old) }
{
    begin_moved(quant, vector, out);
    match out {
        Mb::Inter { blocks, .. } => read_inter_blocks(reader, pattern, blocks),
        _ => Ok(()),
    }
}

#[tactic(auto, unfolding(crate::specs::Text::inter_mb, h263_bits::specs::Syntax::reading))]
fn read_inter_mb(
    reader: &mut BitReader<'_>,
    near: Near,
    pattern: Pattern,
    out: &mut Mb,
) -> Result<(), Fault>
    ensures { Gives (λ _. out.new) result reader.new (reading
        (inter_mb near.reach near.predictor near.quant pattern.cbpy pattern.cbpc) reader.old) }
{
    let vector = read_vector(reader, near.reach, near.predictor)?;
    read_moved_mb(reader, near.quant, vector, pattern, out)
}

// The quantiser after a step, limited to 1 to 31.
fn stepped(quant: u8, step: i8) -> u8
    ensures { result ≡ limited_quant (pos quant +ℤ step) }
{
    let sum = quant as i16 + step as i16;
    if sum < 1 {
        return 1;
    }
    if sum > 31 {
        return 31;
    }
    sum as u8
}

// The quantiser, changed by DQUANT in a Q class.
#[tactic(auto, unfolding(crate::specs::Text::quantiser, h263_bits::specs::Syntax::reading))]
fn read_quantiser(reader: &mut BitReader<'_>, class: MbClass, quant: u8) -> Result<u8, Fault>
    ensures { Gives (λ (q : ℕ). q) result reader.new (reading (quantiser class quant) reader.old) }
{
    match class {
        MbClass::InterQ | MbClass::IntraQ => {
            let step = read_dquant(reader)?;
            Ok(stepped(quant, step))
        }
        _ => Ok(quant),
    }
}

fn is_intra(class: MbClass) -> bool
    ensures { result ≡ is_intra class }
{
    match class {
        MbClass::Intra | MbClass::IntraQ => true,
        _ => false,
    }
}

#[tactic(auto, unfolding(crate::specs::Text::coded_mb, h263_bits::specs::Syntax::reading))]
fn read_coded_mb(
    reader: &mut BitReader<'_>,
    near: Near,
    class: MbClass,
    cbpc: u8,
    out: &mut Mb,
) -> Result<(), Fault>
    ensures { Gives (λ _. out.new) result reader.new
        (reading (coded_mb near.quant near.reach near.predictor class cbpc) reader.old) }
{
    let intra = is_intra(class);
    let cbpy = read_cbpy(reader, intra)?;
    let quant = read_quantiser(reader, class, near.quant)?;
    let pattern = Pattern { cbpy, cbpc };
    if intra {
        return read_intra_mb(reader, quant, pattern, out);
    }
    read_inter_mb(reader, Near { quant, ..near }, pattern, out)
}

// What follows the leading words.
#[tactic(auto, unfolding(crate::specs::Text::after_lead, h263_bits::specs::Syntax::reading))]
fn read_after_lead(
    reader: &mut BitReader<'_>,
    near: Near,
    lead: Lead,
    out: &mut Mb,
) -> Result<(), Fault>
    ensures { Gives (λ _. out.new) result reader.new
        (reading (after_lead near.quant near.reach near.predictor lead) reader.old) }
{
    match lead {
        Lead::Skipped => {
            *out = Mb::Skip;
            Ok(())
        }
        Lead::Coded { class, cbpc } => read_coded_mb(reader, near, class, cbpc, out),
    }
}

// Whether a macroblock that isn't coded stands next.
fn is_skipped(reader: &BitReader<'_>, kind: Kind) -> bool
    ensures { result ≡ begins_skipped kind reader.now.bits }
{
    match kind {
        Kind::I => false,
        Kind::P => {
            if reader.rest() == 0 {
                return false;
            }
            reader.peek(1) == 1
        }
    }
}

/// Passes over a macroblock that isn't coded, where one stands next: its one bit is read for
/// itself, whatever the quantiser, the reach and the prediction are, so that these needn't be
/// worked out.
pub fn pass_skipped(reader: &mut BitReader<'_>, kind: Kind) -> bool
    ensures value { result ≡ begins_skipped kind reader.old.bits }
    ensures skipped { result ≡ true → (quant : ℕ) (reach : Reach) (predictor : Vector)
        → reading (mb kind quant reach predictor) reader.old ≡ Ok (Skip, reader.new) }
    ensures coded { result ≡ false → reader.new ≡ reader.old }
{
    if !is_skipped(reader, kind) {
        return false;
    }
    reader.skip(1);
    true
}

/// Reads a macroblock of a picture of this kind (H.263, 5.3): `quant` is the quantiser before it, 1
/// to 31; `predictor` predicts its vector, and `reach` says how far that may reach. After a fault
/// `out` is left open.
#[tactic(auto, unfolding(crate::specs::Text::mb, h263_bits::specs::Syntax::reading))]
pub fn read_mb(
    reader: &mut BitReader<'_>,
    kind: Kind,
    quant: u8,
    predictor: Vector,
    reach: Reach,
    out: &mut Mb,
) -> Result<(), Fault>
    // What is read is spelled by the bits that were taken.
    ensures found { IfOk result (λ _.
        Takes reader.old reader.new (IsMbText kind quant reach predictor out.new)) }
    // What is spelled is read, whatever follows.
    ensures only { (m : Mb) (text rest : List Bool)
        → IsMbText kind quant reach predictor m text → reader.old.bits ≡ text ++ rest
        → IsOkAnd result (λ _. (out.new ≡ m) × (reader.new.bits ≡ rest)) }
    // Otherwise it is the first fault, at its place.
    ensures fault { first_fault result ≡ macroblock_fault kind quant reach predictor reader.old }
    ensures exact { Gives
        (λ _. out.new) result reader.new (reading (mb kind quant reach predictor) reader.old) }
    ensures range { IsQuant quant → IfOk result (λ _. IsMb out.new × IsOfKind kind out.new) }
{
    block_layer::laws::in_a_syntax();
    laws::in_a_syntax();
    let lead = read_lead(reader, kind)?;
    let near = Near {
        quant,
        reach,
        predictor,
    };
    read_after_lead(reader, near, lead, out)
}

/// Reads a macroblock of an I picture, as [`read_mb`] does. It has no vector, so what is read is the
/// same whatever the reach and the prediction are, and these needn't be worked out.
pub fn read_mb_in_i(reader: &mut BitReader<'_>, quant: u8, out: &mut Mb) -> Result<(), Fault>
    ensures exact { (reach : Reach) (predictor : Vector) → Gives
        (λ _. out.new) result reader.new (reading (mb kinds.I quant reach predictor) reader.old) }
    ensures range { IsQuant quant → IfOk result (λ _. IsMb out.new × IsOfKind kinds.I out.new) }
{
    let none = Reach {
        left: 0,
        right: 0,
        up: 0,
        down: 0,
    };
    read_mb(reader, Kind::I, quant, Vector::ZERO, none, out)
}

//! The words of a macroblock's head: MCBPC and DQUANT, read and written.
ghost use Rattle.std.specs.Prelude.{◌≡◌, ℕ, ℤ, ◌<◌, ◌+◌, ◌^◌, ◌++◌, ◌≤◌, List, Bool, IfOk, IfErr, IsOkAnd, length, slice_get, Some};
ghost use Rattle.h263_bits.specs.Bits.{spelled};
ghost use Rattle.h263_bits.specs.Reading.{Gives, Takes};
ghost use Rattle.h263_bits.specs.Syntax.{reading, word_at, Spells};
ghost use Rattle.h263_bits.specs.Elements.{IsWordOf, IsWordFault};
ghost use Rattle.h263_types.specs.declared.Kind.TheVariants as kinds;
ghost use Rattle.h263_bits.specs.declared.fault.FaultKind.TheVariants.{Ended};
ghost use Rattle.h263_bits.specs.Written.{Appends, len_of, room_of};
ghost use Rattle.code_tables.specs.Mcbpc.{mcbpc, mcbpc_words, dquant, dquant_words, IsInTable, IsStep, mcbpc_text, dquant_text};
ghost use Rattle.code_tables.specs.Places.{class_place_of, inter_place_of, intra_place_of, step_place_of};

use crate::code::{code_number, read_code, write_code};
use crate::tables::{
    INTER_MCBPC, INTER_MCBPC_FAST, INTER_MCBPC_SYMBOLS, INTRA_MCBPC, INTRA_MCBPC_FAST,
    INTRA_MCBPC_SYMBOLS, STEP_SYMBOLS, STEPS, STEPS_FAST,
};
use h263_bits::{BitReader, BitWriter, Fault};
use h263_types::Kind;

/// The class of a macroblock that is coded.
#[derive(Clone, Copy, Debug)]
pub enum MbClass {
    Inter,
    InterQ,
    Inter4,
    Intra,
    IntraQ,
}

/// What a word of MCBPC stands for: stuffing, or a class and the pattern of the chrominance blocks,
/// 0 to 3.
#[derive(Clone, Copy, Debug)]
pub enum Mcbpc {
    Stuffing,
    Word { class: MbClass, cbpc: u8 },
}

fn symbol_at(symbols: &[Mcbpc], place: usize) -> Mcbpc
    requires { place < length symbols.now }
    ensures { slice_get symbols.now place ≡ Some result }
{
    symbols[place]
}

fn step_at(steps: &[i8], place: usize) -> i8
    requires { place < length steps.now }
    ensures { slice_get steps.now place ≡ Some result }
{
    steps[place]
}

#[inline(always)]
fn read_intra_mcbpc(reader: &mut BitReader<'_>) -> Result<Mcbpc, Fault>
    ensures { Gives
        (λ (m : Mcbpc). m) result reader.new (word_at (mcbpc_words kinds.I) reader.old) }
{
    let place = read_code(reader, &INTRA_MCBPC, &INTRA_MCBPC_FAST, &[])?;
    Ok(symbol_at(&INTRA_MCBPC_SYMBOLS, place))
}

#[inline(always)]
fn read_inter_mcbpc(reader: &mut BitReader<'_>) -> Result<Mcbpc, Fault>
    ensures { Gives
        (λ (m : Mcbpc). m) result reader.new (word_at (mcbpc_words kinds.P) reader.old) }
{
    let place = read_code(reader, &INTER_MCBPC, &INTER_MCBPC_FAST, &[])?;
    Ok(symbol_at(&INTER_MCBPC_SYMBOLS, place))
}

/// MCBPC of a kind of picture (H.263 5.3.2).
#[inline(always)]
pub fn read_mcbpc(reader: &mut BitReader<'_>, kind: Kind) -> Result<Mcbpc, Fault>
    // What is read is spelled by the bits that were taken.
    ensures found { IfOk result (λ m. Takes reader.old reader.new (Spells (mcbpc kind) m)) }
    // What is spelled is read, whatever follows.
    ensures only { (m : Mcbpc) (text rest : List Bool)
        → Spells (mcbpc kind) m text → reader.old.bits ≡ text ++ rest
        → IsOkAnd result (λ found. (found ≡ m) × (reader.new.bits ≡ rest)) }
    // Otherwise the word is cut, or there is none: the fault stands at its first bit.
    ensures fault { IfErr result (λ d. (d.at ≡ reader.old.at)
        × IsWordFault (λ w. IsWordOf (mcbpc_words kind) w) reader.old.bits d.kind) }
    ensures exact { Gives (λ (m : Mcbpc). m) result reader.new (reading (mcbpc kind) reader.old) }
    // CBPC is below 4, and in an I picture the class is intra.
    ensures range { IfOk result (IsInTable kind) }
{
    match kind {
        Kind::I => read_intra_mcbpc(reader),
        Kind::P => read_inter_mcbpc(reader),
    }
}

fn read_step(reader: &mut BitReader<'_>) -> Result<i8, Fault>
    ensures { Gives (λ (s : ℤ). s) result reader.new (word_at dquant_words reader.old) }
{
    let place = read_code(reader, &STEPS, &STEPS_FAST, &[])?;
    Ok(step_at(&STEP_SYMBOLS, place))
}

/// DQUANT, the step of the quantiser (H.263 5.3.6): -2, -1, 1 or 2.
pub fn read_dquant(reader: &mut BitReader<'_>) -> Result<i8, Fault>
    // What is read is spelled by the bits that were taken.
    ensures found { IfOk result (λ step. Takes reader.old reader.new (Spells dquant step)) }
    // What is spelled is read, whatever follows.
    ensures only { (step : ℤ) (text rest : List Bool) → Spells dquant step text → reader.old.bits
        ≡ text ++ rest → IsOkAnd result (λ found. (found ≡ step) × (reader.new.bits ≡ rest)) }
    // Otherwise the word is cut: the fault stands at its first bit.
    ensures fault { IfErr result (λ d. (d.at ≡ reader.old.at)
        × IsWordFault (λ w. IsWordOf dquant_words w) reader.old.bits d.kind) }
    ensures exact { Gives (λ (s : ℤ). s) result reader.new (reading dquant reader.old) }
    ensures range { IfOk result IsStep }
    // Each pair of bits is a word, so there is no bad code.
    ensures ended { IfErr result (λ fault. fault.kind ≡ Ended) }
{
    read_step(reader)
}

// The place of a word of P pictures.
fn inter_place(word: Mcbpc) -> usize
    requires { IsInTable kinds.P word }
    ensures { result ≡ inter_place_of word }
{
    match word {
        Mcbpc::Stuffing => 20,
        Mcbpc::Word { class, cbpc } => class_place(class) + cbpc as usize,
    }
}

// Where the words of a class begin in P pictures.
fn class_place(class: MbClass) -> usize
    ensures { result ≡ class_place_of class }
{
    match class {
        MbClass::Inter => 0,
        MbClass::InterQ => 4,
        MbClass::Inter4 => 8,
        MbClass::Intra => 12,
        MbClass::IntraQ => 16,
    }
}

// The place of a word of I pictures.
fn intra_place(word: Mcbpc) -> usize
    requires { IsInTable kinds.I word }
    ensures { result ≡ intra_place_of word }
{
    match word {
        Mcbpc::Stuffing => 8,
        Mcbpc::Word {
            class: MbClass::IntraQ,
            cbpc,
        } => 4 + cbpc as usize,
        Mcbpc::Word { class: _, cbpc } => cbpc as usize,
    }
}

fn write_intra_mcbpc(writer: &mut BitWriter<'_>, word: Mcbpc)
    requires table { IsInTable kinds.I word }
    requires room { len_of writer.old + length (mcbpc_text kinds.I word) ≤ room_of writer.old }
    ensures bits { Appends writer.old writer.new (mcbpc_text kinds.I word) }
    ensures len { len_of writer.new ≡ len_of writer.old + length (mcbpc_text kinds.I word) }
{
    write_code(writer, &INTRA_MCBPC, intra_place(word));
}

fn write_inter_mcbpc(writer: &mut BitWriter<'_>, word: Mcbpc)
    requires table { IsInTable kinds.P word }
    requires room { len_of writer.old + length (mcbpc_text kinds.P word) ≤ room_of writer.old }
    ensures bits { Appends writer.old writer.new (mcbpc_text kinds.P word) }
    ensures len { len_of writer.new ≡ len_of writer.old + length (mcbpc_text kinds.P word) }
{
    write_code(writer, &INTER_MCBPC, inter_place(word));
}

/// Writes MCBPC of a kind of picture.
pub fn write_mcbpc(writer: &mut BitWriter<'_>, kind: Kind, word: &Mcbpc)
    requires table { IsInTable kind word.now }
    requires room { len_of writer.old + length (mcbpc_text kind word.now) ≤ room_of writer.old }
    ensures bits { Appends writer.old writer.new (mcbpc_text kind word.now) }
    ensures len { len_of writer.new ≡ len_of writer.old + length (mcbpc_text kind word.now) }
{
    match kind {
        Kind::I => write_intra_mcbpc(writer, *word),
        Kind::P => write_inter_mcbpc(writer, *word),
    }
}

/// MCBPC of a kind of picture as a number, and how many bits it has.
#[inline(always)]
pub fn mcbpc_number(kind: Kind, word: &Mcbpc) -> (u32, u32)
    requires { IsInTable kind word.now }
    ensures text { spelled result.1 result.0 ≡ mcbpc_text kind word.now }
    ensures fits { result.0 < 2 ^ result.1 }
    ensures few { result.1 < 16 }
{
    match kind {
        Kind::I => code_number(&INTRA_MCBPC, intra_place(*word)),
        Kind::P => code_number(&INTER_MCBPC, inter_place(*word)),
    }
}

// The place of a step of the quantiser.
fn step_place(step: i8) -> usize
    requires { IsStep step }
    ensures { result ≡ step_place_of step }
{
    match step {
        -1 => 0,
        -2 => 1,
        1 => 2,
        _ => 3,
    }
}

/// Writes DQUANT.
pub fn write_dquant(writer: &mut BitWriter<'_>, step: i8)
    requires step { IsStep step }
    requires room { len_of writer.old + length (dquant_text step) ≤ room_of writer.old }
    ensures bits { Appends writer.old writer.new (dquant_text step) }
    ensures len { len_of writer.new ≡ len_of writer.old + length (dquant_text step) }
{
    write_code(writer, &STEPS, step_place(step));
}

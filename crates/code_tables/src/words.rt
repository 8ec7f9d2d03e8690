//! The words of CBPY, MVD and the events of TCOEF, read and written.
ghost use Rattle.std.specs.Prelude.{◌≡◌, ◌≢◌, ℕ, ℤ, pos, negsuc, ◌+◌, ◌-◌, ◌++◌, List, Bool, slice_get, IfOk, IfErr, IsOkAnd, IfSome, ◌<◌, ◌≤◌, ◌^◌, ◌≤ℤ◌, length};
ghost use Rattle.h263_bits.specs.Written.{Appends, len_of, room_of};
ghost use Rattle.h263_bits.specs.Bits.{fields, spelled};
ghost use Rattle.code_tables.specs.Words.{text_at, code_at, word_of, place_in};
ghost use Rattle.code_tables.specs.Starts.{starts_of};
ghost use Rattle.code_tables.specs.Rows.{table_row, place_in_row};
ghost use Rattle.h263_bits.specs.Reading.{Gives, Takes};
ghost use Rattle.h263_bits.specs.Syntax.{reading, word_at, Spells};
ghost use Rattle.h263_bits.specs.Elements.{IsWordOf, IsWordFault};
ghost use Rattle.code_tables.specs.EventWords.{IsEventFault};
ghost use Rattle.code_tables.specs.Tables.{cbpy, cbpy_texts, cbpy_text, magnitude_texts, size_of, sign_text, mvd_text, cbpy_words, magnitude_table, event_table, mvd, mvd_words, Coefficient as Event, signed, escaped_level, mvd_parts, event, event_parts, byte_of, escape_fields, event_text, IsEvent};
ghost use Rattle.code_tables.specs.Events.{event_of_code, coefficient_of};
ghost use Rattle.code_tables.specs.Seen.{IsNextEvent};

use crate::code::{
    Coefficient, Level, code_number, read_code, search_code, signed_number, write_code,
    write_signed_code,
};
use crate::difference_bits::seen_difference;
use crate::event_bits::{SeenEvent, escape_level, level_at, seen_escape, seen_event, with_sign};
use crate::event_tables::{EVENTS, LAST_0_ROWS, LAST_1_ROWS, LEVELS, Row};
use crate::tables::{CBPY, CBPY_FAST, MAGNITUDES, MAGNITUDES_FAST, MAGNITUDES_LONG};
use h263_bits::{BitReader, BitWriter, Fault, FaultKind};

fn read_pattern(reader: &mut BitReader<'_>) -> Result<usize, Fault>
    ensures reads { Gives (λ (i : ℕ). i) result reader.new (word_at cbpy_words reader.old) }
    ensures below { IfOk result (λ i. i < 16) }
{
    read_code(reader, &CBPY, &CBPY_FAST, &[])
}

/// CBPY, the pattern of the luminance blocks, 0 to 15 (H.263 5.3.5). An inter macroblock has the
/// word of the complement.
pub fn read_cbpy(reader: &mut BitReader<'_>, intra: bool) -> Result<u8, Fault>
    // What is read is spelled by the bits that were taken.
    ensures found { IfOk result (λ pattern.
        Takes reader.old reader.new (Spells (cbpy intra) pattern)) }
    // What is spelled is read, whatever follows.
    ensures only { (pattern : ℕ) (text rest : List Bool)
        → Spells (cbpy intra) pattern text → reader.old.bits ≡ text ++ rest
        → IsOkAnd result (λ found. (found ≡ pattern) × (reader.new.bits ≡ rest)) }
    // Otherwise the word is cut, or there is none: the fault stands at its first bit.
    ensures fault { IfErr result (λ d.
        (d.at ≡ reader.old.at) × IsWordFault (λ w. IsWordOf cbpy_words w) reader.old.bits d.kind) }
    ensures exact { Gives (λ (i : ℕ). i) result reader.new (reading (cbpy intra) reader.old) }
    ensures range { IfOk result (λ pattern. pattern < 16) }
{
    let place = read_pattern(reader)?;
    if intra {
        return Ok(place as u8);
    }
    Ok(15 - place as u8)
}

fn read_magnitude(reader: &mut BitReader<'_>) -> Result<usize, Fault>
    ensures reads { Gives (λ (i : ℕ). i) result reader.new (word_at magnitude_table.list reader.old) }
    ensures below { IfOk result (λ i. i < 33) }
{
    read_code(reader, &MAGNITUDES, &MAGNITUDES_FAST, &MAGNITUDES_LONG)
}

#[tactic(auto, unfolding(crate::specs::Tables::mvd_parts, h263_bits::specs::Syntax::reading))]
fn read_mvd_parts(reader: &mut BitReader<'_>) -> Result<i8, Fault>
    ensures { Gives (λ (v : ℤ). v) result reader.new (reading mvd_parts reader.old) }
{
    let size = read_magnitude(reader)?;
    if size == 0 {
        return Ok(0);
    }
    let sign = reader.bits(1)?;
    Ok(with_sign(sign, size as u8))
}

/// MVD, a difference of vectors in half samples, -32 to 31 (H.263 5.3.7).
#[tactic(auto, unfolding(crate::specs::Tables::mvd, h263_bits::specs::Syntax::reading))]
pub fn read_mvd(reader: &mut BitReader<'_>) -> Result<i8, Fault>
    // What is read is spelled by the bits that were taken.
    ensures found { IfOk result (λ v. Takes reader.old reader.new (Spells mvd v)) }
    // What is spelled is read, whatever follows.
    ensures only { (v : ℤ) (text rest : List Bool) → Spells mvd v text → reader.old.bits
        ≡ text ++ rest → IsOkAnd result (λ found. (found ≡ v) × (reader.new.bits ≡ rest)) }
    // Otherwise the word with its sign is cut, or there is none: the fault stands at its first bit.
    ensures fault { IfErr result (λ d.
        (d.at ≡ reader.old.at) × IsWordFault (λ w. IsWordOf mvd_words w) reader.old.bits d.kind) }
    ensures exact { Gives (λ (v : ℤ). v) result reader.new (reading mvd reader.old) }
    ensures low { IfOk result (λ v. negsuc 31 ≤ℤ v) }
    ensures high { IfOk result (λ v. v ≤ℤ pos 31) }
{
    if reader.rest() >= 64 {
        let seen = reader.peek_early(13);
        if let Some(found) = seen_difference(seen) {
            reader.skip(found.len);
            return Ok(found.value);
        }
    }
    let at = reader.at();
    match read_mvd_parts(reader) {
        Ok(value) => {
            if value == 32 {
                return Err(FaultKind::BadCode.at(at));
            }
            Ok(value)
        }
        Err(fault) => Err(fault.kind.at(at)),
    }
}

fn read_event_word(reader: &mut BitReader<'_>) -> Result<Option<Level>, Fault>
    ensures reads { Gives event_of_code result reader.new (word_at event_table.list reader.old) }
    ensures small { IfOk result (λ o. IfSome o (λ level. level.size < 128)) }
{
    let place = search_code(reader, &EVENTS)?;
    Ok(level_at(&LEVELS, place))
}

#[tactic(auto, unfolding(crate::specs::Tables::event_parts, h263_bits::specs::Syntax::reading))]
fn read_event_parts(reader: &mut BitReader<'_>) -> Result<Coefficient, Fault>
    ensures { Gives coefficient_of result reader.new (reading event_parts reader.old) }
{
    if let Some(level) = read_event_word(reader)? {
        let sign = reader.bits(1)?;
        return Ok(Coefficient {
            last: level.last,
            run: level.run,
            level: with_sign(sign, level.size),
        });
    }
    let last = reader.bits(1)?;
    let run = reader.bits(6)?;
    let at = reader.at();
    let level = reader.bits(8)?;
    if level == 0 || level == 128 {
        return Err(FaultKind::BadLevel.at(at));
    }
    Ok(Coefficient {
        last: last == 1,
        run: run as u8,
        level: escape_level(level),
    })
}

// An event that isn't seen at one look: an escape, an event at the end of the bits, or none. Few are
// read here, out of the way of those that are looked up.
#[inline(never)]
#[tactic(auto, unfolding(crate::specs::Tables::event, h263_bits::specs::Syntax::reading))]
fn read_rare_event(reader: &mut BitReader<'_>) -> Result<Coefficient, Fault>
    ensures { Gives coefficient_of result reader.new (reading event reader.old) }
{
    if reader.rest() >= 22 {
        let seen = reader.peek(22);
        if let Some(found) = seen_escape(seen) {
            reader.skip(found.len);
            return Ok(found.event);
        }
    }
    let at = reader.at();
    match read_event_parts(reader) {
        Ok(event) => Ok(event),
        Err(fault) => Err(fault.kind.at(at)),
    }
}

/// An event of TCOEF: LAST, RUN and LEVEL, as a word with its sign or as an escape (H.263 5.4.2).
#[inline(always)]
pub fn read_event(reader: &mut BitReader<'_>) -> Result<Coefficient, Fault>
    // What is read is spelled by the bits that were taken.
    ensures found { IfOk result (λ e.
        Takes reader.old reader.new (Spells event (coefficient_of e))) }
    // What is spelled is read, whatever follows.
    ensures only { (e : Event) (text rest : List Bool)
        → Spells event e text → reader.old.bits ≡ text ++ rest
        → IsOkAnd result (λ found. (coefficient_of found ≡ e) × (reader.new.bits ≡ rest)) }
    // Otherwise the word with its sign, or the escape, is cut, or LEVEL is 0 or -128, or there is
    // none: the fault stands at the first bit.
    ensures fault { IfErr result (λ d.
        (d.at ≡ reader.old.at) × IsEventFault reader.old.bits d.kind) }
    ensures exact { Gives coefficient_of result reader.new (reading event reader.old) }
{
    if reader.rest() >= 13 {
        let seen = reader.peek(13);
        if let Some(found) = seen_event(seen) {
            reader.skip(found.len);
            return Ok(found.event);
        }
    }
    read_rare_event(reader)
}

/// The event that the next bits are, by one look at 13 of them. None where fewer than 64 are left,
/// or where they begin with no word of an event: [`read_event`] reads what stands there.
#[inline(always)]
pub fn look_at_event(reader: &BitReader<'_>) -> Option<SeenEvent>
    ensures { IfSome result (IsNextEvent reader.now) }
{
    if reader.rest() < 64 {
        return None;
    }
    seen_event(reader.peek_early(13))
}

fn write_pattern(writer: &mut BitWriter<'_>, pattern: usize)
    requires pattern { pattern < 16 }
    requires room { len_of writer.old + length (text_at cbpy_texts pattern) ≤ room_of writer.old }
    ensures bits { Appends writer.old writer.new (text_at cbpy_texts pattern) }
    ensures len { len_of writer.new ≡ len_of writer.old + length (text_at cbpy_texts pattern) }
{
    write_code(writer, &CBPY, pattern);
}

/// Writes CBPY. An inter macroblock has the word of the complement.
#[tactic(auto, unfolding(crate::specs::Tables::cbpy_text))]
pub fn write_cbpy(writer: &mut BitWriter<'_>, intra: bool, cbpy: u8)
    requires pattern { cbpy < 16 }
    requires room { len_of writer.old + length (cbpy_text intra cbpy) ≤ room_of writer.old }
    ensures bits { Appends writer.old writer.new (cbpy_text intra cbpy) }
    ensures len { len_of writer.new ≡ len_of writer.old + length (cbpy_text intra cbpy) }
{
    if intra {
        write_pattern(writer, cbpy as usize);
    } else {
        write_pattern(writer, 15 - cbpy as usize);
    }
}

fn pattern_number(pattern: usize) -> (u32, u32)
    requires pattern { pattern < 16 }
    ensures text { spelled result.1 result.0 ≡ text_at cbpy_texts pattern }
    ensures fits { result.0 < 2 ^ result.1 }
    ensures few { result.1 < 16 }
{
    code_number(&CBPY, pattern)
}

/// CBPY as a number, and how many bits it has. An inter macroblock has the word of the complement.
#[inline(always)]
#[tactic(auto, unfolding(crate::specs::Tables::cbpy_text))]
pub fn cbpy_number(intra: bool, cbpy: u8) -> (u32, u32)
    requires pattern { cbpy < 16 }
    ensures text { spelled result.1 result.0 ≡ cbpy_text intra cbpy }
    ensures fits { result.0 < 2 ^ result.1 }
    ensures few { result.1 < 16 }
{
    if intra {
        pattern_number(cbpy as usize)
    } else {
        pattern_number(15 - cbpy as usize)
    }
}

// The size of a number.
fn size(value: i8) -> usize
    ensures { result ≡ size_of value }
{
    if value < 0 {
        (-(value as i16)) as usize
    } else {
        value as usize
    }
}

/// Writes MVD, a difference of vectors in half samples, -32 to 31.
pub fn write_mvd(writer: &mut BitWriter<'_>, value: i8)
    requires low { negsuc 31 ≤ℤ value }
    requires high { value ≤ℤ pos 31 }
    requires room { len_of writer.old + length (mvd_text value) ≤ room_of writer.old }
    ensures bits { Appends writer.old writer.new (mvd_text value) }
    ensures len { len_of writer.new ≡ len_of writer.old + length (mvd_text value) }
{
    let size = size(value);
    if size == 0 {
        write_code(writer, &MAGNITUDES, size);
    } else {
        write_signed_code(writer, &MAGNITUDES, size, value < 0);
    }
}

/// MVD, a difference of vectors in half samples, -32 to 31, as a number, and how many bits it has.
#[inline(always)]
pub fn mvd_number(value: i8) -> (u32, u32)
    requires low { negsuc 31 ≤ℤ value }
    requires high { value ≤ℤ pos 31 }
    ensures text { spelled result.1 result.0 ≡ mvd_text value }
    ensures fits { result.0 < 2 ^ result.1 }
    ensures few { result.1 ≤ 16 }
{
    let size = size(value);
    if size == 0 {
        code_number(&MAGNITUDES, size)
    } else {
        signed_number(&MAGNITUDES, size, value < 0)
    }
}

// The place of a size from 1 on among the words of a RUN, if they have one.
#[inline(always)]
fn row_place(rows: &[Row], run: usize, size: usize) -> Option<usize>
    requires size { 0 < size }
    requires small { size < 256 }
    requires run { run < length rows.now }
    ensures { result ≡ place_in_row (table_row rows.now run) size }
{
    let row = rows[run];
    if size <= row.count as usize {
        return Some(row.first as usize + size - 1);
    }
    None
}

// The place of the word of LAST, RUN and a size, if they have one.
#[inline(always)]
fn triple_place(last: bool, run: usize, size: usize) -> Option<usize>
    requires size { 0 < size }
    requires small { size < 256 }
    requires run { run < 64 }
    ensures { result ≡ place_in (starts_of last) run size }
{
    if last {
        row_place(&LAST_1_ROWS, run, size)
    } else {
        row_place(&LAST_0_ROWS, run, size)
    }
}

// LEVEL in two's complement.
fn level_byte(level: i8) -> u32
    ensures byte { result ≡ byte_of level }
    ensures below { result < 256 }
{
    if level < 0 {
        (256 + level as i32) as u32
    } else {
        level as u32
    }
}

// An escape as a number of 22 bits: its four fields. Out of line, it would want each event in memory.
#[inline(always)]
fn escape_number(event: &Coefficient) -> u32
    requires { IsEvent (coefficient_of event.now) }
    ensures text { spelled 22 result ≡ fields (escape_fields (coefficient_of event.now)) }
    ensures fits { result < 2 ^ 22 }
{
    let head = 2 * 3 + event.last as u32;
    (head * 64 + event.run as u32) * 256 + level_byte(event.level)
}

/// The text of an event as a number, and how many bits it has, 22 at most: the word of its LAST, RUN
/// and size with the sign, where they have one, and else an escape.
#[inline(always)]
pub fn event_number(event: &Coefficient) -> (u32, u32)
    requires { IsEvent (coefficient_of event.now) }
    ensures text { spelled result.1 result.0 ≡ event_text (coefficient_of event.now) }
    ensures fits { result.0 < 2 ^ result.1 }
    ensures few { result.1 ≤ 22 }
{
    match triple_place(event.last, event.run as usize, size(event.level)) {
        Some(place) => signed_number(&EVENTS, place, event.level < 0),
        None => (escape_number(event), 22),
    }
}

/// Writes an event: the word of its LAST, RUN and size with the sign, where they have one, and else
/// an escape.
#[inline(always)]
pub fn write_event(writer: &mut BitWriter<'_>, event: &Coefficient)
    requires event { IsEvent (coefficient_of event.now) }
    requires room { len_of writer.old + length (event_text (coefficient_of event.now))
        ≤ room_of writer.old }
    ensures bits { Appends writer.old writer.new (event_text (coefficient_of event.now)) }
    ensures len { len_of writer.new
        ≡ len_of writer.old + length (event_text (coefficient_of event.now)) }
{
    let (number, len) = event_number(event);
    writer.put(number, len);
}

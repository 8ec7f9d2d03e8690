//! Events as numbers: a sign, LEVEL of an escape, and a whole event by one look at its bits.
ghost use Rattle.std.specs.Prelude.{◌≡◌, ◌≢◌, ◌+◌, ◌<◌, ◌≤◌, ◌/◌, ◌%◌, ◌^◌, length, slice_get, IfSome, IsTrue, None};
ghost use Rattle.code_tables.specs.Words.{code_at};
ghost use Rattle.code_tables.specs.Tables.{signed, escaped_level};
ghost use Rattle.code_tables.specs.Packed.{is_packed};
ghost use Rattle.code_tables.specs.Seen.{IsWordIn, IsEventIn};

use crate::code::{Code, Coefficient, Level};
use crate::event_tables::{LONG_EVENTS, SHORT_EVENTS};

/// A size with its sign, 1 for minus.
pub fn with_sign(sign: u32, size: u8) -> i8
    requires { size < 128 }
    ensures { result ≡ signed sign size }
{
    if sign == 0 { size as i8 } else { -(size as i8) }
}

/// What the word at a place stands for; none for the escape.
pub fn level_at(levels: &[Level], place: usize) -> Option<Level>
    ensures { result ≡ slice_get levels.now place }
{
    levels.get(place).copied()
}

/// LEVEL of an escape, in two's complement.
pub fn escape_level(bits: u32) -> i8
    requires byte { bits < 256 }
    requires in_range { bits ≢ 128 }
    ensures { result ≡ escaped_level bits }
{
    if bits < 128 {
        bits as i8
    } else {
        -((256 - bits) as i8)
    }
}

/// An event that bits begin with, and how many of them are its own.
#[derive(Clone, Copy)]
pub struct SeenEvent {
    pub event: Coefficient,
    pub len: u32,
}

/// How many bits the code at a place of a table has.
pub fn len_at(codes: &[Code], place: usize) -> u32
    requires { place < length codes.now }
    ensures { result ≡ (code_at codes.now place).len }
{
    codes[place].len as u32
}

// The event whose word twelve bits begin with, as one number, by look-up; 0 where there is none.
#[inline(always)]
fn packed_event(seen: u32) -> u32
    requires { seen < 2 ^ 12 }
    ensures event { result ≢ 0 → IsTrue (is_packed 12 seen result) }
    ensures small { result < 2 ^ 16 }
{
    let short = SHORT_EVENTS[(seen >> 4) as usize];
    if short != 0 {
        return short as u32;
    }
    let seen = seen as usize;
    if seen < LONG_EVENTS.len() {
        return LONG_EVENTS[seen] as u32;
    }
    0
}

// An event of the tables, with the sign that stands after its word in 13 bits.
#[inline(always)]
fn unpacked(seen: u32, packed: u32) -> SeenEvent
    requires len { packed % 16 ≤ 12 }
    requires small { packed < 2 ^ 16 }
    requires event { IsTrue (is_packed 12 (seen / 2) packed) }
    ensures { IsEventIn 13 seen result }
{
    let len = packed % 16;
    let sign = (seen >> (12 - len)) % 2;
    let event = Coefficient {
        last: packed / 16 % 2 == 1,
        run: (packed / 32 % 64) as u8,
        level: with_sign(sign, (packed / 2048) as u8),
    };
    SeenEvent {
        event,
        len: len + 1,
    }
}

/// The event that 13 bits begin with, which are as many as a word and its sign have. None where
/// they begin with no word of an event: with the escape, or with none.
#[inline(always)]
pub fn seen_event(seen: u32) -> Option<SeenEvent>
    requires { seen < 2 ^ 13 }
    ensures { IfSome result (λ found. IsEventIn 13 seen found) }
{
    let packed = packed_event(seen >> 1);
    if packed == 0 {
        return None;
    }
    Some(unpacked(seen, packed))
}

// An event by the escape that 22 bits are. None where LEVEL is 0 or -128.
fn escaped(seen: u32) -> Option<SeenEvent>
    requires { IsWordIn 22 seen None 7 }
    ensures { IfSome result (λ found. IsEventIn 22 seen found) }
{
    let level = seen % 256;
    if level == 0 || level == 128 {
        return None;
    }
    let event = Coefficient {
        last: (seen >> 14) % 2 == 1,
        run: ((seen >> 8) % 64) as u8,
        level: escape_level(level),
    };
    Some(SeenEvent { event, len: 22 })
}

/// The event whose escape 22 bits are, which are as many as an escape has. None where they begin
/// with no escape, or its LEVEL is refused.
pub fn seen_escape(seen: u32) -> Option<SeenEvent>
    requires { seen < 2 ^ 22 }
    ensures { IfSome result (λ found. IsEventIn 22 seen found) }
{
    if seen >> 15 == 3 {
        return escaped(seen);
    }
    None
}

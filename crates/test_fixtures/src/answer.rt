//! What a row asks for, and what is answered.
ghost use Rattle.std.specs.Prelude.{◌≤◌};

use crate::bits::{Bits, Names};
use h263_bits::BitReader;
use h263_types::{Clock, Format};
use std::alloc::Global;
use std::fmt::{Debug, Write};
use std::str::SplitWhitespace;

/// Why a row is refused that says no call, no number, one not in range, or more than the call reads.
pub const WRONG: &str = "a word that is not understood";

/// Why a row is refused for which there was no memory.
pub const NO_MEMORY: &str = "no memory";

/// The words after a call's name, which it reads one after the other, and the bits.
#[derive(Drop)]
pub struct Asked<'a> {
    pub words: SplitWhitespace<'a>,
    pub names: &'a Names,
    pub bytes: Vec<u8>,
    pub len: u32,
    /// Whether a word was missing, or could not be read. The row is refused then, and so whatever
    /// stands for that word is right.
    pub wrong: bool,
}

/// The words and the bits that are answered.
#[derive(Drop)]
pub struct Answer {
    pub words: String,
    pub bits: Bits,
    /// Why the call can't be answered, "" if it can. The row is refused then, whatever is answered.
    pub why: &'static str,
}

impl<'a> Asked<'a> {
    /// The next word.
    pub fn word(&mut self) -> &'a str {
        match self.words.next() {
            Some(word) => word,
            None => {
                self.wrong = true;
                ""
            }
        }
    }

    /// A number of at most `most`.
    pub fn number(&mut self, most: u32) -> u32
        ensures { result ≤ most }
    {
        match self.word().parse::<u32>() {
            Ok(number) if number <= most => number,
            _ => {
                self.wrong = true;
                0
            }
        }
    }

    /// A number of at most `most`, as a place of a slice.
    pub fn place(&mut self, most: usize) -> usize
        ensures { result ≤ most }
    {
        match self.word().parse::<usize>() {
            Ok(number) if number <= most => number,
            _ => {
                self.wrong = true;
                0
            }
        }
    }

    /// A picture clock by its name.
    pub fn clock(&mut self) -> Clock {
        match self.word() {
            "standard" => Clock::Standard,
            "custom" => Clock::Custom,
            _ => {
                self.wrong = true;
                Clock::Standard
            }
        }
    }

    /// A format by its name.
    pub fn format(&mut self) -> Format {
        match self.word() {
            "sub-qcif" => Format::SubQcif,
            "qcif" => Format::Qcif,
            "cif" => Format::Cif,
            _ => {
                self.wrong = true;
                Format::SubQcif
            }
        }
    }
}

/// A reader of the first `len` bits of these bytes, from bit `from` on.
pub fn reader_of(bytes: &[u8], from: u32, len: u32) -> BitReader<'_> {
    let bytes = &bytes[..bytes.len().min(65_535)];
    let to = len.min(8 * bytes.len() as u32);
    BitReader::new(bytes, from.min(to), to)
}

/// A word's call, and what it is asked: `play`, `send:100`.
pub fn call_of(word: &str) -> (&str, &str) {
    word.split_once(':').unwrap_or((word, ""))
}

impl Answer {
    /// An answer that says nothing so far.
    pub fn new(alloc: Global) -> Answer {
        Answer {
            words: String::new(alloc),
            bits: Bits::new(alloc),
            why: "",
        }
    }

    /// Refuses the row as another answer does.
    pub fn refuse_as(&mut self, other: &Answer) {
        if !other.why.is_empty() {
            self.why = other.why;
        }
    }

    /// Says a value, as Rust prints it.
    pub fn say<T: Debug>(&mut self, value: &T) {
        if write!(self.words, " {value:?}").is_err() {
            self.why = NO_MEMORY;
        }
    }

    /// Puts the first `len` bits of these bytes, or all.
    pub fn put(&mut self, bytes: &[u8], len: u32) {
        self.bits.put(bytes, len);
    }

    /// Says bytes.
    pub fn say_bytes(&mut self, bytes: &[u8]) {
        self.add(" x");
        for byte in bytes {
            self.add_byte(*byte);
        }
    }

    /// Says this text as it is.
    pub fn add(&mut self, text: &str) {
        if self.words.push_str(text).is_err() {
            self.why = NO_MEMORY;
        }
    }

    fn add_byte(&mut self, byte: u8) {
        if write!(self.words, "{byte:02x}").is_err() {
            self.why = NO_MEMORY;
        }
    }

    /// Says so many samples as the row asks for, from the place on that it names.
    pub fn say_some(&mut self, samples: &[u8], asked: &mut Asked<'_>) {
        let from = asked.place(samples.len());
        let count = asked.place(samples.len() - from);
        self.say(&&samples[from..from + count]);
    }

    /// The number of at most `most` that a text says.
    pub fn number(&mut self, text: &str, most: u32) -> u32
        ensures { result ≤ most }
    {
        match text.parse::<u32>() {
            Ok(number) if number <= most => number,
            _ => {
                self.why = WRONG;
                0
            }
        }
    }

    /// The whole bytes that the parts of a text spell, as `$FLAT:341=81`.
    pub fn bytes(&mut self, alloc: Global, names: &Names, text: &str) -> Vec<u8> {
        let mut bits = Bits::read_parts(alloc, names, text);
        let bytes = bits.packed(alloc);
        if bits.len() % 8 != 0 {
            self.why = WRONG;
        }
        if !bits.why.is_empty() {
            self.why = bits.why;
        }
        bytes
    }

    /// The two numbers that a text says, as `1,0`, each of at most `most`.
    pub fn pair(&mut self, text: &str, most: u32) -> (u32, u32)
        ensures one { result.0 ≤ most }
        ensures other { result.1 ≤ most }
    {
        let (one, other) = text.split_once(',').unwrap_or((text, ""));
        (self.number(one, most), self.number(other, most))
    }
}

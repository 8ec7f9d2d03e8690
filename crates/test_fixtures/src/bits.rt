//! Bits that are written in words: `0110`, bytes `x80ff`, a constant `$name`, each also `48*0110`
//! times; and changes to what stands before: `bits=69` and `bytes=20` keep so many, `drop=14` drops
//! so many bytes, `3=ff` changes a byte.
use crate::answer::{NO_MEMORY, WRONG};
use std::alloc::Global;

/// Bits, each in an element.
#[derive(Drop)]
pub struct Bits {
    bits: Vec<u8>,
    /// Why these aren't the bits that were meant, "" if they are.
    pub why: &'static str,
}

/// Bits by their names.
#[derive(Drop)]
pub struct Names {
    rows: Vec<(String, Bits)>,
}

impl Names {
    /// No names.
    pub fn new(alloc: Global) -> Names {
        Names {
            rows: Vec::new(alloc),
        }
    }

    /// Names these bits. Answers whether there was memory for it.
    pub fn push(&mut self, alloc: Global, name: &str, bits: Bits) -> bool {
        match String::from_str(alloc, name) {
            Ok(name) => self.rows.push((name, bits)).is_ok(),
            Err(_) => false,
        }
    }

    fn find(&self, wanted: &str) -> Option<&Bits> {
        for (name, bits) in &self.rows {
            if name.as_str() == wanted {
                return Some(bits);
            }
        }
        None
    }
}

impl Bits {
    /// No bits.
    pub fn new(alloc: Global) -> Bits {
        Bits {
            bits: Vec::new(alloc),
            why: "",
        }
    }

    /// The bits of these words.
    pub fn read(alloc: Global, names: &Names, text: &str) -> Bits {
        let mut bits = Bits::new(alloc);
        for word in text.split_whitespace() {
            bits.put_word(names, word);
        }
        bits
    }

    /// The bits of a word whose parts stand between colons.
    pub fn read_parts(alloc: Global, names: &Names, text: &str) -> Bits {
        let mut bits = Bits::new(alloc);
        for part in text.split(':') {
            bits.put_word(names, part);
        }
        bits
    }

    /// How many there are.
    pub fn len(&self) -> u32 {
        self.bits.len().min(u32::MAX as usize) as u32
    }

    /// The bytes that they fill; the last one ends with zeros.
    pub fn packed(&mut self, alloc: Global) -> Vec<u8> {
        let mut bytes = Vec::new(alloc);
        let mut cut = false;
        for octet in self.bits.chunks(8) {
            if bytes.push(byte_of(octet)).is_err() {
                cut = true;
            }
        }
        if cut {
            self.why = NO_MEMORY;
        }
        bytes
    }

    /// Whether they are the same.
    pub fn is_same(&self, other: &Bits) -> bool {
        self.bits.as_slice() == other.bits.as_slice()
    }

    /// Adds them to a text of zeros and ones, as far as there is memory.
    pub fn add_to(&self, text: &mut String) {
        for bit in &self.bits {
            let _added = text.push(char::from(b'0' | *bit));
        }
    }

    fn put_bit(&mut self, bit: u8) {
        if self.bits.push(bit & 1).is_err() {
            self.why = NO_MEMORY;
        }
    }

    /// Puts the first `len` bits of these bytes, or all.
    pub fn put(&mut self, bytes: &[u8], len: u32) {
        for at in 0..8 * bytes.len().min(65_535) {
            if at < len as usize {
                self.put_bit(bytes[at / 8] >> (7 - at % 8));
            }
        }
    }

    fn put_digits(&mut self, digits: &str) {
        for digit in digits.bytes() {
            if digit & 0xfe != b'0' {
                self.why = WRONG;
            }
            self.put_bit(digit);
        }
    }

    fn put_hex(&mut self, digits: &str) {
        for digit in digits.chars() {
            let value = digit.to_digit(16).unwrap_or(16);
            if value > 15 {
                self.why = WRONG;
            }
            self.put(&[(value as u8) << 4], 4);
        }
    }

    fn put_name(&mut self, bits: Option<&Bits>) {
        match bits {
            None => self.why = WRONG,
            Some(named) => {
                if self.bits.extend_from_slice(&named.bits).is_err() {
                    self.why = NO_MEMORY;
                }
            }
        }
    }

    fn put_part(&mut self, names: &Names, part: &str) {
        if let Some(digits) = part.strip_prefix('x') {
            self.put_hex(digits);
        } else if let Some(name) = part.strip_prefix('$') {
            self.put_name(names.find(name));
        } else {
            self.put_digits(part);
        }
    }

    fn keep(&mut self, len: usize) {
        if len > self.bits.len() {
            self.why = WRONG;
        }
        self.bits.truncate(len);
    }

    // The bits after the first so many alone.
    fn drop_first(&mut self, count: usize) {
        if count > self.bits.len() {
            self.why = WRONG;
            return;
        }
        self.bits.rotate_left(count);
        self.bits.truncate(self.bits.len() - count);
    }

    // Puts a value in place of the byte that begins here.
    fn change(&mut self, from: usize, value: u32) {
        let to = from.saturating_add(8);
        if to > self.bits.len() || value > 255 {
            self.why = WRONG;
            return;
        }
        let mut left = value as u8;
        for bit in self.bits[from..to].iter_mut().rev() {
            *bit = left & 1;
            left >>= 1;
        }
    }

    // A number; one that can't be read is more than any place.
    fn number(text: &str) -> usize {
        text.parse::<usize>().unwrap_or(usize::MAX)
    }

    // Changes what stands before, as these words ask.
    fn set(&mut self, what: &str, value: &str) {
        match what {
            "bits" => self.keep(Bits::number(value)),
            "bytes" => self.keep(Bits::number(value).saturating_mul(8)),
            "drop" => self.drop_first(Bits::number(value).saturating_mul(8)),
            place => {
                let value = u32::from_str_radix(value, 16).unwrap_or(256);
                self.change(Bits::number(place).saturating_mul(8), value);
            }
        }
    }

    fn put_times(&mut self, names: &Names, times: &str, part: &str) {
        let times = times.parse::<u32>().unwrap_or(0);
        if times == 0 {
            self.why = WRONG;
        }
        for _time in 0..times {
            self.put_part(names, part);
        }
    }

    fn put_word(&mut self, names: &Names, word: &str) {
        if let Some((times, part)) = word.split_once('*') {
            self.put_times(names, times, part);
        } else if let Some((what, value)) = word.split_once('=') {
            self.set(what, value);
        } else {
            self.put_part(names, word);
        }
    }
}

// The byte that begins with these bits; after them stand zeros.
fn byte_of(bits: &[u8]) -> u8 {
    let mut byte = 0;
    let mut mask = 128;
    for bit in bits {
        if *bit == 1 {
            byte |= mask;
        }
        mask /= 2;
    }
    byte
}

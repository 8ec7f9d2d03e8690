//! A case of a row, and what came of it.
use crate::pieces::Pieces;
use std::alloc::Global;
use std::fmt::Debug;

/// A case of a row: its own fields and those of each row of its test, as `KEY: VALUE | KEY: VALUE`;
/// the most bytes that one call of a desk moves, and which call fails.
#[derive(Clone, Copy)]
pub struct Case<'a> {
    pub rt: &'a HostRuntime,
    pub pieces: &'a Pieces,
    pub own: &'a str,
    pub each: &'a str,
    pub size: usize,
    pub failing: u64,
}

/// What came of a case: the key of the first output that differs from what is wanted, with the first
/// byte that does.
#[derive(Drop)]
pub struct Outcome {
    pub alloc: Global,
    /// What is told, and the key of what is wanted of it.
    pub told: Vec<u8>,
    pub differs: &'static str,
    pub at: usize,
    /// Whether anything was compared.
    pub compared: bool,
    /// Why the case can't be run, "" if it can.
    pub why: &'static str,
}

/// The value of a field, the row's own before that of each row, or else this one.
pub fn field<'a>(own: &'a str, each: &'a str, key: &str, other: &'a str) -> &'a str {
    for fields in &[own, each] {
        for part in fields.split(" | ") {
            match part.split_once(": ") {
                Some((found, value)) if found == key => return value,
                _ => {}
            }
        }
    }
    other
}

impl<'a> Case<'a> {
    /// The text of a field, empty where it isn't given.
    pub fn text(&self, key: &str) -> &'a str {
        field(self.own, self.each, key, "")
    }

    /// The bytes of a field, none where it isn't given.
    pub fn bytes(&self, key: &str, out: &mut Outcome) -> Vec<u8> {
        let spelled = self.pieces.spell(self.rt, self.text(key));
        if spelled.wrong {
            out.why = "a value that spells no bytes";
        }
        spelled.bytes
    }

    /// The number of a field, or else this one.
    pub fn number_or(&self, key: &str, other: &'a str, out: &mut Outcome) -> u64 {
        match field(self.own, self.each, key, other).parse::<u64>() {
            Ok(number) => number,
            Err(_) => {
                out.why = "no number";
                0
            }
        }
    }

    /// The command's words; `''` is the empty one.
    pub fn words(&self, out: &mut Outcome) -> Vec<&'a str> {
        let mut words = Vec::new(out.alloc);
        for word in self.text("words").split_whitespace() {
            if words.push(word.strip_prefix("''").unwrap_or(word)).is_err() {
                out.why = "no memory";
            }
        }
        words
    }

    /// Compares an output with the bytes of a field, unless the row says that it may be any.
    pub fn compare(&self, key: &'static str, found: &[u8], out: &mut Outcome) {
        if !self.text("any").contains(key) {
            let wanted = self.bytes(key, out);
            out.note(key, found, &wanted);
        }
    }

    /// Compares what is told with the bytes of a field, and forgets it.
    pub fn compare_told(&self, key: &'static str, out: &mut Outcome) {
        let wanted = self.bytes(key, out);
        out.note_told(key, &wanted);
    }
}

// The first place at which they differ.
fn first_other(found: &[u8], wanted: &[u8]) -> usize {
    let len = found.len().min(wanted.len());
    for at in 0..len {
        if found[at] != wanted[at] {
            return at;
        }
    }
    len
}

impl Outcome {
    /// Nothing has come so far.
    pub fn new(alloc: Global) -> Outcome {
        Outcome {
            alloc,
            told: Vec::new(alloc),
            differs: "",
            at: 0,
            compared: false,
            why: "",
        }
    }

    fn note(&mut self, key: &'static str, found: &[u8], wanted: &[u8]) {
        self.compared = true;
        if found != wanted && self.differs.is_empty() {
            self.differs = key;
            self.at = first_other(found, wanted);
        }
    }

    fn note_told(&mut self, key: &'static str, wanted: &[u8]) {
        if self.told.as_slice() != wanted && self.differs.is_empty() {
            self.differs = key;
            self.at = first_other(&self.told, wanted);
        }
        self.told.clear();
        self.compared = true;
    }

    /// Tells bytes.
    pub fn add(&mut self, bytes: &[u8]) {
        if self.told.extend_from_slice(bytes).is_err() {
            self.why = "no memory";
        }
    }

    /// Tells a value, as Rust prints it.
    pub fn say<T: Debug>(&mut self, value: &T) {
        match format!(in self.alloc; "{value:?}") {
            Ok(text) => self.add(text.as_bytes()),
            Err(_) => self.why = "no memory",
        }
    }
}

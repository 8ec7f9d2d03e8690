//! Bytes as rows spell them: a text in quotes, in which `\n` is a newline; `x` and digits in base
//! 16; the name of a piece; `@` and the name of a file, `@NAME,FROM,TO` for the bytes from one place
//! to before another; `+SEED,COUNT`, so many frames of made pictures in QCIF; and `*N`, by which what
//! stands before it comes N times in all.
use crate::made::add_frames;
use std::alloc::Global;
use std::fs;

#[derive(Drop)]
struct Piece {
    name: String,
    bytes: Vec<u8>,
}

/// Bytes that have names.
#[derive(Drop)]
pub struct Pieces {
    list: Vec<Piece>,
}

/// What a value spells so far.
#[derive(Drop)]
pub struct Spelled {
    pub bytes: Vec<u8>,
    // Where the last part begins.
    from: usize,
    /// Whether a part is no bytes, or there was no memory for it.
    pub wrong: bool,
}

/// The number that a word is, 0 where it is none.
pub fn place(word: &str) -> usize {
    word.parse::<usize>().unwrap_or(0)
}

impl Spelled {
    fn new(alloc: Global) -> Spelled {
        Spelled {
            bytes: Vec::new(alloc),
            from: 0,
            wrong: false,
        }
    }

    fn add(&mut self, part: &[u8]) {
        self.from = self.bytes.len();
        self.wrong |= self.bytes.extend_from_slice(part).is_err();
    }

    fn add_quoted(&mut self, alloc: Global, text: &str) {
        match text.replace(alloc, "\\n", "\n") {
            Ok(text) => self.add(text.as_bytes()),
            Err(_) => self.wrong = true,
        }
    }

    fn add_digits(&mut self, alloc: Global, digits: &str) {
        match hex::decode(alloc, digits.as_bytes()) {
            Ok(bytes) => self.add(&bytes),
            Err(_) => self.wrong = true,
        }
    }

    fn add_some(&mut self, bytes: &[u8], places: &str) {
        let (from, to) = places.split_once(',').unwrap_or(("0", ""));
        let to = to.parse::<usize>().unwrap_or(bytes.len());
        match bytes.get(place(from)..to) {
            Some(part) => self.add(part),
            None => self.wrong = true,
        }
    }

    fn add_file(&mut self, rt: &HostRuntime, word: &str) {
        let (name, places) = word.split_once(',').unwrap_or((word, ""));
        match fs::read(rt, name) {
            Ok(bytes) => self.add_some(&bytes, places),
            Err(_) => self.wrong = true,
        }
    }

    fn add_made(&mut self, word: &str) {
        let (seed, count) = word.split_once(',').unwrap_or((word, ""));
        let seed = seed.parse::<u32>().unwrap_or(0);
        let count = count.parse::<u32>().unwrap_or(0);
        self.wrong |= !add_frames(seed, count, &mut self.bytes);
    }

    fn repeat(&mut self, alloc: Global, times: usize) {
        let last = self.bytes.get(self.from..).unwrap_or(&[]);
        match last.repeat(alloc, times.saturating_sub(1)) {
            Ok(bytes) => self.add(&bytes),
            Err(_) => self.wrong = true,
        }
    }
}

impl Pieces {
    /// No pieces.
    pub fn new(alloc: Global) -> Pieces {
        Pieces {
            list: Vec::new(alloc),
        }
    }

    /// Names these bytes. Whether there was memory.
    pub fn push(&mut self, alloc: Global, name: &str, bytes: Vec<u8>) -> bool {
        match String::from_str(alloc, name) {
            Ok(name) => self.list.push(Piece { name, bytes }).is_ok(),
            Err(_) => false,
        }
    }

    fn find(&self, name: &str) -> Option<&[u8]> {
        for piece in self.list.iter() {
            if piece.name.as_str() == name {
                return Some(piece.bytes.as_slice());
            }
        }
        None
    }

    fn spell_word(&self, rt: &HostRuntime, word: &str, spelled: &mut Spelled) {
        match self.find(word) {
            Some(bytes) => spelled.add(bytes),
            None => spell_sign(rt, word, spelled),
        }
    }

    fn spell_words(&self, rt: &HostRuntime, words: &str, spelled: &mut Spelled) {
        for word in words.split_whitespace() {
            self.spell_word(rt, word, spelled);
        }
    }

    /// The bytes that a value spells.
    pub fn spell(&self, rt: &HostRuntime, value: &str) -> Spelled {
        let mut spelled = Spelled::new(rt.alloc());
        let mut quoted = false;
        for text in value.split('"') {
            if quoted {
                spelled.add_quoted(rt.alloc(), text);
            } else {
                self.spell_words(rt, text, &mut spelled);
            }
            quoted = !quoted;
        }
        spelled.wrong |= !quoted;
        spelled
    }
}

// A word that begins with a sign.
fn spell_sign(rt: &HostRuntime, word: &str, spelled: &mut Spelled) {
    let (sign, rest) = word.split_at_checked(1).unwrap_or(("", ""));
    match sign.as_bytes() {
        b"x" => spelled.add_digits(rt.alloc(), rest),
        b"@" => spelled.add_file(rt, rest),
        b"+" => spelled.add_made(rest),
        b"*" => spelled.repeat(rt.alloc(), place(rest)),
        _ => spelled.wrong = true,
    }
}

//! Rows of a file, and what came of them.
//!
//! A line `test NAME` begins a test, and each other line is a row: `call words : bits = words :
//! bits`, what is done and what is wanted; where there are no bits, no colon. A line that begins with
//! a blank goes on with the row before it. `let NAME : bits` names bits for the rows after it, and `#`
//! begins a comment.
use crate::answer::{Answer, Asked, NO_MEMORY, WRONG};
use crate::bits::{Bits, Names};
use std::alloc::Global;
use std::fmt::Write;

/// The calls of which the rows of a file speak.
pub trait Answers {
    /// The name of the file.
    fn file(&self) -> &'static str;

    /// Does the call of this name by the words and the bits after it.
    fn answer(&self, alloc: Global, call: &str, asked: &mut Asked<'_>, answer: &mut Answer);
}

/// What came of rows: a text for each test, and whether all are right.
#[derive(Drop)]
pub struct Rows {
    alloc: Global,
    names: Names,
    test: String,
    rows: u32,
    /// The number of rows of each test, and each row that is not as it was wanted.
    pub said: String,
    pub right: bool,
}

// The words and the bits of one side of a row.
fn sides(text: &str) -> (&str, &str) {
    text.split_once(" : ").unwrap_or((text, ""))
}

// What a layer answers to a call.
fn answered<L: Answers>(alloc: Global, layer: &L, names: &Names, call: &str) -> Answer {
    let (words, bits) = sides(call);
    let mut bits = Bits::read(alloc, names, bits);
    let mut asked = Asked {
        words: words.split_whitespace(),
        names,
        bytes: bits.packed(alloc),
        len: bits.len(),
        wrong: false,
    };
    let mut answer = Answer::new(alloc);
    let call = asked.word();
    layer.answer(alloc, call, &mut asked, &mut answer);
    if asked.wrong || asked.words.next().is_some() {
        answer.why = WRONG;
    }
    if !bits.why.is_empty() {
        answer.why = bits.why;
    }
    answer
}

// Why an answer isn't what is wanted, "" if it is.
fn fault_of(answer: &Answer, words: &str, bits: &Bits) -> &'static str {
    if !answer.why.is_empty() {
        return answer.why;
    }
    if !bits.why.is_empty() {
        return bits.why;
    }
    if answer.bits.why.is_empty() && answer.bits.is_same(bits) && answer.words.as_str() == words {
        return "";
    }
    "is answered"
}

// Puts a line after those of the row before it, a blank between them. Answers whether there was
// memory for it.
fn push_line(row: &mut String, line: &str) -> bool {
    if line.starts_with(' ') && row.push(' ').is_err() {
        return false;
    }
    row.push_str(line.trim()).is_ok()
}

impl Rows {
    /// Before the first row.
    pub fn new(alloc: Global) -> Rows {
        Rows {
            alloc,
            names: Names::new(alloc),
            test: String::new(alloc),
            rows: 0,
            said: String::new(alloc),
            right: true,
        }
    }

    /// Ends a test: says its name, and how many rows it had.
    pub fn end_test(&mut self) {
        if self.rows == 0 || writeln!(self.said, "{}: {} rows", self.test, self.rows).is_err() {
            self.right = false;
        }
        self.rows = 0;
    }

    fn begin_test(&mut self, name: &str) {
        if !self.test.is_empty() {
            self.end_test();
        }
        self.test.clear();
        if self.test.push_str(name).is_err() {
            self.right = false;
        }
    }

    fn name(&mut self, line: usize, text: &str) {
        let (name, bits) = sides(text);
        let bits = Bits::read(self.alloc, &self.names, bits);
        if !bits.why.is_empty() || !self.names.push(self.alloc, name, bits) {
            self.complain(line, "bits that can't be named");
        }
    }

    // Says why a row is not right.
    fn complain(&mut self, line: usize, why: &str) {
        self.right = false;
        let _said = writeln!(self.said, "{}, line {line}: {why}", self.test);
    }

    // Says what was answered in place of what was wanted.
    fn show(&mut self, answer: &Answer) {
        let _words = write!(self.said, "{} : ", answer.words);
        answer.bits.add_to(&mut self.said);
        let _end = self.said.push('\n');
    }

    // Runs a row.
    fn run<L: Answers>(&mut self, layer: &L, line: usize, row: &str) {
        if self.test.is_empty() {
            self.complain(line, "a row before the first test");
        }
        self.rows = self.rows.saturating_add(1);
        let (call, wanted) = row
            .split_once(" =")
            .unwrap_or((row, " : nothing is wanted"));
        let (words, bits) = sides(wanted);
        let bits = Bits::read(self.alloc, &self.names, bits);
        let answer = answered(self.alloc, layer, &self.names, call);
        let why = fault_of(&answer, words, &bits);
        if !why.is_empty() {
            self.complain(line, why);
            self.show(&answer);
        }
    }

    // A row, the name of a test, or bits with a name.
    fn take<L: Answers>(&mut self, layer: &L, line: usize, text: &str) {
        if let Some(name) = text.strip_prefix("test ") {
            self.begin_test(name);
        } else if let Some(named) = text.strip_prefix("let ") {
            self.name(line, named);
        } else if !text.is_empty() {
            self.run(layer, line, text);
        }
    }

    /// Takes what the lines of a text say.
    pub fn take_all<L: Answers>(&mut self, layer: &L, text: &str) {
        let mut row = String::new(self.alloc);
        let mut from = 0;
        for (above, line) in text.lines().enumerate() {
            if line.starts_with('#') {
                continue;
            }
            if !line.starts_with(' ') {
                self.take(layer, from, row.as_str());
                row.clear();
                from = above.saturating_add(1);
            }
            if !push_line(&mut row, line) {
                self.complain(from, NO_MEMORY);
            }
        }
        self.take(layer, from, row.as_str());
    }
}

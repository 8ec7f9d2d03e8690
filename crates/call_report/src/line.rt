//! A line of the report.
ghost use Rattle.std.specs.Prelude.{◌≡◌, ◌≤◌, ◌<◌, ◌+◌, ◌++◌, ◌∷◌, [], length, decimal};
ghost use Rattle.h263_types.specs.Texts.{newline};
ghost use Rattle.call_report.specs.Text.{with_pair, gap, HasRoomForWord};
ghost use Rattle.call_report.specs.View.{line_text};

use arrayvec::ArrayString;
use itoa::Buffer;

// The most bytes of a line, its newline among them.
const MAX_BYTES: usize = 256;

/// A line of the report, at most 256 bytes, that grows from left to right.
#[derive(Clone, Copy)]
pub struct Line {
    text: ArrayString<MAX_BYTES>,
}

impl Line {
    /// The line without a byte.
    pub fn empty() -> Line
        ensures value { line_text result ≡ [] }
        ensures len { length (line_text result) ≡ 0 }
    {
        Line {
            text: ArrayString::new(),
        }
    }

    /// Its bytes, with the newline once it has ended.
    pub fn text(&self) -> &[u8]
        ensures value { result.now ≡ line_text self.now }
        ensures fits { length result.now ≤ 256 }
    {
        self.text.as_str().as_bytes()
    }

    /// Appends a word and its number, each after a space; the line's first word stands at its
    /// start.
    #[tactic(auto, using(crate::proofs::Digits::pair_fits))]
    pub fn pair(&mut self, word: &str, number: u64)
        requires { HasRoomForWord (line_text self.old) word.now number }
        ensures value { line_text self.new ≡ with_pair (line_text self.old) word.now number }
        ensures len { length (line_text self.new) ≤ length (line_text self.old) + length word.now + 22 }
    {
        let mut buffer = Buffer::new();
        self.put_gap();
        self.put(word);
        self.put(" ");
        self.put(buffer.format(number));
    }

    /// Appends the newline.
    pub fn end(&mut self)
        requires { length (line_text self.old) < 256 }
        ensures value { line_text self.new ≡ line_text self.old ++ newline }
        ensures len { length (line_text self.new) ≡ length (line_text self.old) + 1 }
    {
        self.put("\n");
    }

    // The line of one text.
    pub(crate) fn of(text: &str) -> Line
        requires { length text.now ≤ 256 }
        ensures value { line_text result ≡ text.now }
        ensures len { length (line_text result) ≡ length text.now }
    {
        let mut line = Line::empty();
        line.put(text);
        line
    }

    // The line of a letter and a space.
    pub(crate) fn of_letter(letter: u8) -> Line
        requires { letter < 128 }
        ensures { line_text result ≡ letter ∷ 32 ∷ [] }
    {
        let mut text = ArrayString::new();
        text.push(letter as char);
        text.push(' ');
        Line { text }
    }

    fn put_gap(&mut self)
        requires { length (line_text self.old) < 256 }
        ensures value { line_text self.new ≡ line_text self.old ++ gap (line_text self.old) }
    {
        if !self.text.is_empty() {
            self.put(" ");
        }
    }

    pub(crate) fn put(&mut self, text: &str)
        requires { length (line_text self.old) + length text.now ≤ 256 }
        ensures value { line_text self.new ≡ line_text self.old ++ text.now }
        ensures len { length (line_text self.new) ≡ length (line_text self.old) + length text.now }
    {
        self.text.push_str(text);
    }

    // Appends a number, which has at most 20 digits.
    #[tactic(auto, using(crate::proofs::Digits::decimal_short))]
    pub(crate) fn put_number(&mut self, number: u64)
        requires { length (line_text self.old) + 20 ≤ 256 }
        ensures value { line_text self.new ≡ line_text self.old ++ decimal number }
        ensures len { length (line_text self.new) ≤ length (line_text self.old) + 20 }
    {
        let mut buffer = Buffer::new();
        self.put(buffer.format(number));
    }
}

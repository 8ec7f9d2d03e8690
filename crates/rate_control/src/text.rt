//! The lines of a meter.
ghost use Rattle.std.specs.Prelude.{◌≡◌, ◌≤◌, ◌+◌, ◌++◌, [], length, decimal};
ghost use Rattle.h263_types.specs.Texts.{newline};
ghost use Rattle.rate_control.specs.Text.{counted_word, picture_line, meter_text, totals_line};

use crate::meter::Totals;
use arrayvec::ArrayString;
use itoa::Buffer;

// The most bytes of a line, its newline among them.
const MAX_BYTES: usize = 128;

/// A line of at most 128 bytes.
#[derive(Clone, Copy)]
pub struct Text {
    line: ArrayString<MAX_BYTES>,
}

impl Text {
    fn empty() -> Text
        ensures { meter_text result ≡ [] }
    {
        Text {
            line: ArrayString::new(),
        }
    }

    /// Its bytes, with the newline.
    pub fn text(&self) -> &[u8]
        ensures value { result.now ≡ meter_text self.now }
        ensures fits { length result.now ≤ 128 }
    {
        self.line.as_str().as_bytes()
    }

    fn put(&mut self, text: &str)
        requires { length (meter_text self.old) + length text.now ≤ 128 }
        ensures { meter_text self.new ≡ meter_text self.old ++ text.now }
    {
        self.line.push_str(text);
    }

    fn put_digits(&mut self, number: u64)
        requires { length (meter_text self.old) + length (decimal number) ≤ 128 }
        ensures { meter_text self.new ≡ meter_text self.old ++ decimal number }
    {
        let mut buffer = Buffer::new();
        self.put(buffer.format(number));
    }

    // A word, and its number of 20 digits at most.
    fn count(&mut self, word: &str, number: u64)
        requires { length (meter_text self.old) + length word.now + 20 ≤ 128 }
        ensures value { meter_text self.new ≡ meter_text self.old ++ counted_word word.now number }
        ensures len { length (meter_text self.new)
            ≤ length (meter_text self.old) + length word.now + 20 }
    {
        self.put(word);
        self.put_digits(number);
    }

    fn end(&mut self)
        requires { length (meter_text self.old) + 1 ≤ 128 }
        ensures { meter_text self.new ≡ meter_text self.old ++ newline }
    {
        self.put("\n");
    }
}

/// The line of a picture that has ended: its number, its size in bytes, and the level.
pub fn picture_text(number: u32, size: u64, level: u64) -> Text
    ensures { meter_text result ≡ picture_line number size level }
{
    let mut text = Text::empty();
    text.count("", number as u64);
    text.count(" ", size);
    text.count(" ", level);
    text.end();
    text
}

/// The line of a whole log: how many pictures there are, the greatest level, how many levels lay
/// above the bucket, and how many packets were refused.
pub fn totals_text(totals: &Totals) -> Text
    ensures { meter_text result ≡ totals_line totals.now }
{
    let mut text = Text::empty();
    text.count("pictures ", totals.pictures as u64);
    text.count(" greatest ", totals.greatest);
    text.count(" over ", totals.over as u64);
    text.count(" refused ", totals.refused as u64);
    text.end();
    text
}

//! The line of a verdict.
ghost use Rattle.std.specs.Prelude.{◌≡◌, ◌≤◌, ◌+◌, ◌++◌, [], length, decimal};
ghost use Rattle.h263_types.specs.Texts.{newline};
ghost use Rattle.stream_audit.specs.Text.{audit_text, verdict_line, rule_word};

use crate::verdict::{Rule, Verdict};
use arrayvec::ArrayString;
use itoa::Buffer;

// The most bytes of a line, its newline among them.
const MAX_BYTES: usize = 32;

/// A line of at most 32 bytes.
#[derive(Clone, Copy)]
pub struct Text {
    line: ArrayString<MAX_BYTES>,
}

impl Text {
    fn empty() -> Text
        ensures { audit_text result ≡ [] }
    {
        Text {
            line: ArrayString::new(),
        }
    }

    /// Its bytes, with the newline.
    pub fn text(&self) -> &[u8]
        ensures value { result.now ≡ audit_text self.now }
        ensures fits { length result.now ≤ 32 }
    {
        self.line.as_str().as_bytes()
    }

    fn put(&mut self, text: &str)
        requires { length (audit_text self.old) + length text.now ≤ 32 }
        ensures value { audit_text self.new ≡ audit_text self.old ++ text.now }
        ensures len { length (audit_text self.new) ≡ length (audit_text self.old) + length text.now }
    {
        self.line.push_str(text);
    }

    // A number of 10 digits at most.
    fn put_number(&mut self, number: u32)
        requires { length (audit_text self.old) + 10 ≤ 32 }
        ensures value { audit_text self.new ≡ audit_text self.old ++ decimal number }
        ensures len { length (audit_text self.new) ≤ length (audit_text self.old) + 10 }
    {
        let mut buffer = Buffer::new();
        self.put(buffer.format(number));
    }

    fn end(&mut self)
        requires { length (audit_text self.old) + 1 ≤ 32 }
        ensures { audit_text self.new ≡ audit_text self.old ++ newline }
    {
        self.put("\n");
    }
}

fn word(rule: Rule) -> &'static str
    ensures value { result.now ≡ rule_word rule }
    ensures len { length result.now ≤ 9 }
{
    match rule {
        Rule::Packet => "packet",
        Rule::Number => "number",
        Rule::Header => "header",
        Rule::Overlap => "overlap",
        Rule::Gap => "gap",
        Rule::Reference => "reference",
    }
}

/// The line of a verdict: `yes pictures 2`, or `no 1 reference`.
pub fn verdict_text(verdict: &Verdict) -> Text
    ensures { audit_text result ≡ verdict_line verdict.now }
{
    let mut text = Text::empty();
    match *verdict {
        Verdict::Yes { pictures } => {
            text.put("yes pictures ");
            text.put_number(pictures);
        }
        Verdict::No { number, rule } => {
            text.put("no ");
            text.put_number(number);
            text.put(" ");
            text.put(word(rule));
        }
    }
    text.end();
    text
}

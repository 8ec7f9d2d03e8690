//! The line of a picture.
ghost use Rattle.std.specs.Prelude.{◌≡◌, ◌≤◌, ◌<◌, ◌+◌, ◌++◌, length, IfSome};
ghost use Rattle.call_report.specs.Text.{mark_part, party_part, picture_text, reference_part};
ghost use Rattle.call_report.specs.View.{line_text};

use crate::line::Line;
use h263_types::Mark;

fn party_start(party: Option<u8>) -> Line
    requires { IfSome party (λ letter. letter < 128) }
    ensures value { line_text result ≡ party_part party }
    ensures short { length (line_text result) ≤ 2 }
{
    match party {
        Some(letter) => Line::of_letter(letter),
        None => Line::empty(),
    }
}

fn mark_words(mark: Option<Mark>) -> &'static str
    ensures value { result.now ≡ mark_part mark }
    ensures short { length result.now ≤ 8 }
{
    match mark {
        Some(Mark::Exact) => " exact",
        Some(Mark::Patched) => " patched",
        Some(Mark::Held) => " held",
        None => "",
    }
}

impl Line {
    fn put_reference(&mut self, reference: Option<Option<u32>>)
        requires { length (line_text self.old) + 26 ≤ 256 }
        ensures value { line_text self.new ≡ line_text self.old ++ reference_part reference }
        ensures len { length (line_text self.new) ≤ length (line_text self.old) + 26 }
    {
        match reference {
            Some(Some(number)) => {
                self.put(" from ");
                self.put_number(number as u64);
            }
            Some(None) => self.put(" intra"),
            None => {}
        }
    }
}

/// The line of picture `number`: after the letter of its party, in ASCII, where there are two
/// parties, with its mark where it was shown, and with its reference where that is told, of which
/// the inner None is a picture without one.
pub fn picture_line(
    number: u32,
    mark: Option<Mark>,
    reference: Option<Option<u32>>,
    party: Option<u8>,
) -> Line
    requires { IfSome party (λ letter. letter < 128) }
    ensures { line_text result ≡ picture_text number mark reference party }
{
    let mut line = party_start(party);
    line.put_number(number as u64);
    line.put(mark_words(mark));
    line.put_reference(reference);
    line.end();
    line
}

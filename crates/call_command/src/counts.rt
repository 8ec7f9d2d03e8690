//! The line of a call's counts.
ghost use Rattle.std.specs.Prelude.{◌≡◌, ◌≤◌, length};
ghost use Rattle.call_report.specs.View.{line_text};
ghost use Rattle.call_command.specs.Counts.{counts_with};

use call_report::Line;
use one_way::Tally;

/// The line of these counts, with those of the pictures that were played, which this word names,
/// and sent.
pub fn counts_line(word: &str, tally: Tally, played: u32, sent: u32) -> Line
    requires { length word.now ≤ 16 }
    ensures { line_text result ≡ counts_with word.now tally played sent }
{
    let mut line = Line::empty();
    line.pair(word, played as u64);
    line.pair("sent", sent as u64);
    line.pair("exact", tally.exact as u64);
    line.pair("patched", tally.patched as u64);
    line.pair("held", tally.held as u64);
    line.end();
    line
}

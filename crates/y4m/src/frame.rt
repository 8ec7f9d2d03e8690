//! The line of a frame: its word; its tags are passed over.
ghost use Rattle.std.specs.Prelude.{◌≡◌, ◌<◌, ◌≤◌, ◌^◌, ℕ, length, MatchResult, MatchOption, None, Some};
ghost use Rattle.y4m.specs.Frame.{line_stop, stop_fault};

use crate::Y4mFault;
use crate::line::{LONGEST_LINE, agreed, is_whole};

// The word that a frame begins with.
const FRAME: &[u8] = b"FRAME";

/// The fewest bytes of a frame's line: its word and a newline.
pub const LEAST_LINE: usize = 6;

// Where a frame's line can't go on, if it isn't whole.
fn line_stop(line: &[u8]) -> Option<usize>
    ensures is { result ≡ line_stop line.now }
    ensures within { MatchOption result (Unit {0}) (λ stop. stop ≤ length line.now) }
{
    let agreed = agreed(FRAME, line);
    if agreed <= FRAME.len() {
        return Some(agreed);
    }
    if is_whole(line) {
        return None;
    }
    Some(line.len().min(LONGEST_LINE))
}

/// Checks a frame's line, which begins at a place.
pub fn check_line(at: u64, line: &[u8]) -> Result<(), Y4mFault>
    requires place { at < 2 ^ 62 }
    requires size { length line.now ≤ 257 }
    ensures { MatchResult result (λ _. line_stop line.now ≡ None) (λ fault. (stop : ℕ)
        × (line_stop line.now ≡ Some stop) × (fault ≡ stop_fault at (length line.now) stop)) }
{
    let Some(stop) = line_stop(line) else {
        return Ok(());
    };
    let at = at + stop as u64;
    if stop == line.len() {
        Err(Y4mFault::ShortFrame { at })
    } else {
        Err(Y4mFault::NotY4m { at })
    }
}

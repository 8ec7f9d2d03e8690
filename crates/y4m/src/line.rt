//! Lines: the words that they begin with, their tags and their newline.
ghost use Rattle.std.specs.Prelude.{◌≡◌, ◌<◌, ◌≤◌, ◌+◌, ◌-◌, ◌==◌, length, drop, take, slice_index, MatchOption, None, Some};
ghost use Rattle.y4m.specs.Line.{is_gap, agreement, is_line_whole, before_gap, tag_after};

/// The most bytes of a line with its newline.
pub const LONGEST_LINE: usize = 256;

// Whether a tag ends before this byte.
fn is_gap(byte: u8) -> bool
    ensures { result ≡ is_gap byte }
{
    byte == b' ' || byte == b'\n'
}

/// How many bytes the line has in common with the word and a gap after it.
pub fn agreed(word: &[u8], line: &[u8]) -> usize
    ensures is { result ≡ agreement word.now line.now }
    ensures within { result ≤ length line.now }
{
    for i in 0..word.len() {
        if i >= line.len() || line[i] != word[i] {
            return i;
        }
    }
    if word.len() < line.len() && is_gap(line[word.len()]) {
        return word.len() + 1;
    }
    word.len()
}

/// Whether the line ends with its newline, among its first 256 bytes.
pub fn is_whole(line: &[u8]) -> bool
    requires { 0 < length line.now }
    ensures { result ≡ is_line_whole line.now }
{
    line.len() <= LONGEST_LINE && line[line.len() - 1] == b'\n'
}

// Where the first gap is from a place on, or the line's end.
fn gap_from(line: &[u8], at: usize) -> usize
    requires { at ≤ length line.now }
    ensures is { result ≡ at + length (before_gap (drop at line.now)) }
    ensures within { result ≤ length line.now }
{
    for end in at..line.len() {
        if is_gap(line[end]) {
            return end;
        }
    }
    line.len()
}

/// The tag that begins at a place.
pub fn tag_at(line: &[u8], at: usize) -> Option<&[u8]>
    requires some { 0 < at }
    requires within { at < length line.now }
    ensures { MatchOption result
        (tag_after (slice_index line.now (at - 1)) (drop at line.now) ≡ None) (λ tag.
        tag_after (slice_index line.now (at - 1)) (drop at line.now) ≡ Some tag.now) }
{
    if line[at - 1] != b' ' {
        return None;
    }
    let end = gap_from(line, at);
    if end == at || end == line.len() {
        return None;
    }
    Some(&line[at..end])
}

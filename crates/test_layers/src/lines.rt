//! Lines of text as words.
use test_fixtures::answer::{Answer, NO_MEMORY};

/// Says a line, in which `_` is a blank and `$` its end.
pub fn say_line(answer: &mut Answer, line: &[u8]) {
    answer.add(" ");
    for byte in line {
        let shown = match byte {
            b' ' => b'_',
            b'\n' => b'$',
            _ => *byte,
        };
        if answer.words.push(char::from(shown)).is_err() {
            answer.why = NO_MEMORY;
        }
    }
}

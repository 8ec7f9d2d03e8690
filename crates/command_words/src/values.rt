//! The forms of a command's values.
ghost use Rattle.std.specs.Prelude.{◌≡◌, ◌≤◌, ◌<◌, ◌^◌, IfSome, option_map};
ghost use Rattle.std.specs.Char.{is_ascii_digit};
ghost use Rattle.std.specs.List.{list_all};
ghost use Rattle.command_words.specs.Values.{is_number, number_in, byte_in, format_worded, clock_in};
ghost use Rattle.command_words.specs.Values.{value_or};

use h263_types::{Clock, Format};

fn are_digits(text: &[u8]) -> bool
    ensures { result ≡ list_all is_ascii_digit text.now }
{
    text.iter().all(|c| c.is_ascii_digit())
}

fn is_number(text: &[u8], most: usize) -> bool
    ensures { result ≡ is_number most text.now }
{
    if text.is_empty() {
        false
    } else if text.len() > most {
        false
    } else {
        are_digits(text)
    }
}

// The number that one to `most` ASCII digits write.
pub(crate) fn number_of(text: &str, most: usize) -> Option<u32>
    requires { most ≤ 9 }
    ensures value { result ≡ number_in most text.now }
    ensures below { IfSome result (λ n. n < 10 ^ most) }
{
    if is_number(text.as_bytes(), most) {
        text.parse().ok()
    } else {
        None
    }
}

fn byte_of(text: &str) -> Option<u8>
    ensures { result ≡ byte_in text.now }
{
    u8::try_from(number_of(text, 6)?).ok()
}

// An option's number, or the default where the option isn't there.
pub(crate) fn number_or(text: Option<&str>, default: u32) -> Option<u32>
    ensures { result ≡ value_or default (number_in 6) (option_map (λ t. t.now) text.entry) }
{
    match text {
        Some(text) => number_of(text, 6),
        None => Some(default),
    }
}

// The same of a number that a byte holds.
pub(crate) fn byte_or(text: Option<&str>, default: u8) -> Option<u8>
    ensures { result ≡ value_or default byte_in (option_map (λ t. t.now) text.entry) }
{
    match text {
        Some(text) => byte_of(text),
        None => Some(default),
    }
}

// An option's format, or QCIF where the option isn't there.
pub(crate) fn format_or(text: Option<&str>, default: Format) -> Option<Format>
    ensures { result ≡ value_or default format_worded (option_map (λ t. t.now) text.entry) }
{
    match text {
        None => Some(default),
        Some("sub-qcif") => Some(Format::SubQcif),
        Some("qcif") => Some(Format::Qcif),
        Some("cif") => Some(Format::Cif),
        Some(_) => None,
    }
}

// An option's clock, or the default where the option isn't there.
pub(crate) fn clock_or(text: Option<&str>, default: Clock) -> Option<Clock>
    ensures { result ≡ value_or default clock_in (option_map (λ t. t.now) text.entry) }
{
    match text {
        None => Some(default),
        Some("standard") => Some(Clock::Standard),
        Some("custom") => Some(Clock::Custom),
        Some(_) => None,
    }
}

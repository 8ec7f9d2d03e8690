//! The head's line: its word, its tags and the format that they give.
ghost use Rattle.std.specs.Prelude.{◌≡◌, ◌<◌, ◌≤◌, ◌^◌, length, MatchResult, MatchOption, None, Some, Ok, Err};
ghost use Rattle.h263_types.specs.declared.format.Format.{Format};
ghost use Rattle.y4m.specs.Head.{width_tagged, height_tagged, is_progressive, is_quarter, tag_fault, tags_fault, format_with, last_in, or_else, format_of_line};
ghost use Rattle.y4m.specs.Line.{tags_of};

use crate::Y4mFault;
use crate::line::{agreed, is_whole, tag_at};
use h263_types::Format;

// The word that a video begins with.
const SIGNATURE: &[u8] = b"YUV4MPEG2";

/// The fewest bytes that a head's line may have: its word and what stands after it.
pub const LEAST_HEAD: usize = 10;

fn width_in(tag: &[u8]) -> Option<u32>
    ensures { result ≡ width_tagged tag.now }
{
    match tag {
        b"W128" => Some(128),
        b"W176" => Some(176),
        b"W352" => Some(352),
        _ => None,
    }
}

fn height_in(tag: &[u8]) -> Option<u32>
    ensures { result ≡ height_tagged tag.now }
{
    match tag {
        b"H96" => Some(96),
        b"H144" => Some(144),
        b"H288" => Some(288),
        _ => None,
    }
}

fn is_progressive(tag: &[u8]) -> bool
    ensures { result ≡ is_progressive tag.now }
{
    match tag {
        b"Ip" | b"I?" => true,
        _ => false,
    }
}

// Whether the colours have a quarter of the samples, 8 bits each.
fn is_quarter(tag: &[u8]) -> bool
    ensures { result ≡ is_quarter tag.now }
{
    tag == b"C420".as_slice()
        || tag == b"C420jpeg".as_slice()
        || tag == b"C420mpeg2".as_slice()
        || tag == b"C420paldv".as_slice()
}

// Checks the tag whose letter stands at a place.
fn check_tag(at: usize, tag: &[u8]) -> Result<(), Y4mFault>
    requires { 0 < length tag.now }
    ensures { MatchResult result (λ _. tag_fault (record { at = at; text = tag.now }) ≡ None)
        (λ fault. tag_fault (record { at = at; text = tag.now }) ≡ Some fault) }
{
    let at = at as u64;
    match tag[0] {
        b'W' if width_in(tag).is_none() => Err(Y4mFault::Size { at }),
        b'H' if height_in(tag).is_none() => Err(Y4mFault::Size { at }),
        b'I' if !is_progressive(tag) => Err(Y4mFault::Interlaced { at }),
        b'C' if !is_quarter(tag) => Err(Y4mFault::Colour { at }),
        _ => Ok(()),
    }
}

// The width and the height by the last tags so far.
#[derive(Clone, Copy)]
struct Sizes {
    width: Option<u32>,
    height: Option<u32>,
}

impl Sizes {
    // Takes what a tag says of the size.
    fn note(&mut self, tag: &[u8])
        ensures width { self.new.width ≡ or_else (width_tagged tag.now) self.old.width }
        ensures height { self.new.height ≡ or_else (height_tagged tag.now) self.old.height }
    {
        self.width = width_in(tag).or(self.width);
        self.height = height_in(tag).or(self.height);
    }

    // The format of these.
    fn format(&self) -> Option<Format>
        ensures { result ≡ format_with self.now.width self.now.height }
    {
        match (self.width, self.height) {
            (Some(128), Some(96)) => Some(Format::SubQcif),
            (Some(176), Some(144)) => Some(Format::Qcif),
            (Some(352), Some(288)) => Some(Format::Cif),
            _ => None,
        }
    }
}

// Checks the tags in their order.
fn read_tags(line: &[u8]) -> Result<Sizes, Y4mFault>
    ensures ok { MatchResult result (λ _. tags_fault (tags_of line.now) ≡ None) (λ fault.
        tags_fault (tags_of line.now) ≡ Some fault) }
    ensures width { MatchResult result
        (λ sizes. sizes.width ≡ last_in width_tagged (tags_of line.now)) (λ _. Unit {0}) }
    ensures height { MatchResult result
        (λ sizes. sizes.height ≡ last_in height_tagged (tags_of line.now)) (λ _. Unit {0}) }
{
    let mut sizes = Sizes {
        width: None,
        height: None,
    };
    for at in 1..line.len() {
        if let Some(tag) = tag_at(line, at) {
            check_tag(at, tag)?;
            sizes.note(tag);
        }
    }
    Ok(sizes)
}

/// The format that a head's line gives, or its first fault.
pub fn read_format(line: &[u8]) -> Result<Format, Y4mFault>
    ensures { result ≡ format_of_line line.now }
{
    let agreed = agreed(SIGNATURE, line);
    if agreed <= SIGNATURE.len() {
        return Err(Y4mFault::NotY4m { at: agreed as u64 });
    }
    let sizes = read_tags(line)?;
    if !is_whole(line) {
        return Err(Y4mFault::NotY4m {
            at: line.len() as u64,
        });
    }
    match sizes.format() {
        Some(format) => Ok(format),
        None => Err(Y4mFault::Size {
            at: line.len() as u64 - 1,
        }),
    }
}

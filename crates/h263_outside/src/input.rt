//! A file that is read.
ghost use Rattle.std.specs.Prelude.{◌≡◌, ◌≤◌, ℕ, length, List, [], Option, IfOk, is_some};
ghost use Rattle.std.specs.Io.KnownBytes.{ReadConsumes};
ghost use Rattle.h263_outside.specs.Host.{ahead_bytes, input_left, known_of_file};

use crate::Failed;
use crate::ahead::{Ahead, MOST_AHEAD};
use crate::files::{is_file, read_some};
use std::fs::{Metadata, OpenFile};
use std::io::Read;

/// A file that is read.
///
/// Few bytes are read by one call of the system for several that ask for them; many come straight
/// to where they are wanted.
#[derive(Drop)]
pub(crate) struct InputFile<F> {
    file: F,
    ahead: Ahead,
}

impl<F> InputFile<F> {
    /// A file of which nothing was read.
    pub(crate) fn new(file: F) -> InputFile<F>
        ensures unread { ahead_bytes result.ahead ≡ [] }
        ensures file { result.file ≡ file }
        ensures left { (known : F → Option (List ℕ)) → input_left known result ≡ known file }
    {
        InputFile {
            file,
            ahead: Ahead::new(),
        }
    }

    /// Reads some bytes to the start of the buffer, and answers how many; 0 is the end.
    pub(crate) fn read(&mut self, buf: &mut [u8]) -> Result<usize, Failed>
    where
        F: Read,
        ensures count { IfOk result (λ k. k ≤ length buf.old) }
        ensures bytes { ReadConsumes (input_left F.remaining self.old)
            (input_left F.remaining self.new) result buf.new }
    {
        if self.ahead.is_empty() {
            if buf.len() >= MOST_AHEAD {
                return read_some(&mut self.file, buf);
            }
            self.ahead.fill(&mut self.file)?;
        }
        Ok(self.ahead.give(buf))
    }
}

// Whether the file of an input is this one.
pub(crate) fn reads_file<F: OpenFile>(input: &Option<InputFile<F>>, about: &Metadata) -> bool {
    match input {
        Some(input) => is_file(&input.file, about),
        None => false,
    }
}

// Reads the file of a role, as above.
pub(crate) fn read_input<F: Read>(
    input: &mut Option<InputFile<F>>,
    buf: &mut [u8],
) -> Result<usize, Failed>
    ensures count { IfOk result (λ k. k ≤ length buf.old) }
    // What is read is a prefix of what the input had, nothing only at its end; where the read fails
    // nothing is lost.
    ensures bytes { ReadConsumes (known_of_file (input_left F.remaining) input.old)
        (known_of_file (input_left F.remaining) input.new) result buf.new }
    ensures open { is_some input.new ≡ is_some input.old }
{
    match input {
        Some(input) => input.read(buf),
        None => Err(Failed),
    }
}

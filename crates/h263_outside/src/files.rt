//! One file of the host: its reads and writes, and how files are told apart.
ghost use Rattle.std.specs.Prelude.{◌≡◌, ◌≤◌, ◌<◌, length, IfOk, is_some};
ghost use Rattle.std.specs.Io.KnownBytes.{ReadConsumes, WriteAppends};
ghost use Rattle.h263_outside.specs.Host.{known_of_file};

use crate::Failed;
use std::fs::{Metadata, OpenFile};
use std::io::{ErrorKind, Read, Write};
use std::os::unix::fs::{FileTypeExt, MetadataExt};

// Whether both are one file that a role spoils for another: they have one number on one device,
// which all names and links of a file share. A character device isn't spoiled. The system numbers
// each file; a runtime that numbers none (0) tells none apart.
pub(crate) fn is_one(this: &Metadata, that: &Metadata) -> bool {
    this.ino() != 0
        && this.ino() == that.ino()
        && this.dev() == that.dev()
        && !this.file_type().is_char_device()
}

// Whether the file of a role is this one. One that can't be asked is taken to be it.
pub(crate) fn has_file<F: OpenFile>(file: &Option<F>, about: &Metadata) -> bool {
    match file {
        Some(file) => is_file(file, about),
        None => false,
    }
}

// The same of a file.
pub(crate) fn is_file<F: OpenFile>(file: &F, about: &Metadata) -> bool {
    match file.metadata() {
        Ok(own) => is_one(&own, about),
        Err(_) => true,
    }
}

// Whether a file has taken all that was written on it. Some devices say only here, or where the
// file is closed, that they have no room; and the error of a `close` is lost. What is no regular
// file has nothing that it could still lose.
pub(crate) fn is_kept<F: OpenFile>(file: &Option<F>) -> bool {
    let Some(file) = file else {
        return true;
    };
    match file.metadata() {
        Ok(about) => !about.is_file() || file.sync_data().is_ok(),
        Err(_) => false,
    }
}

pub(crate) fn write_file<F: Write>(file: &mut Option<F>, bytes: &[u8]) -> Result<usize, Failed>
    ensures count { IfOk result (λ k. k ≤ length bytes.now) }
    ensures advances { IfOk result (λ k. 0 < k) }
    // The file gains as many bytes as the answer says, and none where the write fails.
    ensures bytes { WriteAppends
        (known_of_file F.contents file.old) (known_of_file F.contents file.new) result bytes.now }
    ensures open { is_some file.new ≡ is_some file.old }
{
    match file {
        Some(file) => write_some(file, bytes),
        None => Err(Failed),
    }
}

// What is read is a prefix of what the file had, nothing only at its end; where the read fails
// nothing is lost. A read that a signal interrupts is made again.
pub(crate) fn read_some<F: Read>(file: &mut F, buf: &mut [u8]) -> Result<usize, Failed>
    ensures count { IfOk result (λ k. k ≤ length buf.old) }
    ensures bytes { ReadConsumes
        (F.remaining file.old) (F.remaining file.new) result buf.new }
{
    'tries: for _ in 0..u64::MAX {
        match file.read(buf) {
            Ok(count) => return Ok(count),
            Err(fault) => {
                if fault.kind() != ErrorKind::Interrupted {
                    return Err(Failed);
                }
            }
        }
    }
    Err(Failed)
}

// The same of a write.
fn write_some<F: Write>(file: &mut F, bytes: &[u8]) -> Result<usize, Failed>
    ensures count { IfOk result (λ k. k ≤ length bytes.now) }
    ensures advances { IfOk result (λ k. 0 < k) }
    ensures bytes { WriteAppends
        (F.contents file.old) (F.contents file.new) result bytes.now }
{
    'tries: for _ in 0..u64::MAX {
        match file.write(bytes) {
            Ok(0) => return Err(Failed),
            Ok(count) => return Ok(count),
            Err(fault) => {
                if fault.kind() != ErrorKind::Interrupted {
                    return Err(Failed);
                }
            }
        }
    }
    Err(Failed)
}

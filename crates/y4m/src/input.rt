//! Bytes and lines of the video, from a desk.
ghost use Rattle.std.specs.Prelude.{◌≡◌, ◌≢◌, ◌<◌, ◌≤◌, ◌^◌, ◌∷◌, ◌==◌, ℕ, max, List, [], length, position, true, take, drop, MatchOption, OnErr, OnOk, IfOk, IfSome, IfErr, IsErrOf, Some};
ghost use Rattle.h263_outside.specs.Desk.{FillsFront, Rose, OnlyReads};
ghost use Rattle.h263_outside.specs.declared.desk.Role.{Role};
ghost use Rattle.h263_outside.specs.declared.desk.Role.TheVariants.{Video};
ghost use Rattle.y4m.specs.Line.{line_within};
ghost use Rattle.y4m.specs.Planes.{PlanesGive, IsVideoCut};

use crate::{VideoStop, Y4mFault};
use h263_outside::{Desk, Role, laws as outside_laws, read_full};

/// Reads until the buffer is full or the video ends, and answers how many bytes came to its start.
pub fn read<D: Desk>(desk: &mut D, buf: &mut [u8]) -> Result<usize, VideoStop>
    requires { (D.outside desk.old).attached Video ≡ true }
    ensures count { IfOk result (λ k. k ≤ length buf.old) }
    ensures told { (left : List ℕ) → (D.outside desk.old).left Video ≡ Some left → IfOk result (λ k.
        FillsFront left buf.new k × ((D.outside desk.new).left Video ≡ Some (drop k left))) }
    ensures lost { (left : List ℕ) → (D.outside desk.old).left Video ≡ Some left → OnErr result
        ((k : ℕ) × (k < length buf.old) × ((D.outside desk.new).left Video ≡ Some (drop k left))) }
    ensures err { IfErr result (λ stop. stop ≡ VideoStop.Read) }
    ensures cause { OnErr result
        (Rose (D.outside desk.old).faults.read (D.outside desk.new).faults.read) }
    ensures ok_faults { OnOk result
        ((D.outside desk.new).faults ≡ (D.outside desk.old).faults) }
    ensures others { (r : Role)
        → r ≢ Video → (D.outside desk.new).left r ≡ (D.outside desk.old).left r }
    ensures rest { OnlyReads (D.outside desk.old) (D.outside desk.new) }
{
    match read_full(desk, Role::Video, buf) {
        Ok(count) => Ok(count),
        Err(_) => Err(VideoStop::Read),
    }
}

// Reads one byte, or finds the end.
fn read_byte<D: Desk>(desk: &mut D) -> Result<Option<u8>, VideoStop>
    requires { (D.outside desk.old).attached Video ≡ true }
    ensures told { (left : List ℕ) → (D.outside desk.old).left Video ≡ Some left
        → IfOk result (λ byte. MatchOption byte (left ≡ []) (λ b. left ≡ b ∷ drop 1 left)
        × ((D.outside desk.new).left Video ≡ Some (drop 1 left))) }
    ensures lost { (left : List ℕ) → (D.outside desk.old).left Video ≡ Some left
        → OnErr result ((D.outside desk.new).left Video ≡ Some left) }
    ensures err { IfErr result (λ stop. stop ≡ VideoStop.Read) }
    ensures cause { OnErr result
        (Rose (D.outside desk.old).faults.read (D.outside desk.new).faults.read) }
    ensures ok_faults { OnOk result
        ((D.outside desk.new).faults ≡ (D.outside desk.old).faults) }
    ensures others { (r : Role)
        → r ≢ Video → (D.outside desk.new).left r ≡ (D.outside desk.old).left r }
    ensures rest { OnlyReads (D.outside desk.old) (D.outside desk.new) }
{
    let mut byte = [0; 1];
    if read(desk, &mut byte)? == 0 {
        return Ok(None);
    }
    Ok(Some(byte[0]))
}

// Reads a line with its newline to the start of the buffer, byte by byte, or what there is of it,
// and answers its length.
fn read_rest<D: Desk>(desk: &mut D, line: &mut [u8]) -> Result<usize, VideoStop>
    requires { (D.outside desk.old).attached Video ≡ true }
    ensures within { IfOk result (λ k. k ≤ length line.old) }
    ensures told { (left : List ℕ) → (D.outside desk.old).left Video ≡ Some left
        → IfOk result (λ k. (take k line.new ≡ line_within (length line.old) left)
        × ((D.outside desk.new).left Video ≡ Some (drop k left))) }
    ensures cut { (left : List ℕ) → (D.outside desk.old).left Video ≡ Some left
        → OnErr result (IsVideoCut 0 left ((D.outside desk.new).left Video)) }
    ensures err { IfErr result (λ stop. stop ≡ VideoStop.Read) }
    ensures cause { OnErr result
        (Rose (D.outside desk.old).faults.read (D.outside desk.new).faults.read) }
    ensures ok_faults { OnOk result
        ((D.outside desk.new).faults ≡ (D.outside desk.old).faults) }
    ensures others { (r : Role)
        → r ≢ Video → (D.outside desk.new).left r ≡ (D.outside desk.old).left r }
    ensures rest { OnlyReads (D.outside desk.old) (D.outside desk.new) }
{
    outside_laws::calls();
    for i in 0..line.len() {
        let Some(byte) = read_byte(desk)? else {
            return Ok(i);
        };
        line[i] = byte;
        if byte == b'\n' {
            return Ok(i + 1);
        }
    }
    Ok(line.len())
}

// The place of the first newline.
fn newline_in(bytes: &[u8]) -> Option<usize>
    ensures place { result ≡ position (λ b. b == 10) bytes.now }
    ensures within { IfSome result (λ at. at < length bytes.now) }
{
    bytes.iter().position(|b| *b == b'\n')
}

/// Reads a line with its newline to the start of the buffer, or what there is of it, and answers
/// its length. Of the video at least this many bytes are taken, together: a line with fewer is no
/// line of the caller's.
pub fn read_line<D: Desk>(desk: &mut D, least: usize, line: &mut [u8]) -> Result<usize, VideoStop>
    requires attached { (D.outside desk.old).attached Video ≡ true }
    requires size { least ≤ length line.old }
    ensures within { IfOk result (λ k. k ≤ length line.old) }
    ensures told { (left : List ℕ) → (D.outside desk.old).left Video ≡ Some left
        → IfOk result (λ k. (take k line.new ≡ line_within (length line.old) left)
        × ((D.outside desk.new).left Video ≡ Some (drop (max k least) left))) }
    ensures cut { (left : List ℕ) → (D.outside desk.old).left Video ≡ Some left
        → OnErr result (IsVideoCut least left ((D.outside desk.new).left Video)) }
    ensures err { IfErr result (λ stop. stop ≡ VideoStop.Read) }
    ensures cause { OnErr result
        (Rose (D.outside desk.old).faults.read (D.outside desk.new).faults.read) }
    ensures ok_faults { OnOk result
        ((D.outside desk.new).faults ≡ (D.outside desk.old).faults) }
    ensures others { (r : Role)
        → r ≢ Video → (D.outside desk.new).left r ≡ (D.outside desk.old).left r }
    ensures rest { OnlyReads (D.outside desk.old) (D.outside desk.new) }
{
    outside_laws::calls();
    let begun = read(desk, &mut line[..least])?;
    if let Some(at) = newline_in(&line[..begun]) {
        return Ok(at + 1);
    }
    if begun < least {
        return Ok(begun);
    }
    let more = read_rest(desk, &mut line[least..])?;
    Ok(least + more)
}

/// Fills the buffer with the planes of a frame, which begin at this byte of the video.
pub fn read_planes<D: Desk>(desk: &mut D, at: u64, out: &mut [u8]) -> Result<(), VideoStop>
    requires attached { (D.outside desk.old).attached Video ≡ true }
    requires place { at < 2 ^ 62 }
    requires size { length out.old < 2 ^ 62 }
    ensures gives { (left : List ℕ) → (D.outside desk.old).left Video ≡ Some left
        → PlanesGive result at left out.new ((D.outside desk.new).left Video) }
    ensures cause { IsErrOf result VideoStop.Read
        → Rose (D.outside desk.old).faults.read (D.outside desk.new).faults.read }
    ensures others { (r : Role)
        → r ≢ Video → (D.outside desk.new).left r ≡ (D.outside desk.old).left r }
    ensures rest { OnlyReads (D.outside desk.old) (D.outside desk.new) }
{
    let count = read(desk, out)?;
    if count < out.len() {
        return Err(VideoStop::Refused(Y4mFault::ShortFrame {
            at: at + count as u64,
        }));
    }
    Ok(())
}

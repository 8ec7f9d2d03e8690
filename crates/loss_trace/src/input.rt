//! Bytes and lines of the trace, from a desk.
ghost use Rattle.std.specs.Prelude.{◌≡◌, ◌≢◌, ◌∷◌, [], List, ℕ, length, drop, true, MatchOption, IfOk, OnErr, Some};
ghost use Rattle.h263_outside.specs.Desk.{OnlyReads, Rose};
ghost use Rattle.h263_outside.specs.declared.desk.Role.{Role};
ghost use Rattle.h263_outside.specs.declared.desk.Role.TheVariants.{Events};
ghost use Rattle.loss_trace.specs.Input.{CameOf, IsLengthWithin};
ghost use Rattle.loss_trace.specs.Lines.{IsTraceCut};

use h263_outside::{Desk, Failed, Role, laws as outside_laws};

/// The most bytes of a line, without its newline.
pub const LONGEST_LINE: usize = 64;

/// A line that came to the start of a buffer, by its length, and how it ends.
#[derive(Clone, Copy)]
pub enum Came {
    /// Nothing: the trace is over.
    End,
    /// A line whose newline was read.
    Closed(usize),
    /// The last line, without a newline.
    Open(usize),
    /// More bytes than a line may have.
    Long,
}

/// Reads one byte, or finds the end.
pub fn read_byte<D: Desk>(desk: &mut D) -> Result<Option<u8>, Failed>
    requires { (D.outside desk.old).attached Events ≡ true }
    ensures told { (left : List ℕ) → (D.outside desk.old).left Events ≡ Some left
        → IfOk result (λ byte. MatchOption byte (left ≡ []) (λ b. left ≡ b ∷ drop 1 left)
        × ((D.outside desk.new).left Events ≡ Some (drop 1 left))) }
    ensures stays { OnErr result ((D.outside desk.new).left ≡ (D.outside desk.old).left) }
    ensures others { (r : Role)
        → r ≢ Events → (D.outside desk.new).left r ≡ (D.outside desk.old).left r }
    ensures cause { OnErr result
        (Rose (D.outside desk.old).faults.read (D.outside desk.new).faults.read) }
    ensures rest { OnlyReads (D.outside desk.old) (D.outside desk.new) }
{
    let mut byte = [0; 1];
    if desk.read(Role::Events, &mut byte)? == 0 {
        return Ok(None);
    }
    Ok(Some(byte[0]))
}

/// Reads a line to the start of a buffer, and its newline.
pub fn read_line<D: Desk>(desk: &mut D, line: &mut [u8]) -> Result<Came, Failed>
    requires attached { (D.outside desk.old).attached Events ≡ true }
    requires size { length line.old ≡ 64 }
    ensures within { IfOk result (λ came. IsLengthWithin came 64) }
    ensures told { (left : List ℕ) → (D.outside desk.old).left Events ≡ Some left
        → IfOk result (λ came. CameOf came left line.new ((D.outside desk.new).left Events)) }
    ensures cut { (left : List ℕ) → (D.outside desk.old).left Events ≡ Some left
        → OnErr result (IsTraceCut left ((D.outside desk.new).left Events)) }
    ensures others { (r : Role)
        → r ≢ Events → (D.outside desk.new).left r ≡ (D.outside desk.old).left r }
    ensures cause { OnErr result
        (Rose (D.outside desk.old).faults.read (D.outside desk.new).faults.read) }
    ensures rest { OnlyReads (D.outside desk.old) (D.outside desk.new) }
{
    outside_laws::calls();
    for i in 0..line.len() {
        match read_byte(desk)? {
            None if i == 0 => return Ok(Came::End),
            None => return Ok(Came::Open(i)),
            Some(b'\n') => return Ok(Came::Closed(i)),
            Some(byte) => line[i] = byte,
        }
    }
    match read_byte(desk)? {
        None => Ok(Came::Open(line.len())),
        Some(b'\n') => Ok(Came::Closed(line.len())),
        Some(_) => Ok(Came::Long),
    }
}

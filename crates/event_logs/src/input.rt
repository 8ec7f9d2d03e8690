//! Bytes of the log, from a desk.
ghost use Rattle.std.specs.Prelude.{◌≡◌, ◌≢◌, ◌<◌, ◌≤◌, ℕ, List, length, true, drop, OnErr, IfOk, IfErr, Some};
ghost use Rattle.h263_outside.specs.Desk.{FillsFront, Rose, OnlyReads};
ghost use Rattle.h263_outside.specs.declared.desk.Role.{Role};
ghost use Rattle.h263_outside.specs.declared.desk.Role.TheVariants.{Events};

use crate::LogStop;
use h263_outside::{Desk, Role, read_full};

/// Reads until the buffer is full or the log ends, and answers how many bytes came to its start.
pub fn read<D: Desk>(desk: &mut D, buf: &mut [u8]) -> Result<usize, LogStop>
    requires { (D.outside desk.old).attached Events ≡ true }
    ensures count { IfOk result (λ k. k ≤ length buf.old) }
    ensures told { (left : List ℕ) → (D.outside desk.old).left Events ≡ Some left → IfOk result
        (λ k. FillsFront left buf.new k × ((D.outside desk.new).left Events ≡ Some (drop k left))) }
    ensures lost { (left : List ℕ) → (D.outside desk.old).left Events ≡ Some left → OnErr result
        ((k : ℕ) × (k < length buf.old) × ((D.outside desk.new).left Events ≡ Some (drop k left))) }
    ensures err { IfErr result (λ stop. stop ≡ LogStop.Read) }
    ensures cause { OnErr result
        (Rose (D.outside desk.old).faults.read (D.outside desk.new).faults.read) }
    ensures others { (r : Role)
        → r ≢ Events → (D.outside desk.new).left r ≡ (D.outside desk.old).left r }
    ensures rest { OnlyReads (D.outside desk.old) (D.outside desk.new) }
{
    match read_full(desk, Role::Events, buf) {
        Ok(count) => Ok(count),
        Err(_) => Err(LogStop::Read),
    }
}

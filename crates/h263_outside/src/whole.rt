//! Calls of a desk until all is written, or a buffer is full.
ghost use Rattle.std.specs.Prelude.{◌≡◌, ◌<◌, ◌≤◌, true, length, take, drop, OnOk, OnErr, IfOk, IfSome};
ghost use Rattle.h263_outside.specs.Desk.{IsInput, IsOutput, appended, consumed, GainsFront, LosesFront, FillsFront, Rose, OnlyReads, OnlyWrites};

use crate::{Desk, Failed, Role};

/// Writes all the bytes. After `Failed` some prefix of them was written.
pub fn write_all<D: Desk>(desk: &mut D, role: Role, bytes: &[u8]) -> Result<(), Failed>
    requires output { IsOutput role }
    requires attached { (D.outside desk.old).attached role ≡ true }
    ensures ok { OnOk result
        ((D.outside desk.new).written ≡ appended (D.outside desk.old).written role bytes.now) }
    ensures err { OnErr result
        (GainsFront role bytes.now (D.outside desk.old).written (D.outside desk.new).written) }
    ensures cause { OnErr result
        (Rose (D.outside desk.old).faults.write (D.outside desk.new).faults.write) }
    ensures ok_faults { OnOk result
        ((D.outside desk.new).faults ≡ (D.outside desk.old).faults) }
    ensures rest { OnlyWrites (D.outside desk.old) (D.outside desk.new) }
{
    let mut done = 0;
    while done < bytes.len() {
        done += desk.write(role, &bytes[done..])?;
    }
    Ok(())
}

/// Reads until the buffer is full or the input ends, and answers how many bytes came to its start.
/// After `Failed` fewer bytes than the buffer has are gone from the input.
pub fn read_full<D: Desk>(desk: &mut D, role: Role, buf: &mut [u8]) -> Result<usize, Failed>
    requires input { IsInput role }
    requires attached { (D.outside desk.old).attached role ≡ true }
    ensures count { IfOk result (λ k. k ≤ length buf.old) }
    ensures bytes { IfOk result (λ k.
        IfSome ((D.outside desk.old).left role) (λ left. FillsFront left buf.new k)) }
    ensures left { IfOk result (λ k.
        (D.outside desk.new).left ≡ consumed (D.outside desk.old).left role k) }
    ensures err { OnErr result
        (LosesFront role (length buf.old) (D.outside desk.old).left (D.outside desk.new).left) }
    ensures cause { OnErr result
        (Rose (D.outside desk.old).faults.read (D.outside desk.new).faults.read) }
    ensures ok_faults { OnOk result
        ((D.outside desk.new).faults ≡ (D.outside desk.old).faults) }
    ensures rest { OnlyReads (D.outside desk.old) (D.outside desk.new) }
{
    let mut done = 0;
    while done < buf.len() {
        let count = desk.read(role, &mut buf[done..])?;
        if count == 0 {
            return Ok(done);
        }
        done += count;
    }
    Ok(done)
}

//! An entry of a log as bytes: its letter, its length in big-endian order, what it holds.
ghost use Rattle.std.specs.Prelude.{◌≡◌, ◌≤◌, length, true, OnOk, OnErr};
ghost use Rattle.h263_outside.specs.Desk.{appended, GainsFront, Rose, OnlyWrites};
ghost use Rattle.h263_outside.specs.declared.desk.Role.TheVariants.{Wire};
ghost use Rattle.event_logs.specs.Text.{entry_head_text, entry_text};

use crate::entry::HEAD;
use byteorder::{BigEndian, ByteOrder};
use h263_outside::{Desk, Failed, Role, laws as outside_laws, write_all};

// What stands before the bytes of an entry.
fn head_of(letter: u8, len: u16) -> [u8; HEAD]
    ensures { result ≡ entry_head_text letter len }
{
    let mut head = [letter, 0, 0];
    BigEndian::write_u16(&mut head[1..], len);
    head
}

/// Writes an entry: its letter, the number of its bytes and the bytes. After `Failed` a prefix of
/// it was written.
pub fn write_entry<D: Desk>(desk: &mut D, letter: u8, bytes: &[u8]) -> Result<(), Failed>
    requires attached { (D.outside desk.old).attached Wire ≡ true }
    requires size { length bytes.now ≤ 65535 }
    ensures text { OnOk result ((D.outside desk.new).written
        ≡ appended (D.outside desk.old).written Wire (entry_text letter bytes.now)) }
    ensures prefix { OnErr result (GainsFront Wire
        (entry_text letter bytes.now) (D.outside desk.old).written (D.outside desk.new).written) }
    ensures cause { OnErr result
        (Rose (D.outside desk.old).faults.write (D.outside desk.new).faults.write) }
    ensures rest { OnlyWrites (D.outside desk.old) (D.outside desk.new) }
{
    outside_laws::calls();
    outside_laws::fronts_of_two();
    write_all(desk, Role::Wire, &head_of(letter, bytes.len() as u16))?;
    write_all(desk, Role::Wire, bytes)
}

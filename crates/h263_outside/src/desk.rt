//! What is asked of the outside: a place for each role, with four calls.
ghost use Rattle.std.specs.Prelude.{◌≡◌, ◌≢◌, ◌<◌, ◌≤◌, ◌==◌, ℕ, true, false, length, take, OnOk, OnErr, IfOk, IfSome, IsErrOf};
ghost use Rattle.h263_outside.specs.Desk.{Outside, IsInput, IsOutput, with_role, appended, consumed, IsFront, Rose, OnlyAttaches, OnlyReads, OnlyWrites};

use std::alloc::AllocError;

/// What the program reads or writes at a place: a video and events are read, the rest is written.
#[derive(Clone, Copy, Debug, PartialEq, Eq)]
pub enum Role {
    /// The video to be coded, in Y4M.
    Video,
    /// A trace of a call, or the log of one end.
    Events,
    /// The pictures that are shown, in Y4M.
    Pictures,
    /// What one end sends, as a log.
    Wire,
    /// Lines of text for a reader.
    Report,
    /// The video of a call's second party.
    Video2,
    /// The pictures that are shown of it.
    Pictures2,
}

/// A read or a write has failed.
#[derive(Clone, Copy, Debug, PartialEq, Eq)]
pub struct Failed;

/// Why a role was not attached.
#[derive(Clone, Copy, Debug, PartialEq, Eq)]
pub enum Unattached {
    /// The outside refused it.
    Failed,
    /// There was no memory for it.
    OutOfMemory,
}

impl From<AllocError> for Unattached {
    ghost use Rattle.h263_outside.specs.declared.desk.Unattached.{Unattached};

    ghost from_gives = { λ _ e. e ≡ Unattached.OutOfMemory };

    fn from(_: AllocError) -> Self {
        Unattached::OutOfMemory
    }
}

/// A place for each role, to be attached by a name and then read or written.
///
/// What a call's clauses don't name stays as it was, but that counts of faults may rise in a call
/// that fails: one that does its work leaves them, and so does one that lacks memory. Of what is
/// left to read and what was written a desk may tell nothing.
pub trait Desk {
    /// What is outside: the attached roles, their names and bytes as far as told, the counts of
    /// faults.
    ghost outside: { Self → Outside };

    /// Attaches a role by a name, once.
    fn attach(&mut self, role: Role, name: &str) -> Result<(), Unattached>
        requires { (outside self.old).attached role ≡ false }
        ensures attached { OnOk result
            ((outside self.new).attached ≡ with_role (outside self.old).attached role true) }
        ensures name { OnOk result
            (IfSome ((outside self.new).name role) (λ told. told ≡ name.now)) }
        ensures other_names { (r : Role)
            → r ≢ role → (outside self.new).name r ≡ (outside self.old).name r }
        ensures err { OnErr result ((outside self.new).attached ≡ (outside self.old).attached) }
        ensures err_name { OnErr result ((outside self.new).name ≡ (outside self.old).name) }
        ensures cause { IsErrOf result Unattached.Failed
            → Rose (outside self.old).faults.attach (outside self.new).faults.attach }
        ensures ok_faults { OnOk result ((outside self.new).faults ≡ (outside self.old).faults) }
        ensures no_memory { IsErrOf result Unattached.OutOfMemory
            → (outside self.new).faults ≡ (outside self.old).faults }
        ensures rest { OnlyAttaches (outside self.old) (outside self.new) };

    /// Reads some bytes of an input to the start of the buffer, and answers how many; 0 is the end.
    fn read(&mut self, role: Role, buf: &mut [u8]) -> Result<usize, Failed>
        requires input { IsInput role }
        requires attached { (outside self.old).attached role ≡ true }
        requires room { 0 < length buf.old }
        ensures count { IfOk result (λ k. k ≤ length buf.old) }
        ensures bytes { IfOk result (λ k.
            IfSome ((outside self.old).left role) (λ left. IsFront left buf.new k)) }
        ensures left { IfOk result (λ k.
            (outside self.new).left ≡ consumed (outside self.old).left role k) }
        ensures err { OnErr result ((outside self.new).left ≡ (outside self.old).left) }
        ensures cause { OnErr result
            (Rose (outside self.old).faults.read (outside self.new).faults.read) }
        ensures ok_faults { OnOk result ((outside self.new).faults ≡ (outside self.old).faults) }
        ensures rest { OnlyReads (outside self.old) (outside self.new) };

    /// Writes some of the bytes, from the first on and one at least, and answers how many.
    fn write(&mut self, role: Role, bytes: &[u8]) -> Result<usize, Failed>
        requires output { IsOutput role }
        requires attached { (outside self.old).attached role ≡ true }
        requires some { 0 < length bytes.now }
        ensures count { IfOk result (λ k. k ≤ length bytes.now) }
        ensures advances { IfOk result (λ k. 0 < k) }
        ensures written { IfOk result (λ k. (outside self.new).written
            ≡ appended (outside self.old).written role (take k bytes.now)) }
        ensures err { OnErr result ((outside self.new).written ≡ (outside self.old).written) }
        ensures unflushed { (outside self.new).flushed ≡ false }
        ensures cause { OnErr result
            (Rose (outside self.old).faults.write (outside self.new).faults.write) }
        ensures ok_faults { OnOk result ((outside self.new).faults ≡ (outside self.old).faults) }
        ensures rest { OnlyWrites (outside self.old) (outside self.new) };

    /// Sees that all that was written has come to its place.
    fn flush(&mut self) -> Result<(), Failed>
        ensures written { (outside self.new).written ≡ (outside self.old).written }
        ensures flushed { OnOk result ((outside self.new).flushed ≡ true) }
        ensures unflushed { OnErr result ((outside self.new).flushed ≡ false) }
        ensures cause { OnErr result
            (Rose (outside self.old).faults.write (outside self.new).faults.write) }
        ensures ok_faults { OnOk result ((outside self.new).faults ≡ (outside self.old).faults) }
        ensures rest { OnlyWrites (outside self.old) (outside self.new) };
}

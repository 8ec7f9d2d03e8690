//! A desk in memory. It tells everything, and fails where it is told to.
ghost use Rattle.std.specs.Prelude.{◌≡◌, false, ◌<◌, ◌≤◌, ◌+◌, ◌-◌, ◌++◌, ◌∷◌, [], length, take, drop, OnOk, OnErr, IfOk, IsTrue, IsErr, IfSome, IsErrOf, Contains, ◌↔◌, ◌⊎◌, ◌≢◌, ℕ, true, vec_len, vec_capacity, min};
ghost use Rattle.h263_outside.specs.Desk.{Rose, NoneFalls, raised_count, IsFront};

use crate::{Desk, Failed, Role, Unattached};
use h263_types::OutOfMemory;
use std::alloc::{AllocError, Global};

// The calls so far, those that are to fail, and how many failed.
#[derive(Drop)]
struct Calls {
    next: u64,
    failing: Vec<u64>,
    attach_faults: u64,
    read_faults: u64,
    write_faults: u64,
}

impl Calls {
    ghost use Rattle.h263_outside.specs.Memory.{faults_of};

    // Counts a call, and answers whether it is to fail.
    fn count(&mut self) -> bool
        ensures faults { faults_of self.new ≡ faults_of self.old }
        ensures failing { self.new.failing.items ≡ self.old.failing.items }
        ensures next { self.new.next ≡ raised_count self.old.next }
        ensures named { IsTrue result ↔ Contains self.old.failing.items self.old.next }
    {
        let fails = self.failing.contains(&self.next);
        self.next = raised(self.next);
        fails
    }

    // The answer of a write that took this many bytes: a write that takes none fails.
    fn told(&mut self, count: usize) -> Result<usize, Failed>
        ensures ok { IfOk result (λ k. (k ≡ count) × (0 < k)) }
        ensures err { IsErr result ↔ (count ≡ 0) }
        ensures faults { OnOk result (faults_of self.new ≡ faults_of self.old) }
        ensures failed { OnErr result (faults_of self.new
            ≡ record (faults_of self.old) { write = raised_count self.old.write_faults }) }
        ensures rest { NoneFalls (faults_of self.old) (faults_of self.new) }
        ensures failing { self.new.failing.items ≡ self.old.failing.items }
        ensures next { self.new.next ≡ self.old.next }
    {
        if count == 0 {
            self.write_faults = raised(self.write_faults);
            return Err(Failed);
        }
        Ok(count)
    }
}

/// A count and one more; at the end of its range it stays.
pub fn raised(count: u64) -> u64
    ensures value { result ≡ raised_count count }
    ensures rose { Rose count result }
    ensures later { count ≤ result }
{
    count.saturating_add(1)
}

// What is read: `at` bytes of it were taken.
#[derive(Drop)]
struct Input {
    attached: bool,
    name: Vec<u8>,
    is_put: bool,
    bytes: Vec<u8>,
    at: usize,
    ghost in_range: { at ≤ vec_len bytes },
}

// What is written, with its memory taken at the start.
#[derive(Drop)]
struct Output {
    attached: bool,
    name: Vec<u8>,
    bytes: Vec<u8>,
    room: usize,
    ghost roomy: { room ≤ vec_capacity bytes },
}

/// A desk in memory: it tells its names and all its bytes, and fails exactly where it is told to,
/// where an input is attached that was never put, and where a write finds no room left.
#[derive(Drop)]
pub struct MemoryDesk {
    alloc: Global,
    piece: usize,
    calls: Calls,
    video: Input,
    events: Input,
    pictures: Output,
    wire: Output,
    report: Output,
    video2: Input,
    pictures2: Output,
    flushed: bool,
    ghost moves: { 0 < piece },
}

impl Input {
    ghost use Rattle.h263_outside.specs.Memory.{moved_count, OnlyMoves};

    fn attach(&mut self, name: Vec<u8>)
        ensures attached { self.new.attached ≡ true }
        ensures name { self.new.name.items ≡ name.items }
        ensures is_put { self.new.is_put ≡ self.old.is_put }
        ensures bytes { self.new.bytes.items ≡ self.old.bytes.items }
        ensures at { self.new.at ≡ self.old.at }
    {
        self.attached = true;
        self.name = name;
    }

    // Copies bytes to the start of the buffer, a piece at most.
    fn read(&mut self, piece: usize, buf: &mut [u8]) -> usize
        requires piece { 0 < piece }
        requires room { 0 < length buf.old }
        ensures count { result
            ≡ moved_count (length (drop self.old.at self.old.bytes.items)) piece (length buf.old) }
        ensures front { IsFront (drop self.old.at self.old.bytes.items) buf.new result }
        ensures at { self.new.at ≡ self.old.at + result }
        ensures bytes { self.new.bytes.items ≡ self.old.bytes.items }
        ensures rest { OnlyMoves self.old self.new }
    {
        let count = (self.bytes.len() - self.at).min(piece).min(buf.len());
        let end = self.at + count;
        buf[..count].copy_from_slice(&self.bytes[self.at..end]);
        self.at = end;
        count
    }
}

impl Output {
    ghost use Rattle.h263_outside.specs.Memory.{moved_count};

    fn attach(&mut self, name: Vec<u8>)
        ensures attached { self.new.attached ≡ true }
        ensures name { self.new.name.items ≡ name.items }
        ensures bytes { self.new.bytes.items ≡ self.old.bytes.items }
        ensures room { self.new.room ≡ self.old.room }
    {
        self.attached = true;
        self.name = name;
    }

    // Takes the first bytes, a piece at most, and as far as there is room.
    fn write(&mut self, piece: usize, bytes: &[u8]) -> usize
        ensures count { result
            ≡ moved_count (self.old.room - length self.old.bytes.items) piece (length bytes.now) }
        ensures written { self.new.bytes.items ≡ self.old.bytes.items ++ take result bytes.now }
        ensures room { self.new.room ≡ self.old.room }
        ensures attached { self.new.attached ≡ self.old.attached }
        ensures name { self.new.name.items ≡ self.old.name.items }
    {
        let count = self
            .room
            .saturating_sub(self.bytes.len())
            .min(piece)
            .min(bytes.len());
        if self.bytes.extend_from_slice(&bytes[..count]).is_ok() {
            count
        } else {
            0
        }
    }
}

fn new_input(alloc: Global) -> Input
    ensures detached { result.attached ≡ false }
    ensures name { result.name.items ≡ [] }
    ensures is_put { result.is_put ≡ false }
    ensures empty { result.bytes.items ≡ [] }
    ensures start { result.at ≡ 0 }
{
    Input {
        attached: false,
        name: Vec::new(alloc),
        is_put: false,
        bytes: Vec::new(alloc),
        at: 0,
    }
}

fn new_output(alloc: Global, room: usize) -> Result<Output, AllocError>
    ensures detached { IfOk result (λ output. output.attached ≡ false) }
    ensures name { IfOk result (λ output. output.name.items ≡ []) }
    ensures empty { IfOk result (λ output. output.bytes.items ≡ []) }
    ensures room { IfOk result (λ output. output.room ≡ room) }
{
    Ok(Output {
        attached: false,
        name: Vec::new(alloc),
        bytes: Vec::with_capacity(alloc, room)?,
        room,
    })
}

#[tactic(auto, unfolding(crate::specs::Memory::memory_outside, crate::specs::Memory::setup_of))]
impl MemoryDesk {
    ghost use Rattle.std.specs.Prelude.{Some};
    ghost use Rattle.h263_outside.specs.Desk.{IsInput, IsOutput, NoneAttached, appended, with_role};
    ghost use Rattle.h263_outside.specs.Memory.{memory_outside, blank_outside, setup_of, new_setup};
    ghost use Rattle.h263_outside.specs.Memory.{LacksPut, count_told, moved_count};

    /// A desk on which one call moves at most `piece` bytes, with the memory for `room` bytes of
    /// each output.
    pub fn new(alloc: Global, piece: usize, room: usize) -> Result<MemoryDesk, OutOfMemory>
        requires { 0 < piece }
        ensures detached { IfOk result (λ desk. NoneAttached (memory_outside desk).attached) }
        ensures outside { IfOk result (λ desk. memory_outside desk ≡ blank_outside) }
        ensures setup { IfOk result (λ desk. setup_of desk ≡ new_setup piece room) }
    {
        Ok(MemoryDesk {
            alloc,
            piece,
            calls: Calls {
                next: 0,
                failing: Vec::new(alloc),
                attach_faults: 0,
                read_faults: 0,
                write_faults: 0,
            },
            video: new_input(alloc),
            events: new_input(alloc),
            pictures: new_output(alloc, room)?,
            wire: new_output(alloc, room)?,
            report: new_output(alloc, room)?,
            video2: new_input(alloc),
            pictures2: new_output(alloc, room)?,
            flushed: false,
        })
    }

    /// Sets what an input holds: from now on these bytes are left of it.
    pub fn put(&mut self, role: Role, bytes: &[u8]) -> Result<(), OutOfMemory>
        requires { IsInput role }
        ensures attached { (memory_outside self.new).attached ≡ (memory_outside self.old).attached }
        ensures outside { OnOk result (memory_outside self.new
            ≡ record (memory_outside self.old)
            { left = with_role (memory_outside self.old).left role (Some bytes.now) }) }
        ensures setup { OnOk result (setup_of self.new ≡ record (setup_of self.old)
            { is_put = with_role (setup_of self.old).is_put role true }) }
        ensures err { OnErr result (memory_outside self.new ≡ memory_outside self.old) }
        ensures err_setup { OnErr result (setup_of self.new ≡ setup_of self.old) }
    {
        let bytes = bytes.to_vec(self.alloc)?;
        match role {
            Role::Video => {
                self.video.at = 0;
                self.video.bytes = bytes;
                self.video.is_put = true;
            }
            Role::Events => {
                self.events.at = 0;
                self.events.bytes = bytes;
                self.events.is_put = true;
            }
            Role::Video2 => {
                self.video2.at = 0;
                self.video2.bytes = bytes;
                self.video2.is_put = true;
            }
            _ => unreachable!(),
        }
        Ok(())
    }

    /// Names a call that is to fail, by its number: attaches, reads and writes are counted from 0,
    /// all together. A flush never fails.
    pub fn fail(&mut self, call: u64) -> Result<(), OutOfMemory>
        ensures outside { memory_outside self.new ≡ memory_outside self.old }
        ensures setup { OnOk result (setup_of self.new
            ≡ record (setup_of self.old) { failing = (setup_of self.old).failing ++ call ∷ [] }) }
        ensures err_setup { OnErr result (setup_of self.new ≡ setup_of self.old) }
    {
        self.calls.failing.push(call)?;
        Ok(())
    }

    fn can_open(&self, role: Role) -> bool
        ensures { (result ≡ false) ↔ LacksPut role (setup_of self.now) }
    {
        match role {
            Role::Video => self.video.is_put,
            Role::Events => self.events.is_put,
            Role::Video2 => self.video2.is_put,
            _ => true,
        }
    }

    // Attaches a role by this name.
    fn give(&mut self, role: Role, name: Vec<u8>)
        ensures outside { memory_outside self.new ≡ record (memory_outside self.old) {
          attached = with_role (memory_outside self.old).attached role true;
          name = with_role (memory_outside self.old).name role (Some name.items);
        } }
        ensures setup { setup_of self.new ≡ setup_of self.old }
    {
        match role {
            Role::Video => self.video.attach(name),
            Role::Events => self.events.attach(name),
            Role::Pictures => self.pictures.attach(name),
            Role::Wire => self.wire.attach(name),
            Role::Report => self.report.attach(name),
            Role::Video2 => self.video2.attach(name),
            Role::Pictures2 => self.pictures2.attach(name),
        }
    }

    // Puts the first bytes on an output, and answers how many.
    fn put_out(&mut self, role: Role, bytes: &[u8]) -> usize
        requires { IsOutput role }
        ensures count { result ≡ moved_count
            ((setup_of self.old).room role - count_told ((memory_outside self.old).written role))
            (setup_of self.old).piece (length bytes.now) }
        ensures outside { memory_outside self.new ≡ record (memory_outside self.old)
            { written = appended (memory_outside self.old).written role (take result bytes.now) } }
        ensures setup { setup_of self.new ≡ setup_of self.old }
    {
        match role {
            Role::Pictures => self.pictures.write(self.piece, bytes),
            Role::Wire => self.wire.write(self.piece, bytes),
            Role::Report => self.report.write(self.piece, bytes),
            Role::Pictures2 => self.pictures2.write(self.piece, bytes),
            _ => unreachable!(),
        }
    }

    /// What was written on an output, and nothing for an input.
    pub fn text(&self, role: Role) -> &[u8]
        ensures output { IsOutput role → (memory_outside self.now).written role ≡ Some result.now }
        ensures input { IsInput role → result.now ≡ [] }
    {
        match role {
            Role::Pictures => &self.pictures.bytes,
            Role::Wire => &self.wire.bytes,
            Role::Report => &self.report.bytes,
            Role::Pictures2 => &self.pictures2.bytes,
            _ => &[],
        }
    }
}

#[tactic(auto, unfolding(crate::specs::Memory::memory_outside, crate::specs::Memory::setup_of))]
impl Desk for MemoryDesk {
    ghost use Rattle.std.specs.Prelude.{Some};
    ghost use Rattle.h263_outside.specs.Memory.{memory_outside, setup_of, after_call, FailsNext, LacksPut, IsOutputFull, count_told, moved_count};
    ghost use Rattle.h263_outside.specs.Desk.{IsInput, IsOutput, with_role, appended, consumed, OnlyAttaches, OnlyReads, OnlyWrites};

    ghost outside = { memory_outside };

    fn attach(&mut self, role: Role, name: &str) -> Result<(), Unattached>
        requires { (memory_outside self.old).attached role ≡ false }
        ensures attached { OnOk result ((memory_outside self.new).attached
            ≡ with_role (memory_outside self.old).attached role true) }
        ensures name { OnOk result
            (IfSome ((memory_outside self.new).name role) (λ told. told ≡ name.now)) }
        ensures other_names { (r : Role)
            → r ≢ role → (memory_outside self.new).name r ≡ (memory_outside self.old).name r }
        ensures err { OnErr result
            ((memory_outside self.new).attached ≡ (memory_outside self.old).attached) }
        ensures err_name { OnErr result
            ((memory_outside self.new).name ≡ (memory_outside self.old).name) }
        ensures cause { IsErrOf result Unattached.Failed
            → Rose (memory_outside self.old).faults.attach (memory_outside self.new).faults.attach }
        ensures ok_faults { OnOk result
            ((memory_outside self.new).faults ≡ (memory_outside self.old).faults) }
        ensures no_memory { IsErrOf result Unattached.OutOfMemory
            → (memory_outside self.new).faults ≡ (memory_outside self.old).faults }
        ensures rest { OnlyAttaches (memory_outside self.old) (memory_outside self.new) }

        // The name is told. The call fails exactly where it was named to, or its input was never
        // put.
        ensures told { OnOk result ((memory_outside self.new).name role ≡ Some name.now) }
        ensures exactly { IsErrOf result Unattached.Failed
            ↔ (FailsNext (setup_of self.old) ⊎ LacksPut role (setup_of self.old)) }

        // The count rises by one at `Failed`.
        ensures failed { IsErrOf result Unattached.Failed
            → (memory_outside self.new).faults ≡ record ((memory_outside self.old).faults)
            { attach = raised_count (memory_outside self.old).faults.attach } }
        ensures setup { setup_of self.new ≡ after_call (setup_of self.old) }
    {
        let can_open = self.can_open(role);
        if self.calls.count() || !can_open {
            self.calls.attach_faults = raised(self.calls.attach_faults);
            return Err(Unattached::Failed);
        }
        let name = name.as_bytes().to_vec(self.alloc)?;
        self.give(role, name);
        Ok(())
    }

    fn read(&mut self, role: Role, buf: &mut [u8]) -> Result<usize, Failed>
        requires input { IsInput role }
        requires attached { (memory_outside self.old).attached role ≡ true }
        requires room { 0 < length buf.old }
        ensures count { IfOk result (λ k. k ≤ length buf.old) }
        ensures bytes { IfOk result (λ k.
            IfSome ((memory_outside self.old).left role) (λ left. IsFront left buf.new k)) }
        ensures left { IfOk result (λ k.
            (memory_outside self.new).left ≡ consumed (memory_outside self.old).left role k) }
        ensures err { OnErr result
            ((memory_outside self.new).left ≡ (memory_outside self.old).left) }
        ensures cause { OnErr result
            (Rose (memory_outside self.old).faults.read (memory_outside self.new).faults.read) }
        ensures ok_faults { OnOk result
            ((memory_outside self.new).faults ≡ (memory_outside self.old).faults) }
        ensures rest { OnlyReads (memory_outside self.old) (memory_outside self.new) }

        // A piece moves, or what is left, or what the buffer takes. The call fails exactly where it
        // was named to.
        ensures moved { IfOk result (λ k. k ≡ moved_count
            (count_told ((memory_outside self.old).left role))
            (setup_of self.old).piece (length buf.old)) }
        ensures exactly { IsErr result ↔ FailsNext (setup_of self.old) }

        // The count rises by one at `Failed`.
        ensures failed { OnErr result ((memory_outside self.new).faults
            ≡ record ((memory_outside self.old).faults)
            { read = raised_count (memory_outside self.old).faults.read }) }
        ensures setup { setup_of self.new ≡ after_call (setup_of self.old) }
    {
        if self.calls.count() {
            self.calls.read_faults = raised(self.calls.read_faults);
            return Err(Failed);
        }
        match role {
            Role::Video => Ok(self.video.read(self.piece, buf)),
            Role::Events => Ok(self.events.read(self.piece, buf)),
            Role::Video2 => Ok(self.video2.read(self.piece, buf)),
            _ => unreachable!(),
        }
    }

    fn write(&mut self, role: Role, bytes: &[u8]) -> Result<usize, Failed>
        requires output { IsOutput role }
        requires attached { (memory_outside self.old).attached role ≡ true }
        requires some { 0 < length bytes.now }
        ensures count { IfOk result (λ k. k ≤ length bytes.now) }
        ensures advances { IfOk result (λ k. 0 < k) }
        ensures written { IfOk result (λ k. (memory_outside self.new).written
            ≡ appended (memory_outside self.old).written role (take k bytes.now)) }
        ensures err { OnErr result
            ((memory_outside self.new).written ≡ (memory_outside self.old).written) }
        ensures unflushed { (memory_outside self.new).flushed ≡ false }
        ensures cause { OnErr result
            (Rose (memory_outside self.old).faults.write (memory_outside self.new).faults.write) }
        ensures ok_faults { OnOk result
            ((memory_outside self.new).faults ≡ (memory_outside self.old).faults) }
        ensures rest { OnlyWrites (memory_outside self.old) (memory_outside self.new) }

        // A piece moves, or what there is room for, or all. The call fails exactly where it was
        // named to, or no room is left.
        ensures moved { IfOk result (λ k. k ≡ moved_count
            ((setup_of self.old).room role - count_told ((memory_outside self.old).written role))
            (setup_of self.old).piece (length bytes.now)) }
        ensures exactly { IsErr result ↔ (FailsNext (setup_of self.old)
            ⊎ IsOutputFull role (setup_of self.old) (memory_outside self.old).written) }

        // The count rises by one at `Failed`.
        ensures failed { OnErr result ((memory_outside self.new).faults
            ≡ record ((memory_outside self.old).faults)
            { write = raised_count (memory_outside self.old).faults.write }) }
        ensures setup { setup_of self.new ≡ after_call (setup_of self.old) }
    {
        self.flushed = false;
        if self.calls.count() {
            self.calls.write_faults = raised(self.calls.write_faults);
            return Err(Failed);
        }
        let count = self.put_out(role, bytes);
        self.calls.told(count)
    }

    fn flush(&mut self) -> Result<(), Failed>
        ensures written { (memory_outside self.new).written ≡ (memory_outside self.old).written }
        ensures flushed { OnOk result ((memory_outside self.new).flushed ≡ true) }
        ensures unflushed { OnErr result ((memory_outside self.new).flushed ≡ false) }
        ensures cause { OnErr result
            (Rose (memory_outside self.old).faults.write (memory_outside self.new).faults.write) }
        ensures ok_faults { OnOk result
            ((memory_outside self.new).faults ≡ (memory_outside self.old).faults) }
        ensures rest { OnlyWrites (memory_outside self.old) (memory_outside self.new) }

        // It never fails, and isn't counted among the calls.
        ensures never { IsErr result → ⊥ }
        ensures setup { setup_of self.new ≡ setup_of self.old }
    {
        self.flushed = true;
        Ok(())
    }
}

//! The host's files and standard output: the trusted edge. What they hold is not told.
ghost use Rattle.std.specs.Prelude.{◌≡◌, ◌≤◌, ◌<◌, length, IfOk};
ghost use Rattle.std.specs.Io.KnownBytes.{ReadConsumes, WriteAppends};
ghost use Rattle.h263_outside.specs.Host.{known_of_file};
ghost use Rattle.h263_outside.specs.Desk.{NoneAttached};

use crate::files::{has_file, is_kept, is_one, write_file};
use crate::input::{InputFile, read_input, reads_file};
use crate::memory::raised;
use crate::{Desk, Failed, Role, Unattached};
use std::fs;
use std::fs::{Metadata, OpenFile, OpenOptions};
use std::io::ErrorKind;
use std::rt::{Files, Runtime};

// What the system has open as the standard output, whatever that is.
const STANDARD_OUTPUT: &str = "/dev/stdout";

/// A desk over a runtime: files by name, where those that are written are created or emptied, and
/// standard output for the report. It tells neither names nor bytes.
///
/// A file that is written belongs to one role alone, by whatever name; the standard output is the
/// report's. A character device, as a terminal, serves any number of roles.
#[derive(Drop)]
pub struct HostDesk<R: Runtime> {
    rt: R,
    streams: Streams<R::File>,
    video: Option<InputFile<R::File>>,
    events: Option<InputFile<R::File>>,
    pictures: Option<R::File>,
    wire: Option<R::File>,
    reports: bool,
    video2: Option<InputFile<R::File>>,
    pictures2: Option<R::File>,
    attach_faults: u64,
    read_faults: u64,
    write_faults: u64,
    flushed: bool,
}

// A file takes the lowest number that is free, and the numbers of the standard streams are free
// where the program was started without them. Three files that stay open take those first, so that
// no role's file becomes a standard stream. They can't be written: a report fails there.
#[derive(Drop)]
struct Streams<F> {
    first: Option<F>,
    second: Option<F>,
    third: Option<F>,
}

const NOTHING: &str = "/dev/null";

fn take_streams<R: Files>(rt: &R) -> Streams<R::File> {
    Streams {
        first: fs::open(rt, NOTHING).ok(),
        second: fs::open(rt, NOTHING).ok(),
        third: fs::open(rt, NOTHING).ok(),
    }
}

impl<R: Runtime> HostDesk<R> {
    ghost use Rattle.std.specs.Prelude.{true, false, MatchOption, OnSome};
    ghost use Rattle.h263_outside.specs.Host.{host_outside, no_faults, input_of, IsUnread, KeepsOthers};
    ghost use Rattle.h263_outside.specs.Desk.{with_role};

    /// A desk with nothing attached, which opens its files and prints by this runtime.
    pub fn new(rt: R) -> Self
        ensures detached { NoneAttached (⟦<HostDesk<R> as Desk>⟧.outside result).attached }
        ensures faults { (⟦<HostDesk<R> as Desk>⟧.outside result).faults ≡ no_faults }
    {
        let streams = take_streams(&rt);
        HostDesk {
            rt,
            streams,
            video: None,
            events: None,
            pictures: None,
            wire: None,
            reports: false,
            video2: None,
            pictures2: None,
            attach_faults: 0,
            read_faults: 0,
            write_faults: 0,
            flushed: false,
        }
    }

    // A file to be read, from its first byte on. One that is written is refused.
    fn open(&self, name: &str) -> Option<InputFile<R::File>>
        ensures unread { IsUnread result }
    {
        let file = fs::open(&self.rt, name).ok()?;
        let about = file.metadata().ok()?;
        if self.writes(&about) {
            return None;
        }
        Some(InputFile::new(file))
    }

    // A file to be written: created, or emptied. One that has a role is refused while it is whole.
    fn create(&self, name: &str) -> Option<R::File> {
        let file = OpenOptions::new()
            .write(true)
            .create(true)
            .open(&self.rt, name)
            .ok()?;
        let about = file.metadata().ok()?;
        if self.reads(&about) || self.writes(&about) {
            return None;
        }
        if about.is_file() {
            file.set_len(0).ok()?;
        }
        Some(file)
    }

    // Whether the standard output has no role yet. A system without this name doesn't say, and it is
    // taken to be free.
    fn can_report(&self) -> bool {
        match fs::metadata(&self.rt, STANDARD_OUTPUT) {
            Ok(about) => !self.reads(&about) && !self.writes(&about),
            Err(_) => true,
        }
    }

    // Opens the file of a role that has none, or leaves all as it is. The report needs none.
    fn open_role(&mut self, role: Role, name: &str) -> Option<()>
        requires { (host_outside self.old).attached role ≡ false }
        ensures attached { MatchOption result
            ((host_outside self.new).attached ≡ (host_outside self.old).attached)
            (λ _. (host_outside self.new).attached
            ≡ with_role (host_outside self.old).attached role true) }
        ensures faults { (host_outside self.new).faults ≡ (host_outside self.old).faults }
        ensures flushed { (host_outside self.new).flushed ≡ (host_outside self.old).flushed }
        ensures unread { OnSome result (IsUnread (input_of role self.new)) }
        ensures others { KeepsOthers role self.old self.new }
    {
        match role {
            Role::Video => self.video = Some(self.open(name)?),
            Role::Events => self.events = Some(self.open(name)?),
            Role::Pictures => self.pictures = Some(self.create(name)?),
            Role::Wire => self.wire = Some(self.create(name)?),
            Role::Report if !self.can_report() => return None,
            Role::Report => self.reports = true,
            Role::Video2 => self.video2 = Some(self.open(name)?),
            Role::Pictures2 => self.pictures2 = Some(self.create(name)?),
        }
        Some(())
    }

    // Whether one of the inputs is this file.
    fn reads(&self, about: &Metadata) -> bool {
        reads_file(&self.video, about)
            || reads_file(&self.events, about)
            || reads_file(&self.video2, about)
    }

    // Whether one of the outputs is this file.
    fn writes(&self, about: &Metadata) -> bool {
        has_file(&self.pictures, about)
            || has_file(&self.wire, about)
            || has_file(&self.pictures2, about)
            || self.reports && self.prints_to(about)
    }

    // Whether the standard output is this file.
    fn prints_to(&self, about: &Metadata) -> bool {
        match fs::metadata(&self.rt, STANDARD_OUTPUT) {
            Ok(output) => is_one(&output, about),
            Err(_) => false,
        }
    }

    // Whether each output has taken all that was written.
    fn keeps_all(&self) -> bool {
        is_kept(&self.pictures)
            && is_kept(&self.wire)
            && is_kept(&self.pictures2)
            && is_kept(&self.printed())
    }

    // The standard output as a file of its own, where it is a file that may be opened.
    fn printed(&self) -> Option<R::File> {
        if !self.reports || !fs::metadata(&self.rt, STANDARD_OUTPUT).ok()?.is_file() {
            return None;
        }
        OpenOptions::new()
            .write(true)
            .open(&self.rt, STANDARD_OUTPUT)
            .ok()
    }
}

// A write that a signal interrupts is made again.
fn print_some<R: Runtime>(rt: &R, bytes: &[u8]) -> Result<usize, Failed>
    ensures count { IfOk result (λ k. k ≤ length bytes.now) }
    ensures advances { IfOk result (λ k. 0 < k) }
{
    'tries: for _ in 0..u64::MAX {
        match rt.write_some(bytes) {
            Ok(0) => return Err(Failed),
            Ok(count) => return Ok(count),
            Err(fault) => {
                if fault.kind() != ErrorKind::Interrupted {
                    return Err(Failed);
                }
            }
        }
    }
    Err(Failed)
}

impl<R: Runtime> Desk for HostDesk<R> {
    ghost use Rattle.std.specs.Prelude.{◌≢◌, true, false, take, IfSome, OnOk, OnErr, IsErrOf};
    ghost use Rattle.h263_outside.specs.Host.{host_outside, input_left, input_of, output_file, IsUnread, KeepsOthers, KeepsFiles};
    ghost use Rattle.h263_outside.specs.Desk.{IsInput, IsOutput, IsFront, OnlyAttaches, OnlyReads, OnlyWrites, Rose, with_role, appended, consumed, raised_count};

    ghost outside = { host_outside };

    fn attach(&mut self, role: Role, name: &str) -> Result<(), Unattached>
        requires { (host_outside self.old).attached role ≡ false }
        ensures attached { OnOk result ((host_outside self.new).attached
            ≡ with_role (host_outside self.old).attached role true) }
        ensures name { OnOk result
            (IfSome ((host_outside self.new).name role) (λ told. told ≡ name.now)) }
        ensures other_names { (r : Role)
            → r ≢ role → (host_outside self.new).name r ≡ (host_outside self.old).name r }
        ensures err { OnErr result
            ((host_outside self.new).attached ≡ (host_outside self.old).attached) }
        ensures err_name { OnErr result
            ((host_outside self.new).name ≡ (host_outside self.old).name) }
        ensures cause { IsErrOf result Unattached.Failed
            → Rose (host_outside self.old).faults.attach (host_outside self.new).faults.attach }
        ensures ok_faults { OnOk result
            ((host_outside self.new).faults ≡ (host_outside self.old).faults) }
        ensures no_memory { IsErrOf result Unattached.OutOfMemory
            → (host_outside self.new).faults ≡ (host_outside self.old).faults }
        ensures rest { OnlyAttaches (host_outside self.old) (host_outside self.new) }

        // Of an input nothing is read yet. Each other role keeps its file.
        ensures unread { OnOk result (IsUnread (input_of role self.new)) }
        ensures others { KeepsOthers role self.old self.new }

        // The count rises by one where the call fails.
        ensures failed { OnErr result ((host_outside self.new).faults
            ≡ record ((host_outside self.old).faults)
            { attach = raised_count (host_outside self.old).faults.attach }) }
    {
        match self.open_role(role, name) {
            Some(()) => Ok(()),
            None => {
                self.attach_faults = raised(self.attach_faults);
                Err(Unattached::Failed)
            }
        }
    }

    fn read(&mut self, role: Role, buf: &mut [u8]) -> Result<usize, Failed>
        requires input { IsInput role }
        requires attached { (host_outside self.old).attached role ≡ true }
        requires room { 0 < length buf.old }
        ensures count { IfOk result (λ k. k ≤ length buf.old) }
        ensures bytes { IfOk result (λ k.
            IfSome ((host_outside self.old).left role) (λ left. IsFront left buf.new k)) }
        ensures left { IfOk result (λ k.
            (host_outside self.new).left ≡ consumed (host_outside self.old).left role k) }
        ensures err { OnErr result ((host_outside self.new).left ≡ (host_outside self.old).left) }
        ensures cause { OnErr result
            (Rose (host_outside self.old).faults.read (host_outside self.new).faults.read) }
        ensures ok_faults { OnOk result
            ((host_outside self.new).faults ≡ (host_outside self.old).faults) }
        ensures rest { OnlyReads (host_outside self.old) (host_outside self.new) }

        // The role's input is read, as `read_input` says, and no other file.
        ensures of_file { ReadConsumes (known_of_file (input_left R.File.remaining) (input_of role self.old))
            (known_of_file (input_left R.File.remaining) (input_of role self.new)) result buf.new }
        ensures others { KeepsOthers role self.old self.new }

        // The count rises by one where the call fails.
        ensures failed { OnErr result ((host_outside self.new).faults
            ≡ record ((host_outside self.old).faults)
            { read = raised_count (host_outside self.old).faults.read }) }
    {
        let outcome = match role {
            Role::Video => read_input(&mut self.video, buf),
            Role::Events => read_input(&mut self.events, buf),
            Role::Video2 => read_input(&mut self.video2, buf),
            _ => unreachable!(),
        };
        if outcome.is_err() {
            self.read_faults = raised(self.read_faults);
        }
        outcome
    }

    fn write(&mut self, role: Role, bytes: &[u8]) -> Result<usize, Failed>
        requires output { IsOutput role }
        requires attached { (host_outside self.old).attached role ≡ true }
        requires some { 0 < length bytes.now }
        ensures count { IfOk result (λ k. k ≤ length bytes.now) }
        ensures advances { IfOk result (λ k. 0 < k) }
        ensures written { IfOk result (λ k. (host_outside self.new).written
            ≡ appended (host_outside self.old).written role (take k bytes.now)) }
        ensures err { OnErr result
            ((host_outside self.new).written ≡ (host_outside self.old).written) }
        ensures unflushed { (host_outside self.new).flushed ≡ false }
        ensures cause { OnErr result
            (Rose (host_outside self.old).faults.write (host_outside self.new).faults.write) }
        ensures ok_faults { OnOk result
            ((host_outside self.new).faults ≡ (host_outside self.old).faults) }
        ensures rest { OnlyWrites (host_outside self.old) (host_outside self.new) }

        // The role's file is written, as `write_file` says, and no other one.
        ensures of_file { WriteAppends (known_of_file R.File.contents (output_file role self.old))
            (known_of_file R.File.contents (output_file role self.new)) result bytes.now }
        ensures others { KeepsOthers role self.old self.new }

        // The count rises by one where the call fails.
        ensures failed { OnErr result ((host_outside self.new).faults
            ≡ record ((host_outside self.old).faults)
            { write = raised_count (host_outside self.old).faults.write }) }
    {
        self.flushed = false;
        let outcome = match role {
            Role::Pictures => write_file(&mut self.pictures, bytes),
            Role::Wire => write_file(&mut self.wire, bytes),
            Role::Pictures2 => write_file(&mut self.pictures2, bytes),
            Role::Report => print_some(&self.rt, bytes),
            _ => unreachable!(),
        };
        if outcome.is_err() {
            self.write_faults = raised(self.write_faults);
        }
        outcome
    }

    fn flush(&mut self) -> Result<(), Failed>
        ensures written { (host_outside self.new).written ≡ (host_outside self.old).written }
        ensures flushed { OnOk result ((host_outside self.new).flushed ≡ true) }
        ensures unflushed { OnErr result ((host_outside self.new).flushed ≡ false) }
        ensures cause { OnErr result
            (Rose (host_outside self.old).faults.write (host_outside self.new).faults.write) }
        ensures ok_faults { OnOk result
            ((host_outside self.new).faults ≡ (host_outside self.old).faults) }
        ensures rest { OnlyWrites (host_outside self.old) (host_outside self.new) }

        // No file changes. The count of writes rises by one where the call fails.
        ensures files { KeepsFiles self.old self.new }
        ensures failed { OnErr result ((host_outside self.new).faults
            ≡ record ((host_outside self.old).faults)
            { write = raised_count (host_outside self.old).faults.write }) }
    {
        self.flushed = self.keeps_all();
        if self.flushed {
            return Ok(());
        }
        self.write_faults = raised(self.write_faults);
        Err(Failed)
    }
}

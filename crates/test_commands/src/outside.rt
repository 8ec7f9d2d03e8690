//! Desks by themselves: what each call of one in memory answers; and, on the host, roles that are
//! attached one after the other by names of files, which may be one file.
ghost use Rattle.std.specs.Prelude.{◌≡◌, true, false, IsTrue, OnErr};
ghost use Rattle.h263_outside.specs.Desk.{role_number, is_role, is_input, NoneAttached, NoneFalls, Rose};
ghost use Rattle.h263_outside.specs.Memory.{memory_outside};
ghost use Rattle.h263_outside.specs.declared.desk.Role.TheVariants.{Video, Pictures, Pictures2};

use crate::case::{Case, Outcome};
use crate::desks::{compare_desk, compare_file, desk_of, desk_with};
use h263_outside::{Desk, Failed, HostDesk, MemoryDesk, Role, Second, read_full, write_all};
use h263_region::Region;
use std::fs;
use std::os::unix::fs::symlink;

fn role_of(word: &str) -> Role {
    match word {
        "video" => Role::Video,
        "events" => Role::Events,
        "pictures" => Role::Pictures,
        "wire" => Role::Wire,
        "report" => Role::Report,
        "video2" => Role::Video2,
        _ => Role::Pictures2,
    }
}

fn number_of(role: Role) -> u8
    ensures { result ≡ role_number role }
{
    match role {
        Role::Video => 0,
        Role::Events => 1,
        Role::Pictures => 2,
        Role::Wire => 3,
        Role::Report => 4,
        Role::Video2 => 5,
        Role::Pictures2 => 6,
    }
}

fn are_same(role: Role, other: Role) -> bool
    ensures { result ≡ is_role role other }
{
    number_of(role) == number_of(other)
}

fn is_read(role: Role) -> bool
    ensures { result ≡ is_input role }
{
    match role {
        Role::Video | Role::Events | Role::Video2 => true,
        Role::Pictures | Role::Wire | Role::Report | Role::Pictures2 => false,
    }
}

// What is read of a role that is read, at most 64 bytes, or the answers of writing bytes and of
// flushing.
fn move_bytes<D: Desk>(case: &Case<'_>, desk: &mut D, role: Role, out: &mut Outcome)
    requires { (D.outside desk.old).attached role ≡ true }
    ensures { (D.outside desk.new).attached ≡ (D.outside desk.old).attached }
{
    if is_read(role) {
        let mut buf = [b'-'; 64];
        out.say(&read_full(desk, role, &mut buf));
        out.add(b" ");
        out.add(&buf);
    } else {
        let bytes = case.bytes("bytes", out);
        out.say(&write_all(desk, role, &bytes));
        out.add(b" ");
        out.say(&desk.flush());
    }
}

// The answers of attaching a role, of moving its bytes, and of attaching another one by a name.
fn open_two<D: Desk>(
    case: &Case<'_>,
    desk: &mut D,
    first: Role,
    second: Role,
    name: &str,
    out: &mut Outcome,
)
    requires { NoneAttached (D.outside desk.old).attached }
{
    if are_same(first, second) {
        return;
    }
    // So that it is known to be itself.
    if !are_same(first, first) {
        return;
    }
    match desk.attach(first, case.text("at")) {
        Ok(()) => {
            move_bytes(case, desk, first, out);
            out.add(b" ");
            out.say(&desk.attach(second, name));
            out.add(b"\n");
        }
        Err(_) => out.add(b"refused\n"),
    }
}

/// A role that is attached on the host's desk, whose bytes are moved, and another one by each of
/// some names; and what a file holds afterwards.
pub fn attach_two(case: &Case<'_>, out: &mut Outcome) {
    let first = role_of(case.text("first"));
    let second = role_of(case.text("then"));
    for name in case.text("names").split_whitespace() {
        if let Ok(host) = case.rt.clone() {
            let mut desk = HostDesk::new(host);
            open_two(case, &mut desk, first, second, name, out);
        }
        compare_file(case, out);
    }
    case.compare_told("gives", out);
}

/// Makes a file, a folder, a second name of a file, or a link to it.
pub fn make_file(case: &Case<'_>, out: &mut Outcome) {
    let (name, of) = (case.text("name"), case.text("of"));
    let bytes = case.bytes("bytes", out);
    let made = match case.text("kind") {
        "file" => fs::write(case.rt, name, &bytes),
        "folder" => fs::create_dir(case.rt, name),
        "second" => fs::hard_link(case.rt, of, name),
        _ => symlink(case.rt, of, name),
    };
    if made.is_err() {
        out.why = "a file that can't be made";
    }
    case.compare_told("gives", out);
}

// ---- a desk in memory

// Attaches Video and Pictures, by the first two calls.
fn attach_both(desk: &mut MemoryDesk) -> bool
    requires { NoneAttached (memory_outside desk.old).attached }
    ensures video { IsTrue result → (memory_outside desk.new).attached Video ≡ true }
    ensures pictures { IsTrue result → (memory_outside desk.new).attached Pictures ≡ true }
{
    match desk.attach(Role::Video, "in") {
        Ok(()) => match desk.attach(Role::Pictures, "out") {
            Ok(()) => true,
            Err(_) => false,
        },
        Err(_) => false,
    }
}

// One step: `read` or `read_full` to the buffer, which is told whole, or `write:TEXT` or
// `write_all:TEXT`.
fn take_step(word: &str, desk: &mut MemoryDesk, buf: &mut [u8; 6], out: &mut Outcome)
    requires video { (memory_outside desk.old).attached Video ≡ true }
    requires pictures { (memory_outside desk.old).attached Pictures ≡ true }
    ensures video { (memory_outside desk.new).attached Video ≡ true }
    ensures pictures { (memory_outside desk.new).attached Pictures ≡ true }
{
    let (step, text) = word.split_once(':').unwrap_or((word, ""));
    let bytes = text.as_bytes();
    match step {
        "read" => {
            out.say(&desk.read(Role::Video, buf));
            out.add(b" ");
            out.add(buf);
        }
        "read_full" => {
            out.say(&read_full(desk, Role::Video, buf));
            out.add(b" ");
            out.add(buf);
        }
        "write" if !bytes.is_empty() => out.say(&desk.write(Role::Pictures, bytes)),
        _ => out.say(&write_all(desk, Role::Pictures, bytes)),
    }
    out.add(b"\n");
}

// What each step on a desk answers.
fn take_all(case: &Case<'_>, desk: &mut MemoryDesk, out: &mut Outcome)
    requires { NoneAttached (memory_outside desk.old).attached }
{
    let mut buf = [0; 6];
    if attach_both(desk) {
        'steps: for word in case.text("steps").split_whitespace() {
            take_step(word, desk, &mut buf, out);
        }
    }
}

/// What each step on a desk answers, or that there is no memory for one.
pub fn take_steps(case: &Case<'_>, out: &mut Outcome) {
    match desk_of(case, out) {
        Some(mut desk) => {
            take_all(case, &mut desk, out);
            compare_desk(case, &desk, out);
        }
        None => out.add(b"no memory"),
    }
    case.compare_told("gives", out);
}

// What is written for the first party is the second one's, and the caller's desk is still its own.
fn write_to_second<D: Desk>(desk: &mut D, bytes: &[u8]) -> Result<(), Failed>
    requires { (D.outside desk.old).attached Pictures2 ≡ true }
    ensures cause { OnErr result
        (Rose (D.outside desk.old).faults.write (D.outside desk.new).faults.write) }
    ensures falls { NoneFalls (D.outside desk.old).faults (D.outside desk.new).faults }
    ensures loans { (D.outside desk.new).loans ≡ (D.outside desk.old).loans }
{
    let mut second = Second::new(desk);
    write_all(&mut second, Role::Pictures, bytes)
}

/// Bytes that are written for the first party on a desk that is lent to the second.
pub fn exchange(case: &Case<'_>, out: &mut Outcome) {
    let bytes = case.bytes("bytes", out);
    if let Some(mut desk) = desk_with(case, Role::Pictures2, out) {
        out.say(&write_to_second(&mut desk, &bytes));
        compare_desk(case, &desk, out);
    }
    case.compare_told("gives", out);
}

/// Whether a region of two slots gives both, then none, and one again once it is back.
pub fn claim_slots(case: &Case<'_>, out: &mut Outcome) {
    let Ok(mut region) = Region::make(out.alloc, 2, 4) else {
        return;
    };
    let mut seen = [false; 3];
    if let Some(first) = region.claim() {
        seen[0] = true;
        if let Some(second) = region.claim() {
            match region.claim() {
                Some(third) => region.release(third),
                None => seen[1] = true,
            }
            region.release(second);
        }
        region.release(first);
    }
    if let Some(again) = region.claim() {
        seen[2] = true;
        region.release(again);
    }
    region.finish();
    out.say(&seen);
    case.compare_told("gives", out);
}

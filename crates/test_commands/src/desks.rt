//! Desks in memory with the inputs of a case.
ghost use Rattle.std.specs.Prelude.{◌≡◌, ◌<◌, true, IfSome};
ghost use Rattle.h263_outside.specs.Desk.{NoneAttached, IsInput, IsOutput};
ghost use Rattle.h263_outside.specs.Memory.{memory_outside};

use crate::case::{Case, Outcome};
use h263_outside::{Desk, MemoryDesk, Role};
use std::fs;

// Puts the bytes of a field on the desk, to be read as this role.
fn put_field(case: &Case<'_>, key: &str, role: Role, desk: &mut MemoryDesk, out: &mut Outcome)
    requires { IsInput role }
    ensures { (memory_outside desk.new).attached ≡ (memory_outside desk.old).attached }
{
    let bytes = case.bytes(key, out);
    if desk.put(role, &bytes).is_err() {
        out.why = "no memory";
    }
}

// A desk with this room, whose failing call is the case's.
fn new_desk(case: &Case<'_>, out: &mut Outcome) -> Option<MemoryDesk>
    ensures { IfSome result (λ desk. NoneAttached (memory_outside desk).attached) }
{
    let room = case.number_or("room", "65536", out) as usize;
    if case.size == 0 {
        return None;
    }
    match MemoryDesk::new(out.alloc, case.size, room) {
        Ok(desk) => Some(desk),
        Err(_) => None,
    }
}

/// A desk with the inputs of a case, on which nothing is attached.
pub fn desk_of(case: &Case<'_>, out: &mut Outcome) -> Option<MemoryDesk>
    ensures { IfSome result (λ desk. NoneAttached (memory_outside desk).attached) }
{
    let mut desk = new_desk(case, out)?;
    put_field(case, "video", Role::Video, &mut desk, out);
    put_field(case, "video2", Role::Video2, &mut desk, out);
    put_field(case, "events", Role::Events, &mut desk, out);
    if desk.fail(case.failing).is_err() {
        out.why = "no memory";
    }
    Some(desk)
}

/// The same, with one role attached, by call 0.
pub fn desk_with(case: &Case<'_>, role: Role, out: &mut Outcome) -> Option<MemoryDesk>
    ensures { IfSome result (λ desk. (memory_outside desk).attached role ≡ true) }
{
    let mut desk = desk_of(case, out)?;
    match desk.attach(role, "name") {
        Ok(()) => Some(desk),
        Err(_) => None,
    }
}

/// Compares what was written as each role.
pub fn compare_desk(case: &Case<'_>, desk: &MemoryDesk, out: &mut Outcome) {
    case.compare("pictures", desk.text(Role::Pictures), out);
    case.compare("pictures2", desk.text(Role::Pictures2), out);
    case.compare("wire", desk.text(Role::Wire), out);
    case.compare("report", desk.text(Role::Report), out);
}

/// A file that is read afterwards, if the case names one.
pub fn compare_file(case: &Case<'_>, out: &mut Outcome) {
    let name = case.text("read");
    if !name.is_empty() {
        match fs::read(case.rt, name) {
            Ok(found) => case.compare("holds", &found, out),
            Err(_) => out.why = "a file that can't be read",
        }
    }
}

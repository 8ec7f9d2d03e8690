//! Logs through their reader, and entries that are written.
ghost use Rattle.std.specs.Prelude.{◌≡◌, ◌≤◌, length, true};
ghost use Rattle.h263_outside.specs.Memory.{memory_outside};
ghost use Rattle.h263_outside.specs.declared.desk.Role.TheVariants.{Events};

use crate::case::{Case, Outcome};
use crate::desks::{compare_desk, desk_with};
use event_logs::{Entry, LogReader, LogStop, Side, write_entry};
use h263_outside::{MemoryDesk, Role};

fn side_of(word: &str) -> Side {
    match word {
        "send" => Side::Send,
        "recv" => Side::Recv,
        _ => Side::Audit,
    }
}

// An entry's bytes after it.
fn tell_bytes(bytes: Option<&[u8]>, out: &mut Outcome) {
    if let Some(bytes) = bytes {
        out.add(bytes);
        out.add(b"\n");
    }
}

// An answer of a reader, and the bytes of what it read.
fn tell_entry(answer: &Result<Option<(u64, Entry)>, LogStop>, buf: &[u8], out: &mut Outcome) {
    out.say(answer);
    out.add(b"\n");
    match answer {
        Ok(Some((_, Entry::Packet { len }))) => tell_bytes(buf.get(..*len as usize), out),
        Ok(Some((_, Entry::Back { len }))) => tell_bytes(buf.get(..*len as usize), out),
        _ => {}
    }
}

// The next entry with its bytes, or that there is none. One that isn't told is to be there.
fn take_entry(
    desk: &mut MemoryDesk,
    reader: &mut LogReader,
    buf: &mut [u8],
    is_told: bool,
    out: &mut Outcome,
)
    requires attached { (memory_outside desk.old).attached Events ≡ true }
    requires room { 65535 ≤ length buf.old }
    ensures attached { (memory_outside desk.new).attached Events ≡ true }
    ensures room { length buf.new ≡ length buf.old }
{
    let answer = reader.next(desk, buf);
    if is_told {
        tell_entry(&answer, buf, out);
    } else if !matches!(answer, Ok(Some(_))) {
        out.why = "an entry to be skipped that isn't there";
    }
}

// Reads entries that are not told, and then some that are.
fn take_entries(desk: &mut MemoryDesk, side: Side, skip: u64, count: u64, out: &mut Outcome)
    requires { (memory_outside desk.old).attached Events ≡ true }
{
    let mut reader = LogReader::new(side);
    let mut buf = [0; 65_535];
    'entries: for place in 0..count {
        take_entry(desk, &mut reader, &mut buf, place >= skip, out);
    }
}

/// What each of some calls of a reader answers.
pub fn read_log(case: &Case<'_>, out: &mut Outcome) {
    let side = side_of(case.text("side"));
    let skip = case.number_or("skip", "0", out);
    let answers = case.number_or("answers", "1", out);
    if let Some(mut desk) = desk_with(case, Role::Events, out) {
        take_entries(&mut desk, side, skip, skip.saturating_add(answers), out);
    }
    case.compare_told("gives", out);
}

/// What writing an entry answers, and writes.
pub fn write_log(case: &Case<'_>, out: &mut Outcome) {
    let bytes = case.bytes("bytes", out);
    let letter = *case.text("letter").as_bytes().first().unwrap_or(&b' ');
    if bytes.len() <= 65_535 {
        if let Some(mut desk) = desk_with(case, Role::Wire, out) {
            out.say(&write_entry(&mut desk, letter, &bytes));
            compare_desk(case, &desk, out);
        }
    }
    case.compare_told("gives", out);
}

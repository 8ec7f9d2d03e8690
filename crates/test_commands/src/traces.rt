//! Lines of traces, one by one and through their reader.
ghost use Rattle.std.specs.Prelude.{◌≡◌, true};
ghost use Rattle.h263_outside.specs.Memory.{memory_outside};
ghost use Rattle.h263_outside.specs.declared.desk.Role.TheVariants.{Events};

use crate::case::{Case, Outcome};
use crate::desks::desk_with;
use h263_outside::{MemoryDesk, Role};
use loss_trace::{TraceReader, line};

/// What one line says.
pub fn read_line(case: &Case<'_>, out: &mut Outcome) {
    let bytes = case.bytes("line", out);
    out.say(&line(&bytes));
    case.compare_told("gives", out);
}

// Reads lines that are not told.
fn skip_lines(desk: &mut MemoryDesk, reader: &mut TraceReader, count: u64) -> bool
    requires { (memory_outside desk.old).attached Events ≡ true }
    ensures { (memory_outside desk.new).attached Events ≡ true }
{
    let mut there = true;
    'lines: for _ in 0..count {
        there &= matches!(reader.next(desk), Ok(Some(_)));
    }
    there
}

// The next line's bytes, to a buffer of 64, which is told whole.
fn tell_raw(desk: &mut MemoryDesk, reader: &mut TraceReader, out: &mut Outcome)
    requires { (memory_outside desk.old).attached Events ≡ true }
    ensures { (memory_outside desk.new).attached Events ≡ true }
{
    let mut buf = [b'-'; 64];
    let answer = reader.raw(desk, &mut buf);
    out.say(&answer);
    out.add(b"\n");
    if let Ok(Some(_)) = answer {
        out.add(&buf);
        out.add(b"\n");
    }
}

// Puts more bytes on the desk.
fn put_more(case: &Case<'_>, desk: &mut MemoryDesk, out: &mut Outcome)
    requires { (memory_outside desk.old).attached Events ≡ true }
    ensures { (memory_outside desk.new).attached Events ≡ true }
{
    let bytes = case.bytes("put", out);
    if desk.put(Role::Events, &bytes).is_err() {
        out.why = "no memory";
    }
}

// The answer to one call: the next event; the next line's bytes; or more bytes are put on the desk.
fn answer_to(
    case: &Case<'_>,
    word: &str,
    desk: &mut MemoryDesk,
    reader: &mut TraceReader,
    out: &mut Outcome,
)
    requires { (memory_outside desk.old).attached Events ≡ true }
    ensures { (memory_outside desk.new).attached Events ≡ true }
{
    match word {
        "next" => {
            out.say(&reader.next(desk));
            out.add(b"\n");
        }
        "raw" => tell_raw(desk, reader, out),
        "put" => put_more(case, desk, out),
        _ => out.why = "a call that a trace hasn't",
    }
}

/// What each call of a reader answers.
pub fn read_trace(case: &Case<'_>, out: &mut Outcome) {
    let skip = case.number_or("skip", "0", out);
    if let Some(mut desk) = desk_with(case, Role::Events, out) {
        let mut reader = TraceReader::new();
        if !skip_lines(&mut desk, &mut reader, skip) {
            out.why = "a line to be skipped that isn't there";
        }
        'calls: for word in case.text("calls").split_whitespace() {
            answer_to(case, word, &mut desk, &mut reader, out);
        }
    }
    case.compare_told("gives", out);
}

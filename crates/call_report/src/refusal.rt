//! The line of a status.
ghost use Rattle.std.specs.Prelude.{◌≡◌, ◌≤◌, ◌<◌, ◌+◌, ◌++◌, length, codes};
ghost use Rattle.call_report.specs.Text.{far_text, log_text, open_text, fault_placed, status_text};
ghost use Rattle.call_report.specs.Text.{trace_text, video_text};
ghost use Rattle.call_report.specs.View.{line_text};

use crate::line::Line;
use crate::status::Status;
use event_logs::LogFault;
use h263_outside::Role;
use loss_trace::TraceFault;
use y4m::Y4mFault;

const USAGE: &str =
    "usage: h263rps call IN OUT [--trace FILE] | send IN LOG WIRE | recv LOG OUT WIRE | demo SEED FRAMES\n";

// A fault at a place.
fn placed(head: &str, fault: &str, place: &str, number: u64) -> Line
    requires head { length head.now ≤ 40 }
    requires fault { length fault.now ≤ 40 }
    requires place { length place.now ≤ 40 }
    ensures { line_text result ≡ fault_placed head.now fault.now place.now number }
{
    let mut line = Line::of(head);
    line.put(fault);
    line.put(place);
    line.put_number(number);
    line.end();
    line
}

fn video_line(head: &str, fault: Y4mFault) -> Line
    requires { length head.now ≤ 40 }
    ensures { line_text result ≡ video_text head.now fault }
{
    match fault {
        Y4mFault::NotY4m { at } => placed(head, "not y4m", " at byte ", at),
        Y4mFault::Size { at } => placed(head, "size", " at byte ", at),
        Y4mFault::Interlaced { at } => placed(head, "interlaced", " at byte ", at),
        Y4mFault::Colour { at } => placed(head, "colour", " at byte ", at),
        Y4mFault::ShortFrame { at } => placed(head, "short frame", " at byte ", at),
        Y4mFault::TooMany { at } => placed(head, "too many frames", " at byte ", at),
    }
}

fn far_line(line: u32, given: u32, other: u32) -> Line
    ensures { line_text result ≡ far_text line given other }
{
    let mut text = Line::of("trace refused: far at line ");
    text.put_number(line as u64);
    text.put(": ");
    text.put_number(given as u64);
    text.put(" ");
    text.put_number(other as u64);
    text.end();
    text
}

fn at_line(fault: &str, line: u32) -> Line
    requires { length fault.now ≤ 40 }
    ensures { line_text result ≡ fault_placed (codes "trace refused: ") fault.now (codes " at line ") line }
{
    placed("trace refused: ", fault, " at line ", line as u64)
}

fn trace_line(fault: TraceFault) -> Line
    ensures { line_text result ≡ trace_text fault }
{
    match fault {
        TraceFault::BadLine { line } => at_line("bad line", line),
        TraceFault::TooMany { line } => at_line("too many lines", line),
        TraceFault::NoFrame { line } => at_line("no frame", line),
        TraceFault::NotSent { line } => at_line("not sent", line),
        TraceFault::NotSaid { line } => at_line("not said", line),
        TraceFault::PlayBeforeSend { line } => at_line("play before send", line),
        TraceFault::Far { line, given, other } => far_line(line, given, other),
    }
}

fn log_line(fault: LogFault) -> Line
    ensures { line_text result ≡ log_text fault }
{
    match fault {
        LogFault::BadRecord { at } => placed("log refused: ", "bad record", " at byte ", at),
        LogFault::NoFrame { at } => placed("log refused: ", "no frame", " at byte ", at),
        LogFault::TooMany { at } => placed("log refused: ", "too many records", " at byte ", at),
    }
}

fn open_line(role: Role) -> Line
    ensures { line_text result ≡ open_text role }
{
    match role {
        Role::Video => Line::of("cannot open video\n"),
        Role::Events => Line::of("cannot open events\n"),
        Role::Pictures => Line::of("cannot open pictures\n"),
        Role::Wire => Line::of("cannot open wire\n"),
        Role::Video2 => Line::of("cannot open video 2\n"),
        Role::Pictures2 => Line::of("cannot open pictures 2\n"),
        Role::Report => Line::empty(),
    }
}

/// The line that a run writes before it ends with a status. It is empty for `Ok`, for
/// `WriteFault`, and where the report itself could not be attached.
pub fn refusal_line(status: &Status) -> Line
    ensures { line_text result ≡ status_text status.now }
{
    match *status {
        Status::Ok | Status::WriteFault => Line::empty(),
        Status::OutOfMemory => Line::of("out of memory\n"),
        Status::Usage => Line::of(USAGE),
        Status::ReadFault => Line::of("read fault\n"),
        Status::VideoRefused { fault } => video_line("video refused: ", fault),
        Status::Video2Refused { fault } => video_line("video 2 refused: ", fault),
        Status::TraceRefused { fault } => trace_line(fault),
        Status::LogRefused { fault } => log_line(fault),
        Status::OpenFault { role } => open_line(role),
    }
}

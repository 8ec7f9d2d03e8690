//! Words of commands, and lines of reports.
ghost use Rattle.std.specs.Prelude.{◌≡◌, ◌<◌};

use crate::case::{Case, Outcome};
use crate::videos::mark_of;
use call_report::{Line, Status, picture_line, refusal_line};
use command_words::Words;
use event_logs::LogFault;
use h263_outside::Role;
use loss_trace::TraceFault;
use y4m::Y4mFault;

static ROLES: [Role; 7] = [
    Role::Video,
    Role::Events,
    Role::Pictures,
    Role::Wire,
    Role::Video2,
    Role::Pictures2,
    Role::Report,
];

// The name of each role, after `=`, or `no`.
fn tell_names(words: &Words<'_>, out: &mut Outcome) {
    for role in &ROLES {
        match words.name(*role) {
            Some(name) => {
                out.add(b"=");
                out.add(name.as_bytes());
            }
            None => out.add(b"no"),
        }
        out.add(b"\n");
    }
}

/// The command that words ask for, and the name of each role.
pub fn read_words(case: &Case<'_>, out: &mut Outcome) {
    let list = case.words(out);
    match Words::read(out.alloc, &list) {
        Err(refusal) => {
            out.say(&refusal);
            case.compare_told("gives", out);
        }
        Ok(words) => {
            out.say(&words.command());
            case.compare_told("gives", out);
            tell_names(&words, out);
            case.compare_told("names", out);
        }
    }
}

// The number of a picture.
fn number_of(word: &str) -> u32 {
    word.parse::<u32>().unwrap_or(0)
}

/// The line of a picture.
pub fn tell_picture(case: &Case<'_>, out: &mut Outcome) {
    let mark = match case.text("mark") {
        "" => None,
        word => Some(mark_of(word)),
    };
    let reference = match case.text("from") {
        "" => None,
        "intra" => Some(None),
        word => Some(Some(number_of(word))),
    };
    let party = match case.text("party") {
        "" => None,
        "a" => Some(b'a'),
        _ => Some(b'b'),
    };
    let number = number_of(case.text("number"));
    let line = picture_line(number, mark, reference, party);
    case.compare("gives", line.text(), out);
}

// Adds a word and its number, unless the line gets too long.
fn add_pair(line: &mut Line, word: &str, number: u64) {
    let len = word.len();
    if len <= 234 {
        if line.text().len() <= 234 - len {
            line.pair(word, number);
        }
    }
}

/// The line of words and their numbers.
pub fn tell_counts(case: &Case<'_>, out: &mut Outcome) {
    let mut line = Line::empty();
    let mut word = "";
    for part in case.text("counts").split_whitespace() {
        match part.parse::<u64>() {
            Ok(number) => add_pair(&mut line, word, number),
            Err(_) => word = part,
        }
    }
    if line.text().len() < 256 {
        line.end();
    }
    case.compare("gives", line.text(), out);
}

// One status of each kind and each fault.
static STATUSES: [Status; 34] = [
    Status::Ok,
    Status::OutOfMemory,
    Status::Usage,
    Status::ReadFault,
    Status::WriteFault,
    Status::OpenFault { role: Role::Report },
    Status::OpenFault { role: Role::Video },
    Status::OpenFault { role: Role::Events },
    Status::OpenFault {
        role: Role::Pictures,
    },
    Status::OpenFault { role: Role::Wire },
    Status::OpenFault { role: Role::Video2 },
    Status::OpenFault {
        role: Role::Pictures2,
    },
    Status::VideoRefused {
        fault: Y4mFault::NotY4m { at: 0 },
    },
    Status::VideoRefused {
        fault: Y4mFault::Size { at: 10 },
    },
    Status::VideoRefused {
        fault: Y4mFault::Interlaced { at: 9 },
    },
    Status::VideoRefused {
        fault: Y4mFault::Colour { at: 25 },
    },
    Status::VideoRefused {
        fault: Y4mFault::ShortFrame { at: 18_480 },
    },
    Status::VideoRefused {
        fault: Y4mFault::TooMany { at: 1 },
    },
    Status::Video2Refused {
        fault: Y4mFault::NotY4m { at: 0 },
    },
    Status::Video2Refused {
        fault: Y4mFault::Size { at: 10 },
    },
    Status::Video2Refused {
        fault: Y4mFault::Interlaced { at: 9 },
    },
    Status::Video2Refused {
        fault: Y4mFault::Colour { at: 25 },
    },
    Status::Video2Refused {
        fault: Y4mFault::ShortFrame { at: 18_480 },
    },
    Status::Video2Refused {
        fault: Y4mFault::TooMany { at: 1 },
    },
    Status::LogRefused {
        fault: LogFault::BadRecord { at: 0 },
    },
    Status::LogRefused {
        fault: LogFault::NoFrame { at: 3 },
    },
    Status::LogRefused {
        fault: LogFault::TooMany { at: u64::MAX },
    },
    Status::TraceRefused {
        fault: TraceFault::BadLine { line: 2 },
    },
    Status::TraceRefused {
        fault: TraceFault::TooMany { line: 16_777_217 },
    },
    Status::TraceRefused {
        fault: TraceFault::NoFrame { line: 3 },
    },
    Status::TraceRefused {
        fault: TraceFault::NotSent { line: 1 },
    },
    Status::TraceRefused {
        fault: TraceFault::NotSaid { line: 4 },
    },
    Status::TraceRefused {
        fault: TraceFault::PlayBeforeSend { line: 1 },
    },
    Status::TraceRefused {
        fault: TraceFault::Far {
            line: 129,
            given: 128,
            other: 0,
        },
    },
];

/// The line of a refusal, and the number with which the process ends.
pub fn tell_refusal(case: &Case<'_>, out: &mut Outcome) {
    let name = case.text("status");
    for status in &STATUSES {
        out.told.clear();
        out.say(status);
        if out.told.as_slice() == name.as_bytes() {
            out.told.clear();
            out.say(&status.code());
            case.compare_told("code", out);
            case.compare("gives", refusal_line(status).text(), out);
            return;
        }
    }
    out.why = "a status that isn't in the list";
}

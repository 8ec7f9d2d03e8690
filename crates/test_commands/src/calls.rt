//! The calls of which rows speak.
use crate::case::{Case, Outcome, field};
use crate::{by_hand, commands, lent, logs, outside, reports, traces, videos};

/// A call.
#[derive(Clone, Copy)]
pub enum Call {
    Run,
    Host,
    ByHand,
    Converse,
    Line,
    Trace,
    Log,
    WriteLog,
    Video,
    WriteVideo,
    Words,
    Picture,
    Counts,
    Refusal,
    Attach,
    Make,
    Desk,
    Exchange,
    Region,
}

// The calls by their names, with the keys that a row of each may have.
static CALLS: [(&str, Call, &str); 19] = [
    (
        "run",
        Call::Run,
        "call by room failing differs any words video video2 events ends pictures pictures2 wire report",
    ),
    ("host", Call::Host, "call words file video read ends holds"),
    (
        "by_hand",
        Call::ByHand,
        "call by room any words video video2 events frames frames2 report gives",
    ),
    (
        "converse",
        Call::Converse,
        "call by room trace heard video events ends pictures report left",
    ),
    ("line", Call::Line, "call differs line gives"),
    (
        "trace",
        Call::Trace,
        "call by failing events skip calls put gives",
    ),
    (
        "log",
        Call::Log,
        "call by failing side events skip answers gives",
    ),
    (
        "write_log",
        Call::WriteLog,
        "call by room letter bytes gives wire",
    ),
    (
        "video",
        Call::Video,
        "call by failing video skip frame frames then planes gives",
    ),
    (
        "write_video",
        Call::WriteVideo,
        "call by room format mark samples gives pictures",
    ),
    ("words", Call::Words, "call words gives names"),
    (
        "picture",
        Call::Picture,
        "call number mark from party gives",
    ),
    ("counts", Call::Counts, "call counts gives"),
    ("refusal", Call::Refusal, "call status gives code"),
    (
        "attach",
        Call::Attach,
        "call first at bytes then names gives read holds",
    ),
    ("make", Call::Make, "call kind name of bytes"),
    (
        "desk",
        Call::Desk,
        "call by failing room video steps gives pictures",
    ),
    (
        "exchange",
        Call::Exchange,
        "call by room bytes gives pictures pictures2",
    ),
    ("region", Call::Region, "call gives"),
];

// Whether a part of fields has one of these keys, and no part before it has that key.
fn is_known(fields: &str, part: &str, keys: &str) -> bool {
    let (key, value) = part.split_once(": ").unwrap_or(("", ""));
    field(fields, "", key, "") == value && keys.split(' ').any(|known| known == key)
}

fn are_known(fields: &str, keys: &str) -> bool {
    fields.is_empty() || fields.split(" | ").all(|part| is_known(fields, part, keys))
}

/// The call of a row, if there is one that has each of its keys.
pub fn call_of(own: &str, each: &str) -> Option<Call> {
    let wanted = field(own, each, "call", "");
    for (name, call, keys) in &CALLS {
        if *name == wanted && are_known(own, keys) && are_known(each, keys) {
            return Some(*call);
        }
    }
    None
}

/// Runs a case.
pub fn run_case(call: Call, case: &Case<'_>, out: &mut Outcome) {
    match call {
        Call::Run => commands::run_words(case, out),
        Call::Host => commands::run_on_host(case, out),
        Call::ByHand => by_hand::join_by_hand(case, out),
        Call::Converse => lent::converse_with(case, out),
        Call::Line => traces::read_line(case, out),
        Call::Trace => traces::read_trace(case, out),
        Call::Log => logs::read_log(case, out),
        Call::WriteLog => logs::write_log(case, out),
        Call::Video => videos::read_video(case, out),
        Call::WriteVideo => videos::write_video(case, out),
        Call::Words => reports::read_words(case, out),
        Call::Picture => reports::tell_picture(case, out),
        Call::Counts => reports::tell_counts(case, out),
        Call::Refusal => reports::tell_refusal(case, out),
        Call::Attach => outside::attach_two(case, out),
        Call::Make => outside::make_file(case, out),
        Call::Desk => outside::take_steps(case, out),
        Call::Exchange => outside::exchange(case, out),
        Call::Region => outside::claim_slots(case, out),
    }
}

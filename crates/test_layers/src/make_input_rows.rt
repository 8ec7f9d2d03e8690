//! The made input of calls.
use h263_planes::PictureMut;
use h263_types::Format;
use loss_trace::Event;
use make_input::{TraceMaker, frame};
use std::alloc::Global;
use std::fmt::Write;
use test_fixtures::answer::{Answer, Asked, NO_MEMORY, WRONG};

// Says an event, as a line of a trace has it.
fn say_event(event: &Event, answer: &mut Answer) {
    let said = match event {
        Event::Send => write!(answer.words, " S"),
        Event::Play => write!(answer.words, " P"),
        Event::Back { message } => write!(answer.words, " B{message}"),
        Event::Packet { number, place } => write!(answer.words, " {number}.{place}"),
        Event::All { number } => write!(answer.words, " {number}.*"),
        Event::Nothing => write!(answer.words, " nothing"),
    };
    if said.is_err() {
        answer.why = NO_MEMORY;
    }
}

// Says all events, and two that come after the last.
fn trace(seed: u32, frames: u32, answer: &mut Answer) {
    let mut maker = TraceMaker::new(seed, frames);
    for _ in 0..1000u32 {
        let Some(event) = maker.next() else {
            break;
        };
        say_event(&event, answer);
    }
    answer.say(&maker.next());
    answer.say(&maker.next());
}

// A byte of a frame in QCIF: 144 rows of 176 samples of Y, then 72 of 88 of Cb and of Cr.
fn byte(alloc: Global, seed: u32, number: u32, place: usize, answer: &mut Answer) {
    let Ok(mut bytes) = vec![in alloc; 0; 38_016] else {
        answer.why = NO_MEMORY;
        return;
    };
    let mut out = PictureMut::new(Format::Qcif, bytes.as_mut_slice());
    frame(Format::Qcif, seed, number, &mut out);
    answer.say(&bytes.get(place).copied());
}

/// Answers a row of `make_input.rows`: does the call of this name by the words after it.
pub fn answer(alloc: Global, call: &str, asked: &mut Asked<'_>, answer: &mut Answer) {
    let seed = asked.number(1000);
    let number = asked.number(1000);
    match call {
        "trace" => trace(seed, number, answer),
        "byte" => byte(alloc, seed, number, asked.place(usize::MAX), answer),
        _ => answer.why = WRONG,
    }
}

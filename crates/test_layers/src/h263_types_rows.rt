//! Formats, reaches, ranges and clocks.
ghost use Rattle.std.specs.Prelude.{◌≤◌};

use h263_types::{Block, FixedPace, Format, Pace, Params, reach};
use test_fixtures::answer::{Answer, Asked, WRONG, call_of};

// Changes a parameter to another number: `quant=0`.
fn change(params: &mut Params, word: &str, answer: &mut Answer) {
    let (name, number) = word.split_once('=').unwrap_or((word, ""));
    let number = answer.number(number, u32::MAX);
    let byte = number.min(255) as u8;
    match name {
        "quant" => params.quant = byte,
        "keep" => params.keep = byte,
        "radius" => params.radius = byte,
        "limit" => params.limit = number,
        "slots" => params.slots = number,
        "lead" => params.lead = number,
        "messages" => params.messages = byte,
        _ => answer.why = WRONG,
    }
}

// What a check says of parameters, the given ones of which are changed.
fn check(asked: &mut Asked<'_>, answer: &mut Answer) {
    let mut params = Params::of(asked.format());
    for word in asked.words.by_ref() {
        change(&mut params, word, answer);
    }
    answer.say(&params.check());
}

fn format(format: Format, answer: &mut Answer) {
    answer.say(&(format.width(), format.height()));
    answer.say(&(format.columns(), format.rows(), format.mbs()));
    answer.say(&format.size());
}

// The marks of a block of zeros, but for the levels that are given after their places.
fn marks(asked: &mut Asked<'_>, answer: &mut Answer) {
    let mut levels = [0; 64];
    for word in asked.words.by_ref() {
        let (place, level) = call_of(word);
        let place = answer.number(place, 63);
        match level.parse::<i16>() {
            Ok(level) => levels[place as usize] = level,
            Err(_) => answer.why = WRONG,
        }
    }
    answer.say(&Block { levels }.marks());
}

/// Answers a row of `h263_types.rows`: does the call of this name by the words after it.
pub fn answer(call: &str, asked: &mut Asked<'_>, answer: &mut Answer) {
    match call {
        "format" => format(asked.format(), answer),
        "reach" => {
            let format = asked.format();
            let mb = asked.number(395);
            if mb >= format.mbs() {
                answer.why = WRONG;
                return;
            }
            answer.say(&reach(format, mb));
        }
        "check" => check(asked, answer),
        "clock" => {
            let clock = asked.clock();
            answer.say(&(clock.half(), clock.period()));
        }
        "pace_of_8" => answer.say(&FixedPace { quant: 8 }.quant(&[342, 31])),
        "marks" => marks(asked, answer),
        _ => answer.why = WRONG,
    }
}

//! Packets that are joined.
ghost use Rattle.std.specs.Prelude.{◌≡◌, []};

use h263_types::Format;
use payload_join::Joiner;
use std::alloc::Global;
use test_fixtures::answer::{Answer, Asked, NO_MEMORY, WRONG};

// Puts what a joiner still gives, one packet after the other. Answers how many bytes there are.
fn drained(joiner: &mut Joiner, answer: &mut Answer) -> usize
    ensures { joiner.new.left ≡ [] }
{
    let mut used: usize = 0;
    while let Some(packet) = joiner.next() {
        used = used.saturating_add(packet.len());
        answer.put(packet, u32::MAX);
    }
    used
}

// Takes packets of so many bytes, one after the other. Says of each what becomes of it, and how many
// bytes go out with it.
fn take_all(joiner: &mut Joiner, format: Format, asked: &mut Asked<'_>, answer: &mut Answer)
    requires { joiner.old.left ≡ [] }
{
    let mut from: usize = 0;
    'words: for word in asked.words.by_ref() {
        let to = from.saturating_add(answer.number(word, 65_535) as usize);
        if to <= asked.bytes.len() {
            let took = joiner.take(&asked.bytes[from..to], format);
            answer.say(&took);
            let bytes = drained(joiner, answer);
            answer.say(&bytes);
        }
        from = to;
    }
    if from != asked.bytes.len() {
        answer.why = WRONG;
    }
}

/// Answers a row of `payload_join.rows`: does the call of this name by the words after it.
pub fn answer(alloc: Global, call: &str, asked: &mut Asked<'_>, answer: &mut Answer) {
    if call != "join" {
        answer.why = WRONG;
        return;
    }
    let format = asked.format();
    let Ok(mut joiner) = Joiner::start(alloc) else {
        answer.why = NO_MEMORY;
        return;
    };
    take_all(&mut joiner, format, asked, answer);
    joiner.finish();
}

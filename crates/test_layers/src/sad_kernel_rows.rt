//! Sums of absolute differences.
ghost use Rattle.std.specs.Prelude.{◌≤◌};

use sad_kernel::{sad, sad_of_four, sad_until};
use test_fixtures::answer::{Answer, Asked, WRONG};

// Says the sum of so many pairs of samples, and the sum up to each number after them.
fn sums(count: usize, asked: &mut Asked<'_>, answer: &mut Answer)
    requires { count ≤ 48 }
{
    let mut a = [0; 48];
    let mut b = [0; 48];
    for k in 0..count {
        a[k] = asked.number(255) as u8;
        b[k] = asked.number(255) as u8;
    }
    answer.say(&sad(&a[..count], &b[..count]));
    for word in asked.words.by_ref() {
        let limit = answer.number(word, u32::MAX);
        answer.say(&sad_until(&a[..count], &b[..count], limit));
    }
}

// Four pairs of rows of 16 samples, each of one sample but the last one of each row.
fn row(asked: &mut Asked<'_>) -> [u8; 16] {
    let mut row = [asked.number(255) as u8; 16];
    row[15] = asked.number(255) as u8;
    row
}

fn four(asked: &mut Asked<'_>, answer: &mut Answer) {
    let (a, b, c, d) = (row(asked), row(asked), row(asked), row(asked));
    let (e, f, g, h) = (row(asked), row(asked), row(asked), row(asked));
    answer.say(&sad_of_four((&a, &b), (&c, &d), (&e, &f), (&g, &h)));
}

/// Answers a row of `sad_kernel.rows`: does the call of this name by the words after it.
pub fn answer(call: &str, asked: &mut Asked<'_>, answer: &mut Answer) {
    match call {
        "sums" => {
            let count = asked.place(48);
            sums(count, asked, answer)
        }
        "four" => four(asked, answer),
        _ => answer.why = WRONG,
    }
}

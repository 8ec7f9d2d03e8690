//! Values, levels and the zigzag order.
ghost use Rattle.h263_types.specs.Blocks.{IsQuant};

use quantiser::{
    block_place, factor_of, level_inter, level_intra, level_with_rest, value, zigzag_place,
};
use test_fixtures::answer::{Answer, Asked, WRONG};

fn quant(asked: &mut Asked<'_>) -> u8
    ensures { IsQuant result }
{
    let quant = asked.number(31);
    if quant == 0 {
        asked.wrong = true;
        return 1;
    }
    quant as u8
}

// A whole number of 16 bits and a few more.
fn signed(asked: &mut Asked<'_>) -> i32 {
    match asked.word().parse::<i32>() {
        Ok(number) => number,
        Err(_) => {
            asked.wrong = true;
            0
        }
    }
}

fn value_of(quant: u8, level: i32, answer: &mut Answer)
    requires { IsQuant quant }
{
    if level < -127 || level > 127 {
        answer.why = WRONG;
        return;
    }
    answer.say(&value(quant, level as i16));
}

// Says the levels of a coefficient of an inter block, and of an intra block.
fn levels_of(quant: u8, coefficient: i32, answer: &mut Answer)
    requires { IsQuant quant }
{
    if coefficient < -65_535 || coefficient > 65_535 {
        answer.why = WRONG;
        return;
    }
    answer.say(&level_inter(quant, coefficient));
    answer.say(&level_intra(quant, coefficient));
}

// Says the level of half a coefficient and a rest.
fn level_of(quant: u8, half: u16, sixteenths: i32, answer: &mut Answer)
    requires { IsQuant quant }
{
    if sixteenths < -32_768 || sixteenths > 32_767 {
        answer.why = WRONG;
        return;
    }
    answer.say(&level_with_rest(quant, factor_of(quant), half, sixteenths as i16));
}

/// Answers a row of `quantiser.rows`: does the call of this name by the words after it.
pub fn answer(call: &str, asked: &mut Asked<'_>, answer: &mut Answer) {
    match call {
        "value" => {
            let quant = quant(asked);
            value_of(quant, signed(asked), answer);
        }
        "levels" => {
            let quant = quant(asked);
            levels_of(quant, signed(asked), answer);
        }
        "level_with_rest" => {
            let quant = quant(asked);
            let half = asked.number(65_535) as u16;
            level_of(quant, half, signed(asked), answer);
        }
        "block_place" => answer.say(&block_place(asked.place(63))),
        "zigzag_place" => answer.say(&zigzag_place(asked.place(63))),
        _ => answer.why = WRONG,
    }
}

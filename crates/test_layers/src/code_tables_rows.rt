//! Words of the tables.
use code_tables::{
    Coefficient, MbClass, Mcbpc, event_number, read_cbpy, read_dquant, read_event, read_mcbpc,
    read_mvd, write_cbpy, write_dquant, write_event, write_mcbpc, write_mvd,
};
use h263_bits::BitWriter;
use h263_types::Kind;
use test_fixtures::answer::{Answer, Asked, WRONG, reader_of};

// A difference of -63, taken as 1, the longest word of MCBPC in P, the shortest of CBPY, and a step
// of -2.
fn words_written() -> [u8; 2] {
    let mut bytes = [0u8; 2];
    let mut writer = BitWriter::new(&mut bytes);
    write_mvd(&mut writer, 1);
    let class = MbClass::InterQ;
    write_mcbpc(&mut writer, Kind::P, &Mcbpc::Word { class, cbpc: 3 });
    write_cbpy(&mut writer, true, 15);
    write_dquant(&mut writer, -2);
    bytes
}

// The three events (0, 0, 1), (1, 0, -1) and (1, 5, -20), the last one as an escape: each as a number,
// and all written.
fn events_written(answer: &mut Answer) {
    let mut bytes = [0u8; 4];
    let mut writer = BitWriter::new(&mut bytes);
    let first = Coefficient {
        last: false,
        run: 0,
        level: 1,
    };
    let second = Coefficient {
        last: true,
        run: 0,
        level: -1,
    };
    let third = Coefficient {
        last: true,
        run: 5,
        level: -20,
    };
    write_event(&mut writer, &first);
    write_event(&mut writer, &second);
    write_event(&mut writer, &third);
    let len = writer.len();
    answer.say(&event_number(&first));
    answer.say(&event_number(&second));
    answer.say(&event_number(&third));
    answer.put(&bytes, len);
}

// Reads words one after the other, each of the kind that is named, and says each, or its fault, and
// how many bits are left.
fn read_words(asked: &mut Asked<'_>, answer: &mut Answer) {
    let mut reader = reader_of(&asked.bytes, 0, asked.len);
    for word in asked.words.by_ref() {
        match word {
            "event" => answer.say(&read_event(&mut reader)),
            "mvd" => answer.say(&read_mvd(&mut reader)),
            "cbpy_intra" => answer.say(&read_cbpy(&mut reader, true)),
            "cbpy_inter" => answer.say(&read_cbpy(&mut reader, false)),
            "mcbpc_i" => answer.say(&read_mcbpc(&mut reader, Kind::I)),
            "mcbpc_p" => answer.say(&read_mcbpc(&mut reader, Kind::P)),
            "dquant" => answer.say(&read_dquant(&mut reader)),
            "rest" => answer.say(&reader.rest()),
            _ => answer.why = WRONG,
        }
    }
}

/// Answers a row of `code_tables.rows`: does the call of this name by the words after it.
pub fn answer(call: &str, asked: &mut Asked<'_>, answer: &mut Answer) {
    match call {
        "read" => read_words(asked, answer),
        "words_written" => answer.put(&words_written(), 16),
        "events_written" => events_written(answer),
        _ => answer.why = WRONG,
    }
}

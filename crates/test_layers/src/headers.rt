//! Headers by name.
ghost use Rattle.picture_header.specs.Ranges.{IsHeader};

use h263_types::Clock;
use picture_header::Header;
use test_fixtures::answer::{Answer, WRONG};
use test_fixtures::codec::{INTER, INTER_OF_CIF, INTRA, INTRA_OF_CIF};

// The P picture of 128 x 96 whose only slice an independent encoder wrote.
const SENT_P: Header = Header { quant: 31, ..INTER };

// An I picture of 128 x 96 whose second slice the same encoder wrote.
const SENT_I: Header = Header { quant: 12, ..INTRA };

// A P picture of sub-QCIF with rounding 0 that refers to picture 255, at quantiser 31.
const SMALL: Header = Header {
    tr: 0,
    rounding: 0,
    trp: Some(255),
    quant: 31,
    ..INTER
};

// Picture 0 by the custom clock, whose header has ten bits more.
const CUSTOM: Header = Header {
    clock: Clock::Custom,
    ..INTRA
};

/// The header with this name.
pub fn header(name: &str, answer: &mut Answer) -> Header
    ensures { IsHeader result }
{
    match name {
        "intra" => INTRA,
        "inter" => INTER,
        "intra_of_cif" => INTRA_OF_CIF,
        "inter_of_cif" => INTER_OF_CIF,
        "sent_p" => SENT_P,
        "sent_i" => SENT_I,
        "small" => SMALL,
        "custom" => CUSTOM,
        _ => {
            answer.why = WRONG;
            INTRA
        }
    }
}

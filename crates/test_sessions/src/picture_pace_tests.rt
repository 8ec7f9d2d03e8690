//! Quantisers that fit pictures to a target, picture by picture.
use h263_types::{Format, Kind};
use picture_pace::FitPace;
use std::process::Abort;

// What is in the bucket, what the next picture may have, intra and predicted, and its quantiser.
type Said = (u64, u64, u64, u8, u8);

fn said(pace: &FitPace) -> Said {
    (
        pace.level(),
        pace.wanted(Kind::I),
        pace.wanted(Kind::P),
        pace.quant(Kind::I),
        pace.quant(Kind::P),
    )
}

// A target of 1,000 bytes with a room of 8,000, in QCIF: the level is led to 4,000.
#[test]
fn pictures_of_both_kinds(rt: HostRuntime) {
    let table: [(Kind, u8, u32, Said); 12] = [
        (Kind::I, 9, 3_000, (2_000, 2_333, 1_500, 11, 7)),
        (Kind::I, 14, 2_300, (3_300, 1_466, 1_350, 19, 8)),
        (Kind::P, 12, 400, (2_700, 1_866, 1_500, 15, 5)),
        (Kind::P, 8, 1_200, (2_900, 1_733, 1_400, 17, 7)),
        (Kind::P, 9, 1_000, (2_900, 1_733, 1_400, 17, 7)),
        (Kind::P, 9, 1_100, (3_000, 1_666, 1_350, 17, 7)),
        // The excess is above one target: what predicted pictures may have falls.
        (Kind::P, 9, 3_000, (5_000, 500, 350, 31, 31)),
        // The bucket is full, and drains.
        (Kind::I, 9, 8_000, (12_000, 250, 250, 31, 31)),
        (Kind::I, 31, 700, (11_700, 250, 250, 31, 31)),
        (Kind::P, 31, 100, (10_800, 250, 250, 31, 31)),
        (Kind::P, 31, 20, (9_820, 250, 250, 31, 31)),
        (Kind::P, 31, 0, (8_820, 250, 250, 31, 31)),
    ];
    let mut pace = FitPace::start(Format::Qcif, 1_000, 8_000);
    assert!(rt; said(&pace) == (0, 3_666, 1_500, 6, 7));
    for (kind, quant, bytes, after) in table {
        pace.coded(kind, quant, bytes);
        assert!(rt; said(&pace) == after);
    }
}

// A target of one byte without room, a picture of no bytes and one of the most.
#[test]
fn least_and_most(rt: HostRuntime) {
    let mut pace = FitPace::start(Format::Cif, 1, 0);
    assert!(rt; said(&pace) == (0, 1, 1, 31, 31));
    pace.coded(Kind::P, 0, 0);
    assert!(rt; said(&pace) == (0, 1, 1, 31, 31));
    pace.coded(Kind::P, 255, 4_294_967_295);
    assert!(rt; said(&pace) == (4_294_967_294, 1, 1, 31, 31));
    pace.redirect(999_999, 99_999_999);
    assert!(rt; said(&pace) == (4_294_967_294, 249_999, 249_999, 31, 31));
    let wide = FitPace::start(Format::SubQcif, 999_999, 99_999_999);
    assert!(rt; said(&wide) == (0, 34_333_331, 1_499_998, 2, 2));
}

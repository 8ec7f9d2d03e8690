//! The codes of events and what they stand for, and for each prefix of eight or of twelve bits the
//! event whose word it begins with.

use crate::code::{Code, Level};

/// TCOEF: the words of the events, without the sign, and the escape (5.4.2).
pub const EVENTS: [Code; 103] = [
    Code { bits: 2, len: 2 },
    Code { bits: 15, len: 4 },
    Code { bits: 21, len: 6 },
    Code { bits: 23, len: 7 },
    Code { bits: 31, len: 8 },
    Code { bits: 37, len: 9 },
    Code { bits: 36, len: 9 },
    Code { bits: 33, len: 10 },
    Code { bits: 32, len: 10 },
    Code { bits: 7, len: 11 },
    Code { bits: 6, len: 11 },
    Code { bits: 32, len: 11 },
    Code { bits: 6, len: 3 },
    Code { bits: 20, len: 6 },
    Code { bits: 30, len: 8 },
    Code { bits: 15, len: 10 },
    Code { bits: 33, len: 11 },
    Code { bits: 80, len: 12 },
    Code { bits: 14, len: 4 },
    Code { bits: 29, len: 8 },
    Code { bits: 14, len: 10 },
    Code { bits: 81, len: 12 },
    Code { bits: 13, len: 5 },
    Code { bits: 35, len: 9 },
    Code { bits: 13, len: 10 },
    Code { bits: 12, len: 5 },
    Code { bits: 34, len: 9 },
    Code { bits: 82, len: 12 },
    Code { bits: 11, len: 5 },
    Code { bits: 12, len: 10 },
    Code { bits: 83, len: 12 },
    Code { bits: 19, len: 6 },
    Code { bits: 11, len: 10 },
    Code { bits: 84, len: 12 },
    Code { bits: 18, len: 6 },
    Code { bits: 10, len: 10 },
    Code { bits: 17, len: 6 },
    Code { bits: 9, len: 10 },
    Code { bits: 16, len: 6 },
    Code { bits: 8, len: 10 },
    Code { bits: 22, len: 7 },
    Code { bits: 85, len: 12 },
    Code { bits: 21, len: 7 },
    Code { bits: 20, len: 7 },
    Code { bits: 28, len: 8 },
    Code { bits: 27, len: 8 },
    Code { bits: 33, len: 9 },
    Code { bits: 32, len: 9 },
    Code { bits: 31, len: 9 },
    Code { bits: 30, len: 9 },
    Code { bits: 29, len: 9 },
    Code { bits: 28, len: 9 },
    Code { bits: 27, len: 9 },
    Code { bits: 26, len: 9 },
    Code { bits: 34, len: 11 },
    Code { bits: 35, len: 11 },
    Code { bits: 86, len: 12 },
    Code { bits: 87, len: 12 },
    Code { bits: 7, len: 4 },
    Code { bits: 25, len: 9 },
    Code { bits: 5, len: 11 },
    Code { bits: 15, len: 6 },
    Code { bits: 4, len: 11 },
    Code { bits: 14, len: 6 },
    Code { bits: 13, len: 6 },
    Code { bits: 12, len: 6 },
    Code { bits: 19, len: 7 },
    Code { bits: 18, len: 7 },
    Code { bits: 17, len: 7 },
    Code { bits: 16, len: 7 },
    Code { bits: 26, len: 8 },
    Code { bits: 25, len: 8 },
    Code { bits: 24, len: 8 },
    Code { bits: 23, len: 8 },
    Code { bits: 22, len: 8 },
    Code { bits: 21, len: 8 },
    Code { bits: 20, len: 8 },
    Code { bits: 19, len: 8 },
    Code { bits: 24, len: 9 },
    Code { bits: 23, len: 9 },
    Code { bits: 22, len: 9 },
    Code { bits: 21, len: 9 },
    Code { bits: 20, len: 9 },
    Code { bits: 19, len: 9 },
    Code { bits: 18, len: 9 },
    Code { bits: 17, len: 9 },
    Code { bits: 7, len: 10 },
    Code { bits: 6, len: 10 },
    Code { bits: 5, len: 10 },
    Code { bits: 4, len: 10 },
    Code { bits: 36, len: 11 },
    Code { bits: 37, len: 11 },
    Code { bits: 38, len: 11 },
    Code { bits: 39, len: 11 },
    Code { bits: 88, len: 12 },
    Code { bits: 89, len: 12 },
    Code { bits: 90, len: 12 },
    Code { bits: 91, len: 12 },
    Code { bits: 92, len: 12 },
    Code { bits: 93, len: 12 },
    Code { bits: 94, len: 12 },
    Code { bits: 95, len: 12 },
    Code { bits: 3, len: 7 },
];

/// What the words stand for, row by row: for a LAST and a RUN the sizes that have a word.
macro_rules! levels {
    ($($last:literal { $($run:literal: $($size:literal)*,)* })*) => {
        [$($($(Level { last: $last, run: $run, size: $size },)*)*)*]
    };
}

/// What each word of `EVENTS` but the escape stands for.
pub const LEVELS: [Level; 102] = levels! {
    false {
        0: 1 2 3 4 5 6 7 8 9 10 11 12, 1: 1 2 3 4 5 6, 2: 1 2 3 4, 3: 1 2 3, 4: 1 2 3, 5: 1 2 3,
        6: 1 2 3, 7: 1 2, 8: 1 2, 9: 1 2, 10: 1 2, 11: 1, 12: 1, 13: 1, 14: 1, 15: 1, 16: 1,
        17: 1, 18: 1, 19: 1, 20: 1, 21: 1, 22: 1, 23: 1, 24: 1, 25: 1, 26: 1,
    }
    true {
        0: 1 2 3, 1: 1 2, 2: 1, 3: 1, 4: 1, 5: 1, 6: 1, 7: 1, 8: 1, 9: 1, 10: 1, 11: 1, 12: 1,
        13: 1, 14: 1, 15: 1, 16: 1, 17: 1, 18: 1, 19: 1, 20: 1, 21: 1, 22: 1, 23: 1, 24: 1, 25: 1,
        26: 1, 27: 1, 28: 1, 29: 1, 30: 1, 31: 1, 32: 1, 33: 1, 34: 1, 35: 1, 36: 1, 37: 1, 38: 1,
        39: 1, 40: 1,
    }
};

/// The words of a LAST and a RUN, which stand one after another, for the sizes from 1 on: the place
/// of the first, and how many they are.
#[derive(Clone, Copy)]
pub struct Row {
    pub first: u8,
    pub count: u8,
}

/// The rows of one LAST by RUN, each by its first place and its count.
macro_rules! rows {
    ($($first:literal $count:literal,)*) => {
        [$(Row { first: $first, count: $count },)*]
    };
}

/// The words of LAST 0, by RUN.
pub const LAST_0_ROWS: [Row; 64] = rows! {
    0 12, 12 6, 18 4, 22 3, 25 3, 28 3, 31 3, 34 2, 36 2, 38 2, 40 2, 42 1, 43 1, 44 1, 45 1,
    46 1, 47 1, 48 1, 49 1, 50 1, 51 1, 52 1, 53 1, 54 1, 55 1, 56 1, 57 1, 0 0, 0 0, 0 0, 0 0,
    0 0, 0 0, 0 0, 0 0, 0 0, 0 0, 0 0, 0 0, 0 0, 0 0, 0 0, 0 0, 0 0, 0 0, 0 0, 0 0, 0 0, 0 0,
    0 0, 0 0, 0 0, 0 0, 0 0, 0 0, 0 0, 0 0, 0 0, 0 0, 0 0, 0 0, 0 0, 0 0, 0 0,
};

/// The words of LAST 1, by RUN.
pub const LAST_1_ROWS: [Row; 64] = rows! {
    58 3, 61 2, 63 1, 64 1, 65 1, 66 1, 67 1, 68 1, 69 1, 70 1, 71 1, 72 1, 73 1, 74 1, 75 1,
    76 1, 77 1, 78 1, 79 1, 80 1, 81 1, 82 1, 83 1, 84 1, 85 1, 86 1, 87 1, 88 1, 89 1, 90 1,
    91 1, 92 1, 93 1, 94 1, 95 1, 96 1, 97 1, 98 1, 99 1, 100 1, 101 1, 0 0, 0 0, 0 0, 0 0,
    0 0, 0 0, 0 0, 0 0, 0 0, 0 0, 0 0, 0 0, 0 0, 0 0, 0 0, 0 0, 0 0, 0 0, 0 0, 0 0, 0 0, 0 0,
    0 0,
};

// The events by the first bits of their words, each as one number: how many bits the word has, and
// from bit 4 on LAST, from bit 5 on RUN, and from bit 11 on the size. 0 is no event.

/// By eight bits, the event whose word they begin with, where it has no more bits.
pub const SHORT_EVENTS: [u16; 256] = [
    0, 0, 0, 0, 0, 0, 0, 0, 0, 0, 0, 0, 0, 0, 0, 0, 0, 0, 0, 2584, 2552, 2520, 2488, 2456, 2424,
    2392, 2360, 2504, 2472, 4168, 6184, 10248, 2327, 2327, 2295, 2295, 2263, 2263, 2231, 2231,
    2439, 2439, 2407, 2407, 2375, 2375, 8199, 8199, 2198, 2198, 2198, 2198, 2166, 2166, 2166, 2166,
    2134, 2134, 2134, 2134, 2102, 2102, 2102, 2102, 2342, 2342, 2342, 2342, 2310, 2310, 2310, 2310,
    2278, 2278, 2278, 2278, 2246, 2246, 2246, 2246, 4134, 4134, 4134, 4134, 6150, 6150, 6150, 6150,
    2213, 2213, 2213, 2213, 2213, 2213, 2213, 2213, 2181, 2181, 2181, 2181, 2181, 2181, 2181, 2181,
    2149, 2149, 2149, 2149, 2149, 2149, 2149, 2149, 2068, 2068, 2068, 2068, 2068, 2068, 2068, 2068,
    2068, 2068, 2068, 2068, 2068, 2068, 2068, 2068, 2050, 2050, 2050, 2050, 2050, 2050, 2050, 2050,
    2050, 2050, 2050, 2050, 2050, 2050, 2050, 2050, 2050, 2050, 2050, 2050, 2050, 2050, 2050, 2050,
    2050, 2050, 2050, 2050, 2050, 2050, 2050, 2050, 2050, 2050, 2050, 2050, 2050, 2050, 2050, 2050,
    2050, 2050, 2050, 2050, 2050, 2050, 2050, 2050, 2050, 2050, 2050, 2050, 2050, 2050, 2050, 2050,
    2050, 2050, 2050, 2050, 2050, 2050, 2050, 2050, 2083, 2083, 2083, 2083, 2083, 2083, 2083, 2083,
    2083, 2083, 2083, 2083, 2083, 2083, 2083, 2083, 2083, 2083, 2083, 2083, 2083, 2083, 2083, 2083,
    2083, 2083, 2083, 2083, 2083, 2083, 2083, 2083, 2116, 2116, 2116, 2116, 2116, 2116, 2116, 2116,
    2116, 2116, 2116, 2116, 2116, 2116, 2116, 2116, 4100, 4100, 4100, 4100, 4100, 4100, 4100, 4100,
    4100, 4100, 4100, 4100, 4100, 4100, 4100, 4100,
];

/// By twelve bits, the event whose word they begin with, where it has more than eight bits. The
/// prefixes that are left out are higher, and begin with no such word.
pub const LONG_EVENTS: [u16; 304] = [
    0, 0, 0, 0, 0, 0, 0, 0, 4155, 4155, 6171, 6171, 22539, 22539, 20491, 20491, 2970, 2970, 2970,
    2970, 2938, 2938, 2938, 2938, 2906, 2906, 2906, 2906, 2874, 2874, 2874, 2874, 4394, 4394, 4394,
    4394, 4362, 4362, 4362, 4362, 4330, 4330, 4330, 4330, 4298, 4298, 4298, 4298, 4266, 4266, 4266,
    4266, 6250, 6250, 6250, 6250, 6218, 6218, 6218, 6218, 8234, 8234, 8234, 8234, 24587, 24587,
    10283, 10283, 2795, 2795, 2827, 2827, 3003, 3003, 3035, 3035, 3067, 3067, 3099, 3099, 12332,
    8268, 6284, 6316, 6348, 4428, 2860, 2892, 3132, 3164, 3196, 3228, 3260, 3292, 3324, 3356, 0, 0,
    0, 0, 0, 0, 0, 0, 0, 0, 0, 0, 0, 0, 0, 0, 0, 0, 0, 0, 0, 0, 0, 0, 0, 0, 0, 0, 0, 0, 0, 0,
    18442, 18442, 18442, 18442, 16394, 16394, 16394, 16394, 2841, 2841, 2841, 2841, 2841, 2841,
    2841, 2841, 2809, 2809, 2809, 2809, 2809, 2809, 2809, 2809, 2777, 2777, 2777, 2777, 2777, 2777,
    2777, 2777, 2745, 2745, 2745, 2745, 2745, 2745, 2745, 2745, 2713, 2713, 2713, 2713, 2713, 2713,
    2713, 2713, 2681, 2681, 2681, 2681, 2681, 2681, 2681, 2681, 2649, 2649, 2649, 2649, 2649, 2649,
    2649, 2649, 2617, 2617, 2617, 2617, 2617, 2617, 2617, 2617, 4121, 4121, 4121, 4121, 4121, 4121,
    4121, 4121, 2761, 2761, 2761, 2761, 2761, 2761, 2761, 2761, 2729, 2729, 2729, 2729, 2729, 2729,
    2729, 2729, 2697, 2697, 2697, 2697, 2697, 2697, 2697, 2697, 2665, 2665, 2665, 2665, 2665, 2665,
    2665, 2665, 2633, 2633, 2633, 2633, 2633, 2633, 2633, 2633, 2601, 2601, 2601, 2601, 2601, 2601,
    2601, 2601, 2569, 2569, 2569, 2569, 2569, 2569, 2569, 2569, 2537, 2537, 2537, 2537, 2537, 2537,
    2537, 2537, 4233, 4233, 4233, 4233, 4233, 4233, 4233, 4233, 4201, 4201, 4201, 4201, 4201, 4201,
    4201, 4201, 14345, 14345, 14345, 14345, 14345, 14345, 14345, 14345, 12297, 12297, 12297, 12297,
    12297, 12297, 12297, 12297,
];

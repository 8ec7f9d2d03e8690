//! The codes of each table, and for each prefix of eight or of twelve bits the code that it begins
//! with, or 255.

use crate::code::Code;
use crate::macroblock::{MbClass, Mcbpc};

/// CBPY of intra macroblocks: the words of the patterns 0 to 15 (5.3.5).
pub const CBPY: [Code; 16] = [
    Code { bits: 3, len: 4 },
    Code { bits: 5, len: 5 },
    Code { bits: 4, len: 5 },
    Code { bits: 9, len: 4 },
    Code { bits: 3, len: 5 },
    Code { bits: 7, len: 4 },
    Code { bits: 2, len: 6 },
    Code { bits: 11, len: 4 },
    Code { bits: 2, len: 5 },
    Code { bits: 3, len: 6 },
    Code { bits: 5, len: 4 },
    Code { bits: 10, len: 4 },
    Code { bits: 4, len: 4 },
    Code { bits: 8, len: 4 },
    Code { bits: 6, len: 4 },
    Code { bits: 3, len: 2 },
];

/// By eight bits, the place of the word of `CBPY` that they begin with, where there is one.
pub const CBPY_FAST: [u8; 256] = [
    255, 255, 255, 255, 255, 255, 255, 255, 6, 6, 6, 6, 9, 9, 9, 9, 8, 8, 8, 8, 8, 8, 8, 8, 4, 4,
    4, 4, 4, 4, 4, 4, 2, 2, 2, 2, 2, 2, 2, 2, 1, 1, 1, 1, 1, 1, 1, 1, 0, 0, 0, 0, 0, 0, 0, 0, 0, 0,
    0, 0, 0, 0, 0, 0, 12, 12, 12, 12, 12, 12, 12, 12, 12, 12, 12, 12, 12, 12, 12, 12, 10, 10, 10,
    10, 10, 10, 10, 10, 10, 10, 10, 10, 10, 10, 10, 10, 14, 14, 14, 14, 14, 14, 14, 14, 14, 14, 14,
    14, 14, 14, 14, 14, 5, 5, 5, 5, 5, 5, 5, 5, 5, 5, 5, 5, 5, 5, 5, 5, 13, 13, 13, 13, 13, 13, 13,
    13, 13, 13, 13, 13, 13, 13, 13, 13, 3, 3, 3, 3, 3, 3, 3, 3, 3, 3, 3, 3, 3, 3, 3, 3, 11, 11, 11,
    11, 11, 11, 11, 11, 11, 11, 11, 11, 11, 11, 11, 11, 7, 7, 7, 7, 7, 7, 7, 7, 7, 7, 7, 7, 7, 7,
    7, 7, 15, 15, 15, 15, 15, 15, 15, 15, 15, 15, 15, 15, 15, 15, 15, 15, 15, 15, 15, 15, 15, 15,
    15, 15, 15, 15, 15, 15, 15, 15, 15, 15, 15, 15, 15, 15, 15, 15, 15, 15, 15, 15, 15, 15, 15, 15,
    15, 15, 15, 15, 15, 15, 15, 15, 15, 15, 15, 15, 15, 15, 15, 15, 15, 15,
];

/// MVD: the words of the sizes 0 to 32 half samples, without the sign (5.3.7).
pub const MAGNITUDES: [Code; 33] = [
    Code { bits: 1, len: 1 },
    Code { bits: 1, len: 2 },
    Code { bits: 1, len: 3 },
    Code { bits: 1, len: 4 },
    Code { bits: 3, len: 6 },
    Code { bits: 5, len: 7 },
    Code { bits: 4, len: 7 },
    Code { bits: 3, len: 7 },
    Code { bits: 11, len: 9 },
    Code { bits: 10, len: 9 },
    Code { bits: 9, len: 9 },
    Code { bits: 17, len: 10 },
    Code { bits: 16, len: 10 },
    Code { bits: 15, len: 10 },
    Code { bits: 14, len: 10 },
    Code { bits: 13, len: 10 },
    Code { bits: 12, len: 10 },
    Code { bits: 11, len: 10 },
    Code { bits: 10, len: 10 },
    Code { bits: 9, len: 10 },
    Code { bits: 8, len: 10 },
    Code { bits: 7, len: 10 },
    Code { bits: 6, len: 10 },
    Code { bits: 5, len: 10 },
    Code { bits: 4, len: 10 },
    Code { bits: 7, len: 11 },
    Code { bits: 6, len: 11 },
    Code { bits: 5, len: 11 },
    Code { bits: 4, len: 11 },
    Code { bits: 3, len: 11 },
    Code { bits: 2, len: 11 },
    Code { bits: 3, len: 12 },
    Code { bits: 2, len: 12 },
];

/// By eight bits, the place of the word of `MAGNITUDES` that they begin with, where there is one.
pub const MAGNITUDES_FAST: [u8; 256] = [
    255, 255, 255, 255, 255, 255, 7, 7, 6, 6, 5, 5, 4, 4, 4, 4, 3, 3, 3, 3, 3, 3, 3, 3, 3, 3, 3, 3,
    3, 3, 3, 3, 2, 2, 2, 2, 2, 2, 2, 2, 2, 2, 2, 2, 2, 2, 2, 2, 2, 2, 2, 2, 2, 2, 2, 2, 2, 2, 2, 2,
    2, 2, 2, 2, 1, 1, 1, 1, 1, 1, 1, 1, 1, 1, 1, 1, 1, 1, 1, 1, 1, 1, 1, 1, 1, 1, 1, 1, 1, 1, 1, 1,
    1, 1, 1, 1, 1, 1, 1, 1, 1, 1, 1, 1, 1, 1, 1, 1, 1, 1, 1, 1, 1, 1, 1, 1, 1, 1, 1, 1, 1, 1, 1, 1,
    1, 1, 1, 1, 0, 0, 0, 0, 0, 0, 0, 0, 0, 0, 0, 0, 0, 0, 0, 0, 0, 0, 0, 0, 0, 0, 0, 0, 0, 0, 0, 0,
    0, 0, 0, 0, 0, 0, 0, 0, 0, 0, 0, 0, 0, 0, 0, 0, 0, 0, 0, 0, 0, 0, 0, 0, 0, 0, 0, 0, 0, 0, 0, 0,
    0, 0, 0, 0, 0, 0, 0, 0, 0, 0, 0, 0, 0, 0, 0, 0, 0, 0, 0, 0, 0, 0, 0, 0, 0, 0, 0, 0, 0, 0, 0, 0,
    0, 0, 0, 0, 0, 0, 0, 0, 0, 0, 0, 0, 0, 0, 0, 0, 0, 0, 0, 0, 0, 0, 0, 0, 0, 0, 0, 0, 0, 0, 0, 0,
    0, 0, 0, 0,
];

/// By twelve bits, the place of the word of `MAGNITUDES` of more than eight bits that they begin
/// with, where there is one. The prefixes that are left out are higher, and begin with none.
pub const MAGNITUDES_LONG: [u8; 96] = [
    255, 255, 32, 31, 30, 30, 29, 29, 28, 28, 27, 27, 26, 26, 25, 25, 24, 24, 24, 24, 23, 23, 23,
    23, 22, 22, 22, 22, 21, 21, 21, 21, 20, 20, 20, 20, 19, 19, 19, 19, 18, 18, 18, 18, 17, 17, 17,
    17, 16, 16, 16, 16, 15, 15, 15, 15, 14, 14, 14, 14, 13, 13, 13, 13, 12, 12, 12, 12, 11, 11, 11,
    11, 10, 10, 10, 10, 10, 10, 10, 10, 9, 9, 9, 9, 9, 9, 9, 9, 8, 8, 8, 8, 8, 8, 8, 8,
];

/// MCBPC of I pictures: the words of the classes in their order, CBPC 0 to 3 each, and stuffing.
pub const INTRA_MCBPC: [Code; 9] = [
    Code { bits: 1, len: 1 },
    Code { bits: 1, len: 3 },
    Code { bits: 2, len: 3 },
    Code { bits: 3, len: 3 },
    Code { bits: 1, len: 4 },
    Code { bits: 1, len: 6 },
    Code { bits: 2, len: 6 },
    Code { bits: 3, len: 6 },
    Code { bits: 1, len: 9 },
];

/// By eight bits, the place of the word of `INTRA_MCBPC` that they begin with, where there is one.
pub const INTRA_MCBPC_FAST: [u8; 256] = [
    255, 255, 255, 255, 5, 5, 5, 5, 6, 6, 6, 6, 7, 7, 7, 7, 4, 4, 4, 4, 4, 4, 4, 4, 4, 4, 4, 4, 4,
    4, 4, 4, 1, 1, 1, 1, 1, 1, 1, 1, 1, 1, 1, 1, 1, 1, 1, 1, 1, 1, 1, 1, 1, 1, 1, 1, 1, 1, 1, 1, 1,
    1, 1, 1, 2, 2, 2, 2, 2, 2, 2, 2, 2, 2, 2, 2, 2, 2, 2, 2, 2, 2, 2, 2, 2, 2, 2, 2, 2, 2, 2, 2, 2,
    2, 2, 2, 3, 3, 3, 3, 3, 3, 3, 3, 3, 3, 3, 3, 3, 3, 3, 3, 3, 3, 3, 3, 3, 3, 3, 3, 3, 3, 3, 3, 3,
    3, 3, 3, 0, 0, 0, 0, 0, 0, 0, 0, 0, 0, 0, 0, 0, 0, 0, 0, 0, 0, 0, 0, 0, 0, 0, 0, 0, 0, 0, 0, 0,
    0, 0, 0, 0, 0, 0, 0, 0, 0, 0, 0, 0, 0, 0, 0, 0, 0, 0, 0, 0, 0, 0, 0, 0, 0, 0, 0, 0, 0, 0, 0, 0,
    0, 0, 0, 0, 0, 0, 0, 0, 0, 0, 0, 0, 0, 0, 0, 0, 0, 0, 0, 0, 0, 0, 0, 0, 0, 0, 0, 0, 0, 0, 0, 0,
    0, 0, 0, 0, 0, 0, 0, 0, 0, 0, 0, 0, 0, 0, 0, 0, 0, 0, 0, 0, 0, 0, 0, 0, 0, 0, 0, 0, 0, 0, 0, 0,
    0, 0, 0,
];

/// What each word of `INTRA_MCBPC` stands for.
pub const INTRA_MCBPC_SYMBOLS: [Mcbpc; 9] = [
    Mcbpc::Word {
        class: MbClass::Intra,
        cbpc: 0,
    },
    Mcbpc::Word {
        class: MbClass::Intra,
        cbpc: 1,
    },
    Mcbpc::Word {
        class: MbClass::Intra,
        cbpc: 2,
    },
    Mcbpc::Word {
        class: MbClass::Intra,
        cbpc: 3,
    },
    Mcbpc::Word {
        class: MbClass::IntraQ,
        cbpc: 0,
    },
    Mcbpc::Word {
        class: MbClass::IntraQ,
        cbpc: 1,
    },
    Mcbpc::Word {
        class: MbClass::IntraQ,
        cbpc: 2,
    },
    Mcbpc::Word {
        class: MbClass::IntraQ,
        cbpc: 3,
    },
    Mcbpc::Stuffing,
];

/// MCBPC of P pictures: the words of the classes in their order, CBPC 0 to 3 each, and stuffing.
pub const INTER_MCBPC: [Code; 21] = [
    Code { bits: 1, len: 1 },
    Code { bits: 3, len: 4 },
    Code { bits: 2, len: 4 },
    Code { bits: 5, len: 6 },
    Code { bits: 3, len: 3 },
    Code { bits: 7, len: 7 },
    Code { bits: 6, len: 7 },
    Code { bits: 5, len: 9 },
    Code { bits: 2, len: 3 },
    Code { bits: 5, len: 7 },
    Code { bits: 4, len: 7 },
    Code { bits: 5, len: 8 },
    Code { bits: 3, len: 5 },
    Code { bits: 4, len: 8 },
    Code { bits: 3, len: 8 },
    Code { bits: 3, len: 7 },
    Code { bits: 4, len: 6 },
    Code { bits: 4, len: 9 },
    Code { bits: 3, len: 9 },
    Code { bits: 2, len: 9 },
    Code { bits: 1, len: 9 },
];

/// By eight bits, the place of the word of `INTER_MCBPC` that they begin with, where there is one.
pub const INTER_MCBPC_FAST: [u8; 256] = [
    255, 255, 255, 14, 13, 11, 15, 15, 10, 10, 9, 9, 6, 6, 5, 5, 16, 16, 16, 16, 3, 3, 3, 3, 12,
    12, 12, 12, 12, 12, 12, 12, 2, 2, 2, 2, 2, 2, 2, 2, 2, 2, 2, 2, 2, 2, 2, 2, 1, 1, 1, 1, 1, 1,
    1, 1, 1, 1, 1, 1, 1, 1, 1, 1, 8, 8, 8, 8, 8, 8, 8, 8, 8, 8, 8, 8, 8, 8, 8, 8, 8, 8, 8, 8, 8, 8,
    8, 8, 8, 8, 8, 8, 8, 8, 8, 8, 4, 4, 4, 4, 4, 4, 4, 4, 4, 4, 4, 4, 4, 4, 4, 4, 4, 4, 4, 4, 4, 4,
    4, 4, 4, 4, 4, 4, 4, 4, 4, 4, 0, 0, 0, 0, 0, 0, 0, 0, 0, 0, 0, 0, 0, 0, 0, 0, 0, 0, 0, 0, 0, 0,
    0, 0, 0, 0, 0, 0, 0, 0, 0, 0, 0, 0, 0, 0, 0, 0, 0, 0, 0, 0, 0, 0, 0, 0, 0, 0, 0, 0, 0, 0, 0, 0,
    0, 0, 0, 0, 0, 0, 0, 0, 0, 0, 0, 0, 0, 0, 0, 0, 0, 0, 0, 0, 0, 0, 0, 0, 0, 0, 0, 0, 0, 0, 0, 0,
    0, 0, 0, 0, 0, 0, 0, 0, 0, 0, 0, 0, 0, 0, 0, 0, 0, 0, 0, 0, 0, 0, 0, 0, 0, 0, 0, 0, 0, 0, 0, 0,
    0, 0, 0, 0, 0, 0, 0, 0, 0, 0,
];

/// What each word of `INTER_MCBPC` stands for.
pub const INTER_MCBPC_SYMBOLS: [Mcbpc; 21] = [
    Mcbpc::Word {
        class: MbClass::Inter,
        cbpc: 0,
    },
    Mcbpc::Word {
        class: MbClass::Inter,
        cbpc: 1,
    },
    Mcbpc::Word {
        class: MbClass::Inter,
        cbpc: 2,
    },
    Mcbpc::Word {
        class: MbClass::Inter,
        cbpc: 3,
    },
    Mcbpc::Word {
        class: MbClass::InterQ,
        cbpc: 0,
    },
    Mcbpc::Word {
        class: MbClass::InterQ,
        cbpc: 1,
    },
    Mcbpc::Word {
        class: MbClass::InterQ,
        cbpc: 2,
    },
    Mcbpc::Word {
        class: MbClass::InterQ,
        cbpc: 3,
    },
    Mcbpc::Word {
        class: MbClass::Inter4,
        cbpc: 0,
    },
    Mcbpc::Word {
        class: MbClass::Inter4,
        cbpc: 1,
    },
    Mcbpc::Word {
        class: MbClass::Inter4,
        cbpc: 2,
    },
    Mcbpc::Word {
        class: MbClass::Inter4,
        cbpc: 3,
    },
    Mcbpc::Word {
        class: MbClass::Intra,
        cbpc: 0,
    },
    Mcbpc::Word {
        class: MbClass::Intra,
        cbpc: 1,
    },
    Mcbpc::Word {
        class: MbClass::Intra,
        cbpc: 2,
    },
    Mcbpc::Word {
        class: MbClass::Intra,
        cbpc: 3,
    },
    Mcbpc::Word {
        class: MbClass::IntraQ,
        cbpc: 0,
    },
    Mcbpc::Word {
        class: MbClass::IntraQ,
        cbpc: 1,
    },
    Mcbpc::Word {
        class: MbClass::IntraQ,
        cbpc: 2,
    },
    Mcbpc::Word {
        class: MbClass::IntraQ,
        cbpc: 3,
    },
    Mcbpc::Stuffing,
];

/// DQUANT: the words of the four steps (5.3.6).
pub const STEPS: [Code; 4] = [
    Code { bits: 0, len: 2 },
    Code { bits: 1, len: 2 },
    Code { bits: 2, len: 2 },
    Code { bits: 3, len: 2 },
];

/// By eight bits, the place of the word of `STEPS` that they begin with.
pub const STEPS_FAST: [u8; 256] = [
    0, 0, 0, 0, 0, 0, 0, 0, 0, 0, 0, 0, 0, 0, 0, 0, 0, 0, 0, 0, 0, 0, 0, 0, 0, 0, 0, 0, 0, 0, 0, 0,
    0, 0, 0, 0, 0, 0, 0, 0, 0, 0, 0, 0, 0, 0, 0, 0, 0, 0, 0, 0, 0, 0, 0, 0, 0, 0, 0, 0, 0, 0, 0, 0,
    1, 1, 1, 1, 1, 1, 1, 1, 1, 1, 1, 1, 1, 1, 1, 1, 1, 1, 1, 1, 1, 1, 1, 1, 1, 1, 1, 1, 1, 1, 1, 1,
    1, 1, 1, 1, 1, 1, 1, 1, 1, 1, 1, 1, 1, 1, 1, 1, 1, 1, 1, 1, 1, 1, 1, 1, 1, 1, 1, 1, 1, 1, 1, 1,
    2, 2, 2, 2, 2, 2, 2, 2, 2, 2, 2, 2, 2, 2, 2, 2, 2, 2, 2, 2, 2, 2, 2, 2, 2, 2, 2, 2, 2, 2, 2, 2,
    2, 2, 2, 2, 2, 2, 2, 2, 2, 2, 2, 2, 2, 2, 2, 2, 2, 2, 2, 2, 2, 2, 2, 2, 2, 2, 2, 2, 2, 2, 2, 2,
    3, 3, 3, 3, 3, 3, 3, 3, 3, 3, 3, 3, 3, 3, 3, 3, 3, 3, 3, 3, 3, 3, 3, 3, 3, 3, 3, 3, 3, 3, 3, 3,
    3, 3, 3, 3, 3, 3, 3, 3, 3, 3, 3, 3, 3, 3, 3, 3, 3, 3, 3, 3, 3, 3, 3, 3, 3, 3, 3, 3, 3, 3, 3, 3,
];

/// The step that each word of `STEPS` stands for.
pub const STEP_SYMBOLS: [i8; 4] = [-1, -2, 1, 2];

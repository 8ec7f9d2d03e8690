//! The files of rows of the syntax and of packets.
use crate::{
    back_messages_rows, block_layer_rows, code_tables_rows, h263_bits_rows, h263_payload_rows,
    h263_types_rows, macroblock_layer_rows, packet_collector_rows, packet_cutter_rows,
    packet_start_rows, payload_join_rows, picture_header_rows, rtp_header_rows, slice_layer_rows,
    slice_writer_rows,
};
use std::alloc::Global;
use test_fixtures::answer::{Answer, Asked};
use test_fixtures::rows::Answers;

/// A layer, and its file of rows.
#[derive(Clone, Copy)]
pub enum Syntax {
    H263Types,
    H263Bits,
    BackMessages,
    PictureHeader,
    CodeTables,
    BlockLayer,
    MacroblockLayer,
    SliceLayer,
    SliceWriter,
    RtpHeader,
    H263Payload,
    PacketCutter,
    PacketCollector,
    PacketStart,
    PayloadJoin,
}

/// All of them.
pub const SYNTAX: [Syntax; 15] = [
    Syntax::H263Types,
    Syntax::H263Bits,
    Syntax::BackMessages,
    Syntax::PictureHeader,
    Syntax::CodeTables,
    Syntax::BlockLayer,
    Syntax::MacroblockLayer,
    Syntax::SliceLayer,
    Syntax::SliceWriter,
    Syntax::RtpHeader,
    Syntax::H263Payload,
    Syntax::PacketCutter,
    Syntax::PacketCollector,
    Syntax::PacketStart,
    Syntax::PayloadJoin,
];

impl Answers for Syntax {
    fn file(&self) -> &'static str {
        match self {
            Syntax::H263Types => "h263_types.rows",
            Syntax::H263Bits => "h263_bits.rows",
            Syntax::BackMessages => "back_messages.rows",
            Syntax::PictureHeader => "picture_header.rows",
            Syntax::CodeTables => "code_tables.rows",
            Syntax::BlockLayer => "block_layer.rows",
            Syntax::MacroblockLayer => "macroblock_layer.rows",
            Syntax::SliceLayer => "slice_layer.rows",
            Syntax::SliceWriter => "slice_writer.rows",
            Syntax::RtpHeader => "rtp_header.rows",
            Syntax::H263Payload => "h263_payload.rows",
            Syntax::PacketCutter => "packet_cutter.rows",
            Syntax::PacketCollector => "packet_collector.rows",
            Syntax::PacketStart => "packet_start.rows",
            Syntax::PayloadJoin => "payload_join.rows",
        }
    }

    fn answer(&self, alloc: Global, call: &str, asked: &mut Asked<'_>, answer: &mut Answer) {
        match self {
            Syntax::H263Types => h263_types_rows::answer(call, asked, answer),
            Syntax::H263Bits => h263_bits_rows::answer(call, asked, answer),
            Syntax::BackMessages => back_messages_rows::answer(call, asked, answer),
            Syntax::PictureHeader => picture_header_rows::answer(call, asked, answer),
            Syntax::CodeTables => code_tables_rows::answer(call, asked, answer),
            Syntax::BlockLayer => block_layer_rows::answer(call, asked, answer),
            Syntax::MacroblockLayer => macroblock_layer_rows::answer(call, asked, answer),
            Syntax::SliceLayer => slice_layer_rows::answer(call, asked, answer),
            Syntax::SliceWriter => slice_writer_rows::answer(call, asked, answer),
            Syntax::RtpHeader => rtp_header_rows::answer(call, asked, answer),
            Syntax::H263Payload => h263_payload_rows::answer(call, asked, answer),
            Syntax::PacketCutter => packet_cutter_rows::answer(alloc, call, asked, answer),
            Syntax::PacketCollector => packet_collector_rows::answer(alloc, call, asked, answer),
            Syntax::PacketStart => packet_start_rows::answer(call, asked, answer),
            Syntax::PayloadJoin => payload_join_rows::answer(alloc, call, asked, answer),
        }
    }
}

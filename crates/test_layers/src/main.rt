//! Tests of the layers of a call over public calls alone, as rows of data: the syntax and packets,
//! pictures and the coder, and the ends, each by itself and joined by hand.
//!
//! Each file of rows speaks of the calls of one layer. What a call gives is printed as words and
//! bits and compared with what the row wants; a row that differs is printed with its line and what
//! came of it, and the program ends with status 1. `packets.rows` names bits for all of them.
#![tactic(auto)]

mod audit_rows;
mod back_messages_rows;
mod block_layer_rows;
mod call_rings_rows;
mod code_tables_rows;
mod coding;
mod duplex_call_rows;
mod duplex_ends_rows;
mod ends;
mod ends_rows;
mod h263_bits_rows;
mod h263_payload_rows;
mod h263_planes_rows;
mod h263_types_rows;
mod half_sample_rows;
mod headers;
mod idct8_rows;
mod lines;
mod macroblock_layer_rows;
mod make_input_rows;
mod mode_choice_rows;
mod motion_search_rows;
mod moving;
mod packet_collector_rows;
mod packet_cutter_rows;
mod packet_start_rows;
mod payload_join_rows;
mod picture_coder_rows;
mod picture_header_rows;
mod picture_recon_rows;
mod picture_store_rows;
mod pictures;
mod quantiser_rows;
mod rate_control_rows;
mod reference_selector_rows;
mod rtp_header_rows;
mod sad_kernel_rows;
mod samples;
mod sender_end_rows;
mod slice_layer_rows;
mod slice_writer_rows;
mod syntax;

use coding::CODING;
use ends::ENDS;
use std::fs;
use std::process::ExitCode;
use syntax::SYNTAX;
use test_fixtures::rows::{Answers, Rows};

// Takes the lines of a file. Answers whether it could be read.
fn take_file<L: Answers>(rt: &HostRuntime, rows: &mut Rows, layer: &L, name: &str) -> bool {
    match fs::read_to_string(rt, name) {
        Ok(text) => {
            rows.take_all(layer, text.as_str());
            true
        }
        Err(_) => false,
    }
}

// Runs the rows of a layer's file, and prints what came of them. Answers whether all are right.
fn run_rows<L: Answers>(rt: &HostRuntime, layer: &L) -> bool {
    let mut rows = Rows::new(rt.alloc());
    let named = take_file(rt, &mut rows, layer, "packets.rows");
    let read = take_file(rt, &mut rows, layer, layer.file());
    rows.end_test();
    let printed = print!(rt; "{}\n{}", layer.file(), rows.said).is_ok();
    named && read && rows.right && printed
}

// Runs the rows of each of these layers.
fn run_all<L: Answers>(rt: &HostRuntime, layers: &[L]) -> bool {
    let mut right = true;
    for layer in layers {
        right = run_rows(rt, layer) && right;
    }
    right
}

fn main(rt: HostRuntime) -> ExitCode {
    let syntax = run_all(&rt, &SYNTAX);
    let coding = run_all(&rt, &CODING);
    let ends = run_all(&rt, &ENDS);
    if syntax && coding && ends {
        ExitCode::SUCCESS
    } else {
        ExitCode::FAILURE
    }
}

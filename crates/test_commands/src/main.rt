//! Tests as rows of text: of commands, over a desk in memory and over the host's files, and of
//! files, words and reports.
//!
//! `data/list` names the files of rows. In each, a line `test NAME` begins a test; `each FIELDS` says
//! what every row after it has; `row FIELDS` is a row, which is run at once, over calls of a desk that
//! move each of the sizes of its field `by`, and once for each call of the desk in its field
//! `failing`, which then fails; `piece NAME: BYTES` names bytes for the lines after it. Of each test
//! the number of its rows and cases is printed, and of each row that isn't as it was wanted, where it
//! stands and what differs; the program then ends with status 1.
//!
//! A row that says `differs: KEY` is to differ there: it shows that a row can fail.
#![tactic(auto)]

mod by_hand;
mod calls;
mod case;
mod commands;
mod desks;
mod lent;
mod logs;
mod made;
mod outside;
mod pieces;
mod reports;
mod test;
mod traces;
mod videos;

use pieces::Pieces;
use std::fs;
use std::process::ExitCode;
use test::Run;

// Runs the rows of the files in a list. Whether each was as wanted.
fn run_files(rt: &HostRuntime, list: &str) -> bool {
    let mut pieces = Pieces::new(rt.alloc());
    let mut run = Run {
        place: 0,
        right: !list.is_empty(),
    };
    for file in list.lines() {
        run.file(rt, &mut pieces, file);
    }
    run.right
}

fn main(rt: HostRuntime) -> ExitCode {
    match fs::read_to_string(&rt, "list") {
        Ok(list) if run_files(&rt, list.as_str()) => ExitCode::SUCCESS,
        _ => ExitCode::FAILURE,
    }
}

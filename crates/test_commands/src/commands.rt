//! Runs of the program by their words, over a desk in memory and over the host's files.
use crate::case::{Case, Outcome};
use crate::desks::{compare_desk, compare_file, desk_of};
use h263_outside::HostDesk;
use h263rps_run::run;
use std::fs;

/// A run over a desk in memory: how it ends, and all that it writes.
pub fn run_words(case: &Case<'_>, out: &mut Outcome) {
    if let Some(mut desk) = desk_of(case, out) {
        let words = case.words(out);
        let ends = run(out.alloc, &words, &mut desk);
        out.say(&ends);
        case.compare_told("ends", out);
        compare_desk(case, &desk, out);
    }
}

// A file that is written before.
fn write_video(case: &Case<'_>, out: &mut Outcome) {
    let name = case.text("file");
    if !name.is_empty() {
        let video = case.bytes("video", out);
        if fs::write(case.rt, name, &video).is_err() {
            out.why = "a file that can't be written";
        }
    }
}

/// A run over the host's files, of which one is written before, and one read afterwards. The report
/// is on the standard output.
pub fn run_on_host(case: &Case<'_>, out: &mut Outcome) {
    write_video(case, out);
    if let Ok(host) = case.rt.clone() {
        let words = case.words(out);
        let mut desk = HostDesk::new(host);
        let ends = run(out.alloc, &words, &mut desk);
        out.say(&ends);
        case.compare_told("ends", out);
        compare_file(case, out);
    }
}

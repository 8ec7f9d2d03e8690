//! The lines of a file of rows.
use crate::calls::{Call, call_of, run_case};
use crate::case::{Case, Outcome, field};
use crate::pieces::Pieces;
use std::fs;

// A test so far: its name, what each of its rows has, and how many rows and cases it had.
#[derive(Clone, Copy)]
struct Test<'a> {
    name: &'a str,
    each: &'a str,
    rows: u64,
    cases: u64,
}

/// A run of files: the number of the line, and whether all so far was as wanted.
#[derive(Clone, Copy)]
pub struct Run {
    pub place: u64,
    pub right: bool,
}

// A number of calls that no run makes.
const NEVER: &str = "18446744073709551615";

impl Run {
    // Says what is wrong with a line.
    fn complain(&mut self, rt: &HostRuntime, what: &str) {
        self.right = false;
        let _said = println!(rt; "line {}: {what}", self.place);
    }

    // Says where a case differs that was to be as it is wanted.
    fn complain_of(&mut self, case: &Case<'_>, out: &Outcome) {
        self.complain(case.rt, out.differs);
        let _said = println!(case.rt;
            "  byte {}, by {}, call {}",
            out.at, case.size, case.failing
        );
    }

    fn run_one(&mut self, call: Call, case: &Case<'_>) {
        let mut out = Outcome::new(case.rt.alloc());
        run_case(call, case, &mut out);
        if !out.compared || !out.why.is_empty() {
            self.complain(case.rt, out.why);
        }
        if out.differs != case.text("differs") {
            self.complain_of(case, &out);
        }
    }

    // The cases of a row, by the calls that fail. How many there are.
    fn run_each(&mut self, call: Call, case: &mut Case<'_>) -> u64 {
        let mut cases = 0u64;
        for failing in field(case.own, case.each, "failing", NEVER).split_whitespace() {
            case.failing = failing.parse::<u64>().unwrap_or(0);
            self.run_one(call, case);
            cases = cases.saturating_add(1);
        }
        cases
    }

    // The cases of a row, by the bytes that one call moves. How many there are.
    fn run_row(&mut self, case: &mut Case<'_>) -> u64 {
        let mut cases = 0u64;
        if let Some(call) = call_of(case.own, case.each) {
            for size in field(case.own, case.each, "by", "4096").split_whitespace() {
                case.size = size.parse::<usize>().unwrap_or(0);
                cases = cases.saturating_add(self.run_each(call, case));
            }
        }
        cases
    }

    fn row(&mut self, rt: &HostRuntime, pieces: &Pieces, test: &mut Test<'_>, own: &str) {
        let mut case = Case {
            rt,
            pieces,
            own,
            each: test.each,
            size: 0,
            failing: 0,
        };
        let cases = self.run_row(&mut case);
        if cases == 0 || test.name.is_empty() {
            self.complain(rt, "no case, no test, or a key that its call hasn't");
        }
        test.rows = test.rows.saturating_add(1);
        test.cases = test.cases.saturating_add(cases);
    }

    // Adds a piece, `NAME: BYTES`.
    fn piece(&mut self, rt: &HostRuntime, pieces: &mut Pieces, line: &str) {
        let (name, value) = line.split_once(": ").unwrap_or((line, ""));
        let spelled = pieces.spell(rt, value);
        if spelled.wrong || !pieces.push(rt.alloc(), name, spelled.bytes) {
            self.complain(rt, "a piece that spells no bytes");
        }
    }

    // Tells of a test that ends.
    fn end(&mut self, rt: &HostRuntime, test: &Test<'_>) {
        if test.rows == 0 {
            self.complain(rt, "a test without rows before it");
        }
        let _said = println!(rt; "{}: {} rows, {} cases", test.name, test.rows, test.cases);
    }

    fn begin<'a>(&mut self, rt: &HostRuntime, test: &mut Test<'a>, name: &'a str) {
        if !test.name.is_empty() {
            self.end(rt, test);
        }
        test.name = name;
        test.each = "";
        test.rows = 0;
        test.cases = 0;
    }

    // Does what a line says.
    fn take<'a>(
        &mut self,
        rt: &HostRuntime,
        pieces: &mut Pieces,
        test: &mut Test<'a>,
        line: &'a str,
    ) {
        let (word, rest) = line.split_once(' ').unwrap_or((line, ""));
        match word {
            "" | "#" => {}
            "piece" => self.piece(rt, pieces, rest),
            "test" => self.begin(rt, test, rest),
            "each" => test.each = rest,
            "row" => self.row(rt, pieces, test, rest),
            _ => self.complain(rt, "a line that isn't one"),
        }
    }

    fn lines(&mut self, rt: &HostRuntime, pieces: &mut Pieces, text: &str) {
        let mut test = Test {
            name: "",
            each: "",
            rows: 0,
            cases: 0,
        };
        for line in text.lines() {
            self.place = self.place.saturating_add(1);
            self.take(rt, pieces, &mut test, line);
        }
        self.end(rt, &test);
    }

    /// Runs the rows of a file.
    pub fn file(&mut self, rt: &HostRuntime, pieces: &mut Pieces, name: &str) {
        self.place = 0;
        match fs::read_to_string(rt, name) {
            Ok(text) => self.lines(rt, pieces, text.as_str()),
            Err(_) => self.complain(rt, "a file that can't be read"),
        }
        if !self.right {
            let _said = println!(rt; "not all as wanted up to {name}");
        }
    }
}

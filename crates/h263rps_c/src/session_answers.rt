//! The answers of a session as C has them. `specs/SessionNumbers` has the numbers.
ghost use Rattle.std.specs.Prelude.{◌≡◌};
ghost use Rattle.h263rps_c.specs.SessionNumbers as numbers;

use crate::answers::Answer;
use call_session::{Arrived, Cause, Counts, Nack, RunPlayed, Taken, Verdict};
use stream_choice::Run;
use stream_run::Arrived as RunAnswer;

/// A session's answer to a datagram.
#[repr(C)]
#[derive(Clone, Copy)]
pub struct CArrived {
    /// 0 dropped, 1 without a place, 2 ahead, 3 heard.
    pub verdict: u32,
    /// Why it is dropped, else 0.
    pub cause: u32,
    /// The run that took it, else 0.
    pub run: u32,
    /// The SSRC of the stream of that run, else 0.
    pub source: u32,
    /// The number of a picture that is ahead, else 0.
    pub ahead: u32,
    /// 1 where it is told that another stream comes beside a live one, else 0.
    pub rival: u32,
    /// The receiver's answer where it is heard, else all zeros.
    pub answer: Answer,
}

/// A session's answer to a play.
#[repr(C)]
#[derive(Clone, Copy)]
pub struct CTurn {
    /// 1 where a picture was played; else all is 0.
    pub plays: u32,
    /// The run whose picture it is.
    pub run: u32,
    /// The SSRC of its stream.
    pub source: u32,
    pub answer: Answer,
}

/// Packets that a session asks for again.
#[repr(C)]
#[derive(Clone, Copy)]
pub struct CNack {
    /// 1 where something is asked for; else all is 0.
    pub asks: u32,
    /// The sequence number of a packet.
    pub packet: u16,
    /// A bit for each of the 16 after it, from the least significant one on.
    pub following: u16,
}

/// What a session has counted since its start.
#[repr(C)]
#[derive(Clone, Copy)]
pub struct CCounts {
    /// The datagrams that a run took.
    pub taken: u64,
    /// The others, by their cause; the first place is 0.
    pub dropped: [u64; 6],
    /// The pictures of the streams that were followed, by their mark.
    pub played: [u64; 3],
}

/// The number of a run.
pub fn run_number(run: Run) -> u32
    ensures { result ≡ numbers.run_number run }
{
    match run {
        Run::Followed => 0,
        Run::Former => 1,
        Run::Tried => 2,
    }
}

/// The run of a number.
pub fn run_of(number: u32) -> Option<Run>
    ensures { result ≡ numbers.run_in number }
{
    match number {
        0 => Some(Run::Followed),
        1 => Some(Run::Former),
        2 => Some(Run::Tried),
        _ => None,
    }
}

fn cause_number(cause: Cause) -> u32
    ensures { result ≡ numbers.cause_number cause }
{
    match cause {
        Cause::Long => 1,
        Cause::Malformed => 2,
        Cause::OtherPictures => 3,
        Cause::TooFast => 4,
        Cause::OtherStream => 5,
    }
}

// What a run says of a packet.
fn verdict_number(answer: &RunAnswer) -> u32
    ensures { result ≡ numbers.verdict_number answer.now }
{
    match answer {
        RunAnswer::NoPlace => 1,
        RunAnswer::Ahead(_) => 2,
        RunAnswer::Heard(_) => 3,
    }
}

fn ahead_of(answer: &RunAnswer) -> u32
    ensures { result ≡ numbers.number_ahead answer.now }
{
    match answer {
        RunAnswer::NoPlace => 0,
        RunAnswer::Ahead(number) => *number,
        RunAnswer::Heard(_) => 0,
    }
}

// The receiver's answer, if the packet is heard.
fn heard_in(answer: &RunAnswer) -> Answer
    ensures { result ≡ numbers.answer_arrived answer.now }
{
    match answer {
        RunAnswer::NoPlace => Answer::plain(0),
        RunAnswer::Ahead(_) => Answer::plain(0),
        RunAnswer::Heard(heard) => Answer::heard(heard),
    }
}

// 1 where it is so.
fn bit(is_so: bool) -> u32
    ensures { result ≡ numbers.bit is_so }
{
    if is_so { 1 } else { 0 }
}

impl CArrived {
    fn dropped(cause: Cause, rival: u32) -> CArrived
        ensures { result ≡ numbers.dropped_numbers cause rival }
    {
        CArrived {
            verdict: 0,
            cause: cause_number(cause),
            run: 0,
            source: 0,
            ahead: 0,
            rival,
            answer: Answer::plain(0),
        }
    }

    fn taken(taken: &Taken, rival: u32) -> CArrived
        ensures { result ≡ numbers.taken_numbers taken.now rival }
    {
        CArrived {
            verdict: verdict_number(&taken.answer),
            cause: 0,
            run: run_number(taken.run),
            source: taken.source,
            ahead: ahead_of(&taken.answer),
            rival,
            answer: heard_in(&taken.answer),
        }
    }

    /// The answer to a datagram.
    pub fn of(arrived: &Arrived) -> CArrived
        ensures { result ≡ numbers.arrived_numbers arrived.now }
    {
        let rival = bit(arrived.is_rival);
        match &arrived.verdict {
            Verdict::Dropped(cause) => CArrived::dropped(*cause, rival),
            Verdict::Taken(taken) => CArrived::taken(taken, rival),
        }
    }
}

impl CTurn {
    /// None was due.
    pub fn none() -> CTurn
        ensures { result ≡ numbers.no_turn }
    {
        CTurn {
            plays: 0,
            run: 0,
            source: 0,
            answer: Answer::plain(0),
        }
    }

    /// The answer to a play of a stream with this SSRC.
    pub fn of(turn: &RunPlayed, source: u32) -> CTurn
        ensures { result ≡ numbers.turn_numbers turn.now source }
    {
        CTurn {
            plays: 1,
            run: run_number(turn.run),
            source,
            answer: Answer::played(&turn.played),
        }
    }
}

impl CNack {
    /// What is asked for, if anything is.
    pub fn of(nack: Option<Nack>) -> CNack
        ensures { result ≡ numbers.nack_numbers nack }
    {
        match nack {
            None => CNack {
                asks: 0,
                packet: 0,
                following: 0,
            },
            Some(nack) => CNack {
                asks: 1,
                packet: nack.packet,
                following: nack.following,
            },
        }
    }
}

impl CCounts {
    /// What was counted.
    pub fn of(counts: &Counts) -> CCounts
        ensures { result ≡ numbers.counts_numbers counts.now }
    {
        CCounts {
            taken: counts.taken,
            dropped: [
                0,
                counts.long,
                counts.malformed,
                counts.other_pictures,
                counts.too_fast,
                counts.other_stream,
            ],
            played: [counts.exact, counts.patched, counts.held],
        }
    }
}

//! Sessions in made time.
ghost use Rattle.std.specs.Prelude.{◌≤◌, length};
ghost use Rattle.call_session.specs.Whole.{IsSession};

use crate::halves::{FIRST_HALF, SECOND_HALF};
use call_session::{Cause, Nack, Session, SettingFault, Settings, Verdict};
use h263_types::{Format, Mark, Params};
use std::process::Abort;
use std::test::Fail;
use stream_choice::Run;
use test_fixtures::codec::FLAT_PACKET;

const MILLISECOND: u64 = 1_000_000;

const WAIT: u64 = 100 * MILLISECOND;

// Gives a packet its SSRC, its picture's number, its own, and its timestamp.
fn put_numbers(bytes: &mut [u8], source: u8, number: u32, sequence: u32, timestamp: u32)
    requires { 16 ≤ length bytes.old }
{
    bytes[2..4].copy_from_slice(&((sequence % 65_536) as u16).to_be_bytes());
    bytes[4..8].copy_from_slice(&timestamp.to_be_bytes());
    bytes[11] = source;
    bytes[14] = 0x80 | (number % 256 / 64) as u8;
    bytes[15] = 2 | (number % 64 * 4) as u8;
}

// A picture of one packet, at 30,000 in 1,001 seconds.
fn flat(source: u8, number: u32) -> [u8; 342] {
    let mut bytes = FLAT_PACKET;
    put_numbers(
        &mut bytes,
        source,
        number,
        number,
        number.wrapping_mul(3_003),
    );
    bytes
}

// The pictures that are due by then are played. Answers how many of those from this one on were
// exact.
fn play_all(session: &mut Session, now: u64, from: u32) -> u32
    requires { IsSession session.old }
    ensures { IsSession session.new }
{
    let mut exact = 0u32;
    'plays: for _ in 0..8 {
        match session.play(now) {
            None => break,
            Some(shown) => {
                if shown.played.number >= from && shown.played.mark == Mark::Exact {
                    exact = exact.saturating_add(1);
                }
            }
        }
    }
    exact
}

// More pictures in the wait than the lead of three, or a rate that there isn't.
#[test]
fn starts_that_are_refused(rt: HostRuntime) {
    let params = Params::of(Format::SubQcif);
    let table: [(u32, u32, u64, SettingFault); 5] = [
        (30_000, 1_001, 101, SettingFault::Lead),
        (0, 1, 100, SettingFault::Rate),
        (65_537, 4_096, 100, SettingFault::Rate),
        (30, 0, 100, SettingFault::Rate),
        (30, 4_097, 100, SettingFault::Rate),
    ];
    for (rate, second, wait, fault) in table {
        let answer = Settings::new(&params, rate, second, wait % 1_000 * MILLISECOND);
        assert!(rt; answer == Err(fault));
    }
}

// What can be no packet of the call's pictures is dropped, with its cause.
#[test]
fn datagrams_that_are_no_packets(rt: HostRuntime) -> Result<(), Fail> {
    let params = Params::of(Format::Qcif);
    let settings = Settings::new(&params, 30_000, 1_001, WAIT)?;
    let long = vec![in rt.alloc(); 0u8; 9_001]?;
    let mut session = Session::start(rt.alloc(), &settings)?;
    let short = session.arrival(&[0x80; 11], 0);
    let far = session.arrival(&long, 1);
    let other = session.arrival(&FLAT_PACKET, 2);
    let due = session.due();
    let counts = session.statistics();
    session.finish();
    assert!(rt; matches!(short.verdict, Verdict::Dropped(Cause::Malformed)));
    assert!(rt; matches!(far.verdict, Verdict::Dropped(Cause::Long)));
    assert!(rt; matches!(other.verdict, Verdict::Dropped(Cause::OtherPictures)));
    assert!(rt; due.is_none());
    assert!(rt; (counts.malformed, counts.long, counts.other_pictures) == (1, 1, 1));
    Ok(())
}

// When a picture was captured.
fn captured_at(number: u32) -> u64
    ensures { result ≤ 4000000000 }
{
    number as u64 % 100 * 100_100_000 / 3
}

// A picture comes after 30 milliseconds.
fn come(session: &mut Session, number: u32)
    requires { IsSession session.old }
    ensures { IsSession session.new }
{
    let _heard = session.arrival(&flat(7, number), captured_at(number) + 30 * MILLISECOND);
}

// Whether one picture is played at this one's time of capture, the way, and the wait, and none two
// nanoseconds before.
fn is_in_time(session: &mut Session, number: u32) -> bool
    requires { IsSession session.old }
    ensures { IsSession session.new }
{
    let captured = captured_at(number);
    let early = play_all(session, captured + 130 * MILLISECOND - 2, 0);
    let exact = play_all(session, captured + 130 * MILLISECOND + 2, number);
    early == 0 && exact == 1
}

// Forty pictures, of which three came before the first one is due.
#[test]
fn pictures_in_time(rt: HostRuntime) -> Result<(), Fail> {
    let params = Params::of(Format::SubQcif);
    let settings = Settings::new(&params, 30_000, 1_001, WAIT)?;
    let mut session = Session::start(rt.alloc(), &settings)?;
    come(&mut session, 0);
    come(&mut session, 1);
    come(&mut session, 2);
    let mut in_time = 0u32;
    'pictures: for number in 0..40u32 {
        if is_in_time(&mut session, number) {
            in_time = in_time.saturating_add(1);
        }
        come(&mut session, number + 3);
    }
    let counts = session.statistics();
    session.finish();
    assert!(rt; in_time == 40);
    assert!(rt; (counts.taken, counts.exact, counts.held) == (43, 40, 0));
    Ok(())
}

// A stranger beside a stream that is live is dropped, and told of once a second. The stream that is
// followed stays.
#[test]
fn stranger_beside_a_stream(rt: HostRuntime) -> Result<(), Fail> {
    let params = Params::of(Format::SubQcif);
    let settings = Settings::new(&params, 30_000, 1_001, WAIT)?;
    let mut session = Session::start(rt.alloc(), &settings)?;
    let _first = session.arrival(&flat(7, 0), 0);
    let stranger = session.arrival(&flat(9, 0), 100 * MILLISECOND);
    let again = session.arrival(&flat(9, 1), 200 * MILLISECOND);
    let _second = session.arrival(&flat(7, 1), 450 * MILLISECOND);
    let _third = session.arrival(&flat(7, 2), 900 * MILLISECOND);
    let later = session.arrival(&flat(9, 2), 1_100 * MILLISECOND);
    let source = session.source(Run::Followed);
    let counts = session.statistics();
    session.finish();
    assert!(rt; matches!(stranger.verdict, Verdict::Dropped(Cause::OtherStream)));
    let told = (stranger.is_rival, again.is_rival, later.is_rival);
    assert!(rt; told == (true, false, true));
    assert!(rt; source == Some(0x4832_3607));
    assert!(rt; (counts.taken, counts.other_stream) == (3, 3));
    Ok(())
}

// Of one stream 12,000 packets are looked at in a second, and one more in the next.
#[test]
fn packets_too_fast(rt: HostRuntime) -> Result<(), Fail> {
    let params = Params::of(Format::SubQcif);
    let settings = Settings::new(&params, 30_000, 1_001, WAIT)?;
    let mut session = Session::start(rt.alloc(), &settings)?;
    let _first = session.arrival(&FLAT_PACKET, 0);
    'packets: for _ in 0..12_000 {
        let _again = session.arrival(&FLAT_PACKET, MILLISECOND);
    }
    let over = session.arrival(&FLAT_PACKET, 999 * MILLISECOND);
    let next = session.arrival(&FLAT_PACKET, 1_000 * MILLISECOND);
    let counts = session.statistics();
    session.finish();
    assert!(rt; matches!(over.verdict, Verdict::Dropped(Cause::TooFast)));
    assert!(rt; matches!(next.verdict, Verdict::Taken(_)));
    assert!(rt; (counts.taken, counts.too_fast) == (12_002, 1));
    Ok(())
}

// A way that gets longer: pictures a second; the milliseconds of the way before and after the step,
// which comes after five seconds, of the wait, and between a picture's two packets; and the ticks by
// which the timestamp of a packet is ahead then.
#[derive(Clone, Copy)]
struct Step {
    rate: u32,
    before: u64,
    after: u64,
    wait: u64,
    apart: u64,
    leap: u32,
}

// When a picture's first packet comes.
fn comes_at(step: &Step, number: u32) -> u64
    requires { 1 ≤ step.now.rate }
    ensures { result ≤ 200000000000 }
{
    let captured = number as u64 * 1_000 / step.rate as u64 % 100_000;
    let way = if captured < 5_000 {
        step.before
    } else {
        step.after
    };
    (captured + way % 1_000) * MILLISECOND
}

// How many pictures of fifteen seconds were exact from two seconds after the step on.
fn exact_after(session: &mut Session, step: &Step) -> u32
    requires session { IsSession session.old }
    requires low { 1 ≤ step.now.rate }
    requires high { step.now.rate ≤ 30 }
    ensures { IsSession session.new }
{
    let mut exact = 0u32;
    let from = step.rate * 7;
    'pictures: for number in 0..step.rate * 15 {
        let mut first = FIRST_HALF;
        let mut second = SECOND_HALF;
        let timestamp = number.wrapping_mul(90_000 / step.rate);
        let leap = if number == step.rate * 5 {
            step.leap
        } else {
            0
        };
        put_numbers(
            &mut first,
            7,
            number,
            number * 2,
            timestamp.wrapping_add(leap),
        );
        put_numbers(&mut second, 7, number, number * 2 + 1, timestamp);
        let at = comes_at(step, number);
        let then = at + step.apart % 1_000 * MILLISECOND;
        exact = exact.saturating_add(play_all(session, at, from));
        let _first = session.arrival(&first, at);
        exact = exact.saturating_add(play_all(session, then, from));
        let _second = session.arrival(&second, then);
    }
    exact.saturating_add(play_all(session, 20_000 * MILLISECOND, from))
}

// Of a call over this way, how many pictures were exact from two seconds after the step on.
fn exact_of(rt: &HostRuntime, step: &Step) -> Result<u32, Fail>
    requires low { 1 ≤ step.now.rate }
    requires high { step.now.rate ≤ 30 }
{
    let params = Params::of(Format::SubQcif);
    let settings = Settings::new(&params, step.rate, 1, step.wait % 1_000 * MILLISECOND)?;
    let mut session = Session::start(rt.alloc(), &settings)?;
    let exact = exact_after(&mut session, step);
    session.finish();
    Ok(exact)
}

const STEPS: [Step; 5] = [
    Step {
        rate: 5,
        before: 30,
        after: 200,
        wait: 100,
        apart: 10,
        leap: 0,
    },
    Step {
        rate: 1,
        before: 30,
        after: 280,
        wait: 100,
        apart: 10,
        leap: 0,
    },
    Step {
        rate: 10,
        before: 30,
        after: 280,
        wait: 100,
        apart: 10,
        leap: 0,
    },
    Step {
        rate: 5,
        before: 30,
        after: 280,
        wait: 0,
        apart: 0,
        leap: 0,
    },
    Step {
        rate: 30,
        before: 30,
        after: 30,
        wait: 100,
        apart: 10,
        leap: 171_000,
    },
];

// A call is whole again within two seconds after its way got longer, or after one packet's timestamp
// was ahead by 1.9 seconds.
#[test]
fn whole_again_after_a_step(rt: HostRuntime) -> Result<(), Fail> {
    for step in STEPS {
        assert!(rt; step.rate >= 1 && step.rate <= 30);
        let exact = exact_of(&rt, &step)?;
        assert!(rt; exact == step.rate * 8);
    }
    Ok(())
}

// Of ten pictures the fourth one's packet is lost. It is asked for once the fifth one's has come, comes
// again a round trip later, and all are exact.
#[test]
fn lost_packet_comes_again(rt: HostRuntime) -> Result<(), Fail> {
    let params = Params::of(Format::SubQcif);
    let settings = Settings::new(&params, 30_000, 1_001, WAIT)?;
    let mut session = Session::start(rt.alloc(), &settings)?;
    let round_trip = 50 * MILLISECOND;
    let nothing = session.missing(round_trip, 0);
    let mut exact = 0u32;
    'early: for number in [0u32, 1, 2, 4] {
        exact = exact.saturating_add(play_all(&mut session, captured_at(number), 0));
        come(&mut session, number);
    }
    let then = captured_at(4) + 30 * MILLISECOND;
    exact = exact.saturating_add(play_all(&mut session, then, 0));
    let too_late = session.missing(150 * MILLISECOND, then);
    let asked = session.missing(round_trip, then);
    let all_told = session.missing(round_trip, then);
    let _repeat = session.arrival(&flat(7, 3), then + round_trip);
    'later: for number in 5..10u32 {
        exact = exact.saturating_add(play_all(&mut session, captured_at(number), 0));
        come(&mut session, number);
    }
    let all_there = session.missing(round_trip, captured_at(9) + 30 * MILLISECOND);
    exact = exact.saturating_add(play_all(&mut session, captured_at(20), 0));
    session.finish();
    assert!(rt; (nothing, too_late, all_told, all_there) == (None, None, None, None));
    assert!(rt;
        asked
            == Some(Nack {
                packet: 3,
                following: 0
            })
    );
    assert!(rt; exact == 10);
    Ok(())
}

// A stream that has ended makes way at once for another. An end of another stream changes nothing.
#[test]
fn end_of_a_stream(rt: HostRuntime) -> Result<(), Fail> {
    let params = Params::of(Format::SubQcif);
    let settings = Settings::new(&params, 30_000, 1_001, WAIT)?;
    let mut session = Session::start(rt.alloc(), &settings)?;
    let _first = session.arrival(&flat(7, 0), 1_000 * MILLISECOND);
    session.bye(0x4832_3609, 1_001 * MILLISECOND);
    let stranger = session.arrival(&flat(9, 0), 1_002 * MILLISECOND);
    session.bye(0x4832_3607, 1_003 * MILLISECOND);
    let still = session.source(Run::Followed);
    let other = session.arrival(&flat(9, 0), 1_004 * MILLISECOND);
    let now = session.source(Run::Followed);
    session.finish();
    assert!(rt; matches!(stranger.verdict, Verdict::Dropped(Cause::OtherStream)));
    assert!(rt; matches!(other.verdict, Verdict::Taken(_)));
    assert!(rt; (still, now) == (Some(0x4832_3607), Some(0x4832_3609)));
    Ok(())
}

// A call that begins anew follows whoever comes first. What was counted stays.
#[test]
fn call_begins_anew(rt: HostRuntime) -> Result<(), Fail> {
    let params = Params::of(Format::SubQcif);
    let settings = Settings::new(&params, 30_000, 1_001, WAIT)?;
    let mut session = Session::start(rt.alloc(), &settings)?;
    let _first = session.arrival(&flat(7, 40), 1_000 * MILLISECOND);
    session.reset(1_001 * MILLISECOND);
    let nobody = session.source(Run::Followed);
    let due = session.due();
    let other = session.arrival(&flat(9, 2), 1_002 * MILLISECOND);
    let now = session.source(Run::Followed);
    let counts = session.statistics();
    session.finish();
    assert!(rt; (nobody, due) == (None, None));
    assert!(rt; matches!(other.verdict, Verdict::Taken(_)));
    assert!(rt; (now, counts.taken) == (Some(0x4832_3609), 2));
    Ok(())
}

// Where packets of one stream alone are looked at, another's is dropped, also before there is one.
#[test]
fn packets_of_one_stream(rt: HostRuntime) -> Result<(), Fail> {
    let params = Params::of(Format::SubQcif);
    let settings = Settings::new(&params, 30_000, 1_001, WAIT)?;
    let mut session = Session::start(rt.alloc(), &settings)?;
    let other = session.arrival_of(0x4832_3607, &flat(9, 0), 0);
    let own = session.arrival_of(0x4832_3607, &flat(7, 0), 1);
    let source = session.source(Run::Followed);
    session.finish();
    assert!(rt; matches!(other.verdict, Verdict::Dropped(Cause::OtherStream)));
    assert!(rt; matches!(own.verdict, Verdict::Taken(_)));
    assert!(rt; source == Some(0x4832_3607));
    Ok(())
}

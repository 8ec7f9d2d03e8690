//! The rate that a line carries, by what the messages of the other side tell: Google's congestion
//! control for a sender whose messages name pictures, in whole numbers.
//!
//! A [`Follower`] is told of each picture that goes out and of each message that comes back. It says
//! how many bytes the next picture may have, and whether a frame is to be left out. Times are
//! nanoseconds of one clock, rates bytes a second. No memory is taken; the longest call is one with a
//! message, which looks at 256 kept pictures.
//!
//! ```rust
//! let mut follower = Follower::start(&bounds, 0);
//! follower.sent(0, 1_800, 2, 0);
//! follower.told(0, true, 20_000_000);
//! assert_eq!(rt; follower.rate(), 18_000);
//! ```
//!
//! # Decisions
//!
//! - **A rise is judged by medians.** The newest four of twelve round trips are held against the
//!   oldest four, in the place of a line of least squares with its error: one outlier changes
//!   neither, and no root is taken. The newest are to grow: a large picture's queue drains.
//! - **What a picture's own bytes take is taken off at the present rate**, for all twelve at the
//!   same one: a rate that grows is no rise.
//! - **Growth is a share of the time**, 223 thousandths a second for a quarter, and 49 for a
//!   twentieth. It ends at 1.5 times what came.
//! - **TCP's rate is compared and never computed.** So losses may take a rate below it, by half of
//!   their share at the most.
//! - **A frame waits for what isn't told yet**: once a picture is out by 150 ms longer than the newest
//!   round trip, and nothing was told of it or of a later one, but 200 ms at the most. A line that got
//!   slower is filled no further before the first message says so.
//! - **Three late pictures choke a line**: 50 ms above the least round trip, and each later than the one
//!   before by more than half of the time between them, while less than half of the rate comes whole.
//!   It is cut where a picture isn't whole, so that one late message shrinks no rate.
//! - **The quantiser rises with the fall of the rate**, and what waits on a full line is owed: else the
//!   first pictures fill it again. So after a step from 1,000 to 200 kbit/s no queue of 150 ms stands
//!   two seconds later: at each of 72 moments over real ends and of 324 over a model of them, with
//!   queues of 100 to 500 ms and ways of 10 to 75, after 1.8 s at the latest.
//! - **Three and not two**, since a burst of losses looks like two late pictures: with 5 % lost in
//!   bursts of five packets 500 kbit/s of a model carry 370 in the mean of 400 calls (382 without
//!   these rules, 348 with two), and beside TCP on 2,000 kbit/s it has 650 (634 without).
//! - **What is left of a rate where most packets are lost is two or three eighths**, by a table.
#![tactic(auto)]

mod debt;
mod drain;
mod follower;
mod four;
mod lateness;
mod latest;
pub mod laws;
mod least_trip;
mod line;
mod losses;
mod pace;
mod picture;
mod search;
mod sizes;
mod table;
mod threshold;
mod trend;
mod trips;

pub use follower::Follower;
pub use pace::Bounds;

//! Tests of a session, from its parts up; of a group: three receivers by hand, and three real ones
//! that lose different pictures; and of its call, of two.
#![tactic(auto)]

#[cfg(test)]
mod by_hand_tests;
#[cfg(test)]
mod call_session_tests;
#[cfg(test)]
mod called_tests;
#[cfg(test)]
mod halves;
#[cfg(test)]
mod line_follower_tests;
#[cfg(test)]
mod packet_gaps_tests;
#[cfg(test)]
mod packet_repeats_tests;
#[cfg(test)]
mod picture_pace_tests;
#[cfg(test)]
mod playout_times_tests;
#[cfg(test)]
mod receivers_tests;
#[cfg(test)]
mod stream_choice_tests;
#[cfg(test)]
mod stream_numbers_tests;
#[cfg(test)]
mod stream_run_tests;

//! Laws of sessions, over the definitions alone.
ghost use Rattle.session_laws.specs.AskingAgain.{AskedByName, AskedInTime, AskedTwice};
ghost use Rattle.session_laws.specs.Bounded.{FewAreTaken, NeverAhead, PlaysAreDue, RunsWait};
ghost use Rattle.session_laws.specs.InTime.{GivenInTime, RunsAreInTime, OfOneSender};
ghost use Rattle.session_laws.specs.Recovering.{DueAgain, EachCounts, FollowedAgain};
ghost use Rattle.session_laws.specs.Recovering.{HeardAgain, NeverShutOut};
ghost use Rattle.session_laws.specs.Undisturbed.{Undisturbed, UndisturbedFirst};

use call_decoding::laws::are_rules;
use call_decoding::{Pictured, Styled};
use h263_bits::Fault;
use h263_types::Mb;
use receiver_end::laws::is_decoding;

/// What others send, ends of other streams too, changes nothing of a followed stream of which a picture
/// is complete every half second: what is said of its packets, what is played of it, and which of its
/// packets are asked for, is as without them (`any`). Where no former stream is kept, that is asked of
/// its own packets alone (`first`). Not said: anything of packets or ends that are forged with its own
/// SSRC, or of packets that come between two pictures that are further apart; how packets are counted;
/// and how much time others' packets cost.
pub fn undisturbed()
    ensures any { Undisturbed }
    ensures first { UndisturbedFirst }
{}

/// In no second more than 36,000 packets are given to runs. Not said: that a packet costs no more
/// than another, and how many datagrams are read that no run is given.
pub fn few_taken()
    ensures { FewAreTaken }
{
    stream_choice::laws::never_more();
}

/// Each play is of a picture that is due, and of which a packet came, or of a later one; and there is
/// one at most for each turn. Not said: that turns come when pictures are due.
pub fn plays_are_due()
    ensures { PlaysAreDue }
{}

/// From the third picture on, whatever came before, a picture is played after its packets, as long as
/// none takes longer than the shortest way and the wait, and none that came is more than the lead
/// after it. Not said: that they are heard, which needs their numbers to be right.
pub fn plays_wait()
    ensures { RunsWait }
{
    playout_times::laws::in_time();
}

/// The numbers of a run go on by no more pictures than are captured in the time that goes by, a
/// tenth more, and two seconds. Not said: how often a run begins anew.
pub fn never_ahead()
    ensures { NeverAhead }
{
    stream_numbers::laws::never_ahead();
}

/// Once no packet was taken for a second and a half, the next packet of any stream is taken, unless
/// the second's packets were taken before. Not said: that its stream completes a picture.
pub fn never_shut_out()
    ensures { NeverShutOut }
{
    stream_choice::laws::never_shut_out();
}

/// Half a second after the last packet of others, a stream is followed with its next complete picture,
/// whatever came before, and however many pictures others had. Not said: when a picture of it is
/// complete, which hangs on its packets.
pub fn followed_again()
    ensures { FollowedAgain }
{}

/// Of thirty-one packets in a row of a run, over a second or longer, one is heard, or one begins the
/// run anew, and that one's picture is open. Not said: that the receiver takes it, which hangs on the
/// pictures to which it refers.
pub fn heard_again()
    ensures { HeardAgain }
{}

/// Each packet that has a place counts on the ways of its run, also one that is late (`counts`). So
/// once three pictures came, whatever came before, the next is due after its capture by a way of
/// theirs and the wait (`due`). Not said: that ways are as the sender's clock says, if it lies.
pub fn recovers()
    ensures counts { EachCounts }
    ensures due { DueAgain }
{
    playout_times::laws::recovers();
}

/// What comes of a picture by its number before its play is given to the receiver before that.
/// Not said: that the number is the one that the sender meant.
pub fn given_in_time()
    ensures { GivenInTime }
{}

/// Let a run's receiver be given what that of a near call of a sender is given whose pictures are
/// sound (`given`); or let all packets that the run takes be those of such a sender, each with the
/// number of its picture as its place (`sender`). A picture of which all packets came while it was
/// open is marked exact, and is the sender's. Not said: anything of a run that took other packets too:
/// of pictures whose references came before it began, or forged ones with the stream's SSRC.
pub fn in_time()
    ensures given { RunsAreInTime }
    ensures sender { OfOneSender }
{
    is_decoding();
    are_rules();
    call_model::laws::any_sound_sender::<Styled, Mb, Pictured, Fault>();
}

/// Nothing is asked for again that can't come before its picture is due (`time`), an answer names what
/// is (`name`), and of a run no packet is asked for a third time, or again within a round trip
/// (`twice`). Not said: that an answer takes no longer than the caller says, or that all that is missing
/// is asked for: of more than 64 packets the oldest aren't.
pub fn asked_in_time()
    ensures time { AskedInTime }
    ensures name { AskedByName }
    ensures twice { AskedTwice }
{
    packet_gaps::laws::in_time();
    packet_gaps::laws::named();
    packet_gaps::laws::twice();
    packet_gaps::laws::apart();
}

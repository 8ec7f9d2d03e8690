//! Laws of a rate that follows a line, over the definitions alone.
ghost use Rattle.line_follower.specs.Laws.{ChokedGivesWay, ChokedThrice, HeldBriefly, LateAlone, NeverBeyond, NeverSent, OneOutlier, OwesLittle, StaysBetween, ToldTwice, TwoInARow};

/// Whatever is sent and told, the rate stays between the least and the most.
pub fn stays_between()
    ensures { StaysBetween }
{}

/// A message makes the rate no greater than 1.5 times what came whole in the last half second.
pub fn never_beyond()
    ensures { NeverBeyond }
{}

/// After a picture that goes out where there is room no more is owed than a fifth of a second of the
/// rate, and the picture itself.
pub fn owes_little()
    ensures { OwesLittle }
{}

/// Where no picture went out for 200 ms, nothing that is waited for holds the next one.
pub fn held_briefly()
    ensures { HeldBriefly }
{}

/// A line is choked with the third late picture alone.
pub fn choked_thrice()
    ensures { ChokedThrice }
{}

/// A choked line gets a quarter of the rate at the most, where a picture isn't whole, and nothing for
/// 200 ms.
pub fn choked_gives_way()
    ensures { ChokedGivesWay }
{}

/// Where all round trips that are compared but one are within the threshold of each other, nothing
/// rises or falls.
pub fn one_outlier()
    ensures { OneOutlier }
{}

/// A rise counts with the second picture alone.
pub fn two_in_a_row()
    ensures { TwoInARow }
{}

/// One late message shrinks no rate.
pub fn late_alone()
    ensures { LateAlone }
{}

/// A message about a picture that wasn't sent changes nothing.
pub fn never_sent()
    ensures { NeverSent }
{}

/// Nor does a second one about the same picture.
pub fn told_twice()
    ensures { ToldTwice }
{}

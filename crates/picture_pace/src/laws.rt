//! Laws of a pace that fits, over the definitions alone.
ghost use Rattle.picture_pace.specs.Laws.{FinestThatFits, InRange, LevelStays, MoreIsFiner, LargerIsCoarser, SumStays};

/// A quantiser is from 2 to 31.
pub fn finest()
    ensures { InRange }
{}

/// It is the finest one with which the picture is to have fewer bytes than are wanted.
pub fn fits()
    ensures { FinestThatFits }
{}

/// A greater target and a greater room never give a coarser quantiser.
pub fn generous()
    ensures { MoreIsFiner }
{}

/// Larger pictures before never give a finer one.
pub fn monotone()
    ensures { LargerIsCoarser }
{}

/// The level stays below the room and one picture, as long as quantiser 31 keeps to the target.
pub fn level()
    ensures { LevelStays }
{}

/// Then pictures in a row exceed their targets by no more than that.
pub fn bounded()
    ensures { SumStays }
{}

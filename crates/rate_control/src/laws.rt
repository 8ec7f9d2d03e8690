//! Laws of the level and of the pace, over the definitions alone.
ghost use Rattle.rate_control.specs.Laws.{CalmExactly, LevelIsGreatest, NeverCoarser, NeverFiner};

/// The level is what its definition says of whole numbers: no suffix lies further above its target,
/// and where it isn't 0 some suffix lies just so far.
pub fn level()
    ensures { LevelIsGreatest }
{}

/// Where no size shrinks, neither does the quantiser.
pub fn monotone()
    ensures { NeverFiner }
{}

/// A greater target never gives a coarser quantiser, whatever the sizes.
pub fn generous()
    ensures { NeverCoarser }
{}

/// The level is 0 exactly where no suffix has more bytes than its length times the target.
pub fn calm()
    ensures { CalmExactly }
{}

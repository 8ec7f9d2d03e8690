//! Laws of the times, over the definitions alone.
ghost use Rattle.playout_times.specs.Laws.{InTime, LeastIsLeast, Recovers};

/// The least way is no longer than any that counts.
pub fn least()
    ensures { LeastIsLeast }
{}

/// A way that has grown or shrunk counts from the third picture on, whatever came before: there is
/// nothing from which the times don't recover.
pub fn recovers()
    ensures { Recovers }
{}

/// From the third picture on, a packet that takes no longer than the least way and the wait comes
/// in time.
pub fn in_time()
    ensures { InTime }
{}

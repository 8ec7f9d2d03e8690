//! Laws of plays in time, over the definitions alone.
ghost use Rattle.timed_receiver.specs.Laws.{PlaysWait};

/// From the third picture on, no picture is played before its packets come, as long as none takes
/// longer than the shortest way and the wait.
pub fn plays_wait()
    ensures { PlaysWait }
{
    playout_times::laws::in_time();
}

//! Laws of the runs of a session, over the definitions alone.
ghost use Rattle.session_runs.specs.Three.{KeptLater};

/// Runs of which nothing is later than one time have nothing that is later than a later one.
pub fn kept_later()
    ensures { KeptLater }
{}

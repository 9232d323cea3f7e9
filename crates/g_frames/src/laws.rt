//! What holds of all runs.

ghost use Rattle.g_frames.specs.Laws.{Composes, FramesStay, KeepsLimit, RefusesExactly, RestsExactly, SpendsAll};

/// Runs compose, no frame is closed and no value changes, no run begins more iterations than its
/// limit and a spent one began as many, the first firing that can't fire is there exactly where a
/// trace isn't allowed, and a state is at rest exactly where no firing can fire.
pub fn run_laws()
    ensures composes { Composes }
    ensures frames { FramesStay }
    ensures limit { KeepsLimit }
    ensures refuses { RefusesExactly }
    ensures rests { RestsExactly }
    ensures spent { SpendsAll }
{}

//! Nodes that are done, and frames that are complete.

ghost use Rattle.std.specs.Prelude.{◌≡◌};
ghost use Rattle.g_frames.specs.State.{has_left, is_complete, is_done};

use g_frames::{Frame, Progress, Stage};

fn has_left(stage: Stage) -> bool
    ensures { result ≡ has_left stage }
{
    match stage {
        Stage::Left(_) => true,
        Stage::Entered | Stage::Opened(_) | Stage::Returned(_) => false,
    }
}

/// Whether a node has no firing left.
pub fn is_done(progress: &Progress) -> bool
    ensures { result ≡ is_done progress.now }
{
    match progress {
        Progress::Idle => false,
        Progress::Done => true,
        Progress::Loop { ended, .. } => *ended,
        Progress::Case { ended, .. } => *ended,
        Progress::Sequence { ended, .. } => *ended,
        Progress::Call { stage, .. } => has_left(*stage),
    }
}

/// Whether all nodes of a frame are done.
pub fn is_complete(frame: &Frame) -> bool
    ensures { result ≡ is_complete frame.now }
{
    for progress in frame.nodes.as_slice() {
        if !is_done(progress) {
            return false;
        }
    }
    true
}

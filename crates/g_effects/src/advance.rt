//! How a firing changes what its node has done.

ghost use Rattle.std.specs.Prelude.{◌≡◌, IfOk};
ghost use Rattle.g_effects.specs.Advance as spec;

use g_frames::{Progress, Stage};
use g_lists::List;
use g_values::Value;
use std::alloc::{AllocError, Global};

/// A step of a node. It says only what is new, so that a loop's list of frames stays where it is.
#[derive(Drop)]
pub enum Advance {
    /// The firing of a node that has one.
    Done,
    /// A loop starts; these values its kept registers had.
    LoopStarts(List<Value>),
    /// An iteration opens the next frame.
    LoopOpens,
    LoopEnds,
    /// A case opens its branch as the next frame.
    CaseOpens,
    CaseEnds,
    /// A sequence opens a part as the next frame.
    PartOpens,
    SequenceEnds,
    /// A call takes this clone.
    CallEnters(u8),
    /// A call of this clone opens the next frame.
    CallOpens(u8),
    /// A call has given its outputs; its clone isn't free yet.
    CallReturns,
    /// A call has no firing left.
    CallLeaves,
}

/// A list that ends with one more frame. Only want of memory refuses it.
fn with_frame(mut frames: List<u64>, next: u64) -> Result<List<u64>, AllocError>
    ensures { IfOk result (λ all. all ≡ spec.with_frame frames next) }
{
    frames.push(next)?;
    Ok(frames)
}

fn loop_opens(progress: Progress, next: u64) -> Result<Progress, AllocError>
    ensures { IfOk result (λ p. p ≡ spec.loop_opens progress next) }
{
    match progress {
        Progress::Loop {
            kept,
            frames,
            ended: _,
        } => {
            let frames = with_frame(frames, next)?;
            Ok(Progress::Loop {
                kept,
                frames,
                ended: false,
            })
        }
        other => Ok(other),
    }
}

fn loop_ends(progress: Progress) -> Progress
    ensures { result ≡ spec.loop_ends progress }
{
    match progress {
        Progress::Loop {
            kept,
            frames,
            ended: _,
        } => Progress::Loop {
            kept,
            frames,
            ended: true,
        },
        other => other,
    }
}

fn case_ends(progress: Progress) -> Progress
    ensures { result ≡ spec.case_ends progress }
{
    match progress {
        Progress::Case { frame, ended: _ } => Progress::Case { frame, ended: true },
        other => other,
    }
}

fn part_opens(alloc: Global, progress: Progress, next: u64) -> Result<Progress, AllocError>
    ensures { IfOk result (λ p. p ≡ spec.part_opens progress next) }
{
    match progress {
        Progress::Sequence { frames, ended: _ } => {
            let frames = with_frame(frames, next)?;
            Ok(Progress::Sequence {
                frames,
                ended: false,
            })
        }
        _ => {
            let frames = with_frame(List::new(alloc), next)?;
            Ok(Progress::Sequence {
                frames,
                ended: false,
            })
        }
    }
}

fn sequence_ends(progress: Progress) -> Progress
    ensures { result ≡ spec.sequence_ends progress }
{
    match progress {
        Progress::Sequence { frames, ended: _ } => Progress::Sequence {
            frames,
            ended: true,
        },
        other => other,
    }
}

fn call_returns(progress: Progress) -> Progress
    ensures { result ≡ spec.call_returns progress }
{
    match progress {
        Progress::Call {
            clone,
            stage: Stage::Opened(frame),
        } => Progress::Call {
            clone,
            stage: Stage::Returned(frame),
        },
        other => other,
    }
}

fn call_leaves(progress: Progress) -> Progress
    ensures { result ≡ spec.call_leaves progress }
{
    match progress {
        Progress::Call {
            clone,
            stage: Stage::Opened(frame) | Stage::Returned(frame),
        } => Progress::Call {
            clone,
            stage: Stage::Left(frame),
        },
        other => other,
    }
}

/// What a node has done after a step, where `next` is the number that the next frame gets. Only want
/// of memory refuses it.
pub fn take_step(
    alloc: Global,
    progress: Progress,
    step: Advance,
    next: u64,
) -> Result<Progress, AllocError>
    ensures { IfOk result (λ p. p ≡ spec.advanced progress step next) }
{
    match step {
        Advance::Done => Ok(Progress::Done),
        Advance::LoopStarts(kept) => Ok(Progress::Loop {
            kept,
            frames: List::new(alloc),
            ended: false,
        }),
        Advance::LoopOpens => loop_opens(progress, next),
        Advance::LoopEnds => Ok(loop_ends(progress)),
        Advance::CaseOpens => Ok(Progress::Case {
            frame: next,
            ended: false,
        }),
        Advance::CaseEnds => Ok(case_ends(progress)),
        Advance::PartOpens => part_opens(alloc, progress, next),
        Advance::SequenceEnds => Ok(sequence_ends(progress)),
        Advance::CallEnters(clone) => Ok(Progress::Call {
            clone,
            stage: Stage::Entered,
        }),
        Advance::CallOpens(clone) => Ok(Progress::Call {
            clone,
            stage: Stage::Opened(next),
        }),
        Advance::CallReturns => Ok(call_returns(progress)),
        Advance::CallLeaves => Ok(call_leaves(progress)),
    }
}

//! Sequences.

ghost use Rattle.std.specs.Prelude.{◌≡◌, map, slice_get, length, IfOk, Some, None, if◌then◌else◌};
ghost use Rattle.std.specs.Option.{option_map};
ghost use Rattle.g_diagram_table.specs.Seen.{seen_part};
ghost use Rattle.g_frames.specs.Effects as effects;
ghost use Rattle.g_frames.specs.Structures.{is_latest_complete};
ghost use Rattle.g_effects.specs.Structures as forms;
ghost use Rattle.g_effects.specs.Turns as spec;
ghost use Rattle.g_here.specs.Here.{IsHere};
ghost use Rattle.g_wire_values.specs.Wires.{reader};

use crate::line::next;
use g_crossing::{Entering, lines_inside, parts_outside};
use g_diagram_table::Part;
use g_effects::{Advance, Effect, Opening, gives, opens};
use g_frames::Progress;
use g_here::Here;
use g_wire_values::Wires;
use std::alloc::{AllocError, Global};

/// A sequence opens a part after so many, with the values of the part before.
fn part_opens<'a>(
    alloc: Global,
    here: &Here<'a, '_>,
    before: Option<Wires<'a>>,
    done: u64,
    part: &Part,
) -> Result<Effect, AllocError>
    ensures { IfOk result (λ e. (h : effects.Here) → IsHere here.now h → e ≡ forms.part_opens h.frame.vi h.frame.space h.outer (option_map reader before.entry) done (seen_part part.now)) }
{
    let entering = Entering {
        outer: here.outer(),
        before,
        iteration: done,
        kept: &[],
        referred: None,
    };
    let given = lines_inside(alloc, &entering, next(part.body)?, part.lines)?;
    let opening = Opening {
        vi: here.frame.vi,
        space: here.frame.space,
        diagram: part.body,
        iteration: done,
        gives: given,
    };
    Ok(opens(alloc, Advance::PartOpens, opening))
}

/// A sequence starts with its first part.
fn sequence_start(alloc: Global, here: &Here, parts: &[Part]) -> Result<Option<Effect>, AllocError>
    ensures { IfOk result (λ plan. (h : effects.Here) → IsHere here.now h → plan ≡ spec.sequence_start h (map seen_part parts.now)) }
{
    match parts.first() {
        Some(part) => Ok(Some(part_opens(alloc, here, None, 0, part)?)),
        None => Ok(None),
    }
}

/// A sequence whose parts are complete gives its outputs.
fn sequence_ends(
    alloc: Global,
    here: &Here,
    parts: &[Part],
    frames: &[u64],
) -> Result<Effect, AllocError>
    ensures { IfOk result (λ e. (h : effects.Here) → IsHere here.now h → e ≡ spec.part_plan h (map seen_part parts.now) frames.now None) }
{
    let inner = here.readers_of(alloc, frames)?;
    let given = parts_outside(alloc, here.table, &here.outer(), parts, inner.as_slice())?;
    Ok(gives(alloc, Advance::SequenceEnds, given))
}

/// A sequence after these frames, which are complete.
fn part_plan(
    alloc: Global,
    here: &Here,
    parts: &[Part],
    frames: &[u64],
) -> Result<Effect, AllocError>
    ensures { IfOk result (λ e. (h : effects.Here) → IsHere here.now h → e ≡ spec.part_plan h (map seen_part parts.now) frames.now (slice_get (map seen_part parts.now) (length frames.now))) }
{
    let done = frames.len();
    match parts.get(done) {
        Some(part) => part_opens(alloc, here, here.latest_of(frames), done as u64, part),
        None => sequence_ends(alloc, here, parts, frames),
    }
}

/// A sequence that has these frames.
fn sequence_on(
    alloc: Global,
    here: &Here,
    parts: &[Part],
    frames: &[u64],
) -> Result<Option<Effect>, AllocError>
    ensures { IfOk result (λ plan. (h : effects.Here) → IsHere here.now h → plan ≡ (if is_latest_complete h frames.now then Some (spec.part_plan h (map seen_part parts.now) frames.now (slice_get (map seen_part parts.now) (length frames.now))) else None)) }
{
    if !here.is_latest_complete(frames) {
        return Ok(None);
    }
    Ok(Some(part_plan(alloc, here, parts, frames)?))
}

/// What a sequence of these parts does next: it opens a part, or gives its outputs. There is none where it waits for
/// its latest part. Only want of memory refuses it, or a line of 2^32 or more, which no listing has.
pub fn sequence_plan(
    alloc: Global,
    here: &Here<'_, '_>,
    parts: &[Part<'_>],
    progress: &Progress,
) -> Result<Option<Effect>, AllocError>
    ensures { IfOk result (λ plan. (h : effects.Here) → IsHere here.now h → plan ≡ spec.sequence_plan h (map seen_part parts.now) progress.now) }
{
    match progress {
        Progress::Idle => sequence_start(alloc, here, parts),
        Progress::Sequence { frames, ended: _ } => {
            sequence_on(alloc, here, parts, frames.as_slice())
        }
        Progress::Done | Progress::Loop { .. } | Progress::Case { .. } | Progress::Call { .. } =>
            Ok(None),
    }
}

//! Cases.

ghost use Rattle.std.specs.Prelude.{◌≡◌, map, slice_get, IfOk};
ghost use Rattle.std.specs.Option.{option_and_then, option_map};
ghost use Rattle.g_border.specs.Cases as cases;
ghost use Rattle.g_border.specs.Readers.{value_on};
ghost use Rattle.g_diagram_table.specs.Seen.{seen_arm};
ghost use Rattle.g_effects.specs.declared.advance.Advance.TheVariants as step;
ghost use Rattle.g_frames.specs.Effects as effects;
ghost use Rattle.g_frames.specs.State.{reader_in};
ghost use Rattle.g_effects.specs.Effects.{gives_with};
ghost use Rattle.g_effects.specs.Structures as forms;
ghost use Rattle.g_effects.specs.Turns as spec;
ghost use Rattle.g_here.specs.Here.{IsHere};

use crate::line::next;
use g_crossing::{Entering, Given, arm_at, chosen, lines_inside, results_outside};
use g_diagram::{Tunnel, Wire};
use g_diagram_table::Arm;
use g_effects::{Advance, Effect, Opening, gives, opens};
use g_frames::{Frame, Progress};
use g_here::{Here, is_complete};
use g_lists::List;
use std::alloc::{AllocError, Global};

/// A case opens a branch.
fn branch_opens(
    alloc: Global,
    here: &Here,
    line: u32,
    lines: &[Tunnel],
    arm: &Arm,
) -> Result<Effect, AllocError>
    ensures { IfOk result (λ e. (h : effects.Here) → IsHere here.now h → e ≡ forms.branch_opens h.frame.vi h.frame.space h.outer line lines.now (seen_arm arm.now)) }
{
    let entering = Entering {
        outer: here.outer(),
        before: None,
        iteration: 0,
        kept: &[],
        referred: None,
    };
    let given = lines_inside(alloc, &entering, next(line)?, lines)?;
    let opening = Opening {
        vi: here.frame.vi,
        space: here.frame.space,
        diagram: arm.body,
        iteration: 0,
        gives: given,
    };
    Ok(opens(alloc, Advance::CaseOpens, opening))
}

/// The branch of a case's selector's value, if it has one.
fn branch_chosen<'b, 'm>(
    alloc: Global,
    here: &Here,
    selector: &Wire,
    arms: &'b [Arm<'m>],
) -> Result<Option<&'b Arm<'m>>, AllocError>
    ensures { IfOk result (λ arm. (h : effects.Here) → IsHere here.now h → option_map (λ a. seen_arm a.now) arm ≡ cases.chosen (value_on h.outer selector.now) (map seen_arm arms.now)) }
{
    let value = here.outer().value(alloc, selector)?;
    Ok(chosen(&value, arms))
}

/// A case starts with the branch of its selector's value.
fn case_start(
    alloc: Global,
    here: &Here,
    line: u32,
    selector: &Wire,
    lines: &[Tunnel],
    arms: &[Arm],
) -> Result<Option<Effect>, AllocError>
    ensures { IfOk result (λ plan. (h : effects.Here) → IsHere here.now h → plan ≡ spec.case_start h line selector.now lines.now (map seen_arm arms.now)) }
{
    match branch_chosen(alloc, here, selector, arms)? {
        Some(arm) => Ok(Some(branch_opens(alloc, here, line, lines, arm)?)),
        None => Ok(None),
    }
}

/// The results of a case whose branch is complete in this frame.
fn results<'a>(
    alloc: Global,
    here: &Here<'a, '_>,
    frame: &'a Frame,
    line: u32,
    lines: &[Tunnel],
    arms: &[Arm],
) -> Result<Given, AllocError>
    ensures { IfOk result (λ g. (h : effects.Here) → IsHere here.now h → gives_with step.CaseEnds g ≡ forms.case_ends h.vi.types (reader_in h.vi frame.now) frame.now.diagram line lines.now (map seen_arm arms.now)) }
{
    let Some(arm) = arm_at(frame.diagram, arms) else {
        return Ok(List::new(alloc));
    };
    let inner = here.wires_in(frame);
    results_outside(alloc, here.table, &inner, arms, arm, next(line)?, lines)
}

/// A case gives its results once its branch, in this frame, is complete.
fn branch_ends<'a>(
    alloc: Global,
    here: &Here<'a, '_>,
    line: u32,
    lines: &[Tunnel],
    arms: &[Arm],
    frame: &'a Frame,
) -> Result<Option<Effect>, AllocError>
    ensures { IfOk result (λ plan. (h : effects.Here) → IsHere here.now h → plan ≡ spec.branch_ends h line lines.now (map seen_arm arms.now) frame.now) }
{
    if !is_complete(frame) {
        return Ok(None);
    }
    let given = results(alloc, here, frame, line, lines, arms)?;
    Ok(Some(gives(alloc, Advance::CaseEnds, given)))
}

/// A case whose branch is the frame of this number.
fn case_on(
    alloc: Global,
    here: &Here,
    line: u32,
    lines: &[Tunnel],
    arms: &[Arm],
    frame: u64,
) -> Result<Option<Effect>, AllocError>
    ensures { IfOk result (λ plan. (h : effects.Here) → IsHere here.now h → plan ≡ option_and_then (spec.branch_ends h line lines.now (map seen_arm arms.now)) (slice_get h.frames frame)) }
{
    match here.frame_at(frame) {
        Some(frame) => branch_ends(alloc, here, line, lines, arms, frame),
        None => Ok(None),
    }
}

/// What a case on a line does next, with this selector, border lines and branches: it opens a branch, or gives its
/// results. There is none where it waits for its branch, or has no branch for the value. Only want of memory refuses
/// it, or a line of 2^32 or more, which no listing has.
pub fn case_plan(
    alloc: Global,
    here: &Here<'_, '_>,
    line: u32,
    selector: &Wire,
    lines: &[Tunnel],
    arms: &[Arm<'_>],
    progress: &Progress,
) -> Result<Option<Effect>, AllocError>
    ensures { IfOk result (λ plan. (h : effects.Here) → IsHere here.now h → plan ≡ spec.case_plan h line selector.now lines.now (map seen_arm arms.now) progress.now) }
{
    match progress {
        Progress::Idle => case_start(alloc, here, line, selector, lines, arms),
        Progress::Case { frame, ended: _ } => case_on(alloc, here, line, lines, arms, *frame),
        Progress::Done
        | Progress::Loop { .. }
        | Progress::Sequence { .. }
        | Progress::Call { .. } => Ok(None),
    }
}

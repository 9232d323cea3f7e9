//! Plans of nodes of each kind.

ghost use Rattle.std.specs.Prelude.{◌≡◌, None, Some, IfOk};
ghost use Rattle.std.specs.Option.{option_map};
ghost use Rattle.g_diagram_table.specs.Seen.{seen, seen_kind};
ghost use Rattle.g_frames.specs.Effects as effects;
ghost use Rattle.g_effects.specs.declared.plan.Plan.TheVariants as plans;
ghost use Rattle.g_effects.specs.Kinds as spec;
ghost use Rattle.g_effects.specs.Needs.{FitsCall};
ghost use Rattle.g_here.specs.Here.{IsHere};
ghost use Rattle.g_needs.specs.Firings.{NodeNeeds};

use crate::simple::{applied, constant};
use g_diagram::Wire;
use g_diagram_table::{Entry, Kind};
use g_effects::{Effect, Plan};
use g_frames::Progress;
use g_here::Here;
use g_places::place_plan;
use g_requests::{call_plan, obtains, reads, shared_plan, shows, writes};
use g_structures::{case_plan, loop_plan, sequence_plan};
use std::alloc::{AllocError, Global};

/// The plan of an effect, if there is one.
fn of_effect(effect: Option<Effect>) -> Option<Plan>
    ensures { result ≡ option_map plans.Effect effect }
{
    match effect {
        Some(effect) => Some(Plan::Effect(effect)),
        None => None,
    }
}

/// What a call asks for.
fn call(
    alloc: Global,
    here: &Here<'_, '_>,
    entry: &Entry<'_>,
    name: &[u8],
    inputs: &[Wire],
    choice: Option<u64>,
    progress: &Progress,
) -> Result<Option<Plan>, AllocError>
    requires { (h : effects.Here) × (IsHere here.now h × FitsCall h name.now inputs.now) }
    ensures { IfOk result (λ plan. (h : effects.Here) → IsHere here.now h → plan ≡ spec.named_plan h (seen entry.now) name.now inputs.now choice progress.now) }
{
    match call_plan(alloc, here, entry.line, name, inputs, choice, progress)? {
        Some(request) => Ok(Some(Plan::Request(request))),
        None => Ok(None),
    }
}

/// The plan of a firing with a choice, which only calls have.
fn chosen(
    alloc: Global,
    here: &Here<'_, '_>,
    entry: &Entry<'_>,
    choice: u64,
    progress: &Progress,
) -> Result<Option<Plan>, AllocError>
    requires { (h : effects.Here) × (IsHere here.now h × NodeNeeds h (seen entry.now)) }
    ensures { IfOk result (λ plan. (h : effects.Here) → IsHere here.now h → plan ≡ spec.kind_plan h (seen entry.now) (Some choice) (seen_kind entry.now.kind) progress.now) }
{
    match &entry.kind {
        Kind::Call { vi, inputs, .. } => call(
            alloc,
            here,
            entry,
            vi.as_slice(),
            *inputs,
            Some(choice),
            progress,
        ),
        Kind::Const { .. } => Ok(None),
        Kind::Apply { .. } => Ok(None),
        Kind::Shows { .. } => Ok(None),
        Kind::Shared { .. } => Ok(None),
        Kind::Obtain { .. } => Ok(None),
        Kind::Read { .. } => Ok(None),
        Kind::Write { .. } => Ok(None),
        Kind::Loop { .. } => Ok(None),
        Kind::Case { .. } => Ok(None),
        Kind::Sequence { .. } => Ok(None),
        Kind::InPlace { .. } => Ok(None),
    }
}

/// The plan of a firing without a choice.
fn unchosen<'a>(
    alloc: Global,
    here: &Here<'a, '_>,
    entry: &Entry<'_>,
    progress: &'a Progress,
) -> Result<Option<Plan>, AllocError>
    requires { (h : effects.Here) × (IsHere here.now h × NodeNeeds h (seen entry.now)) }
    ensures { IfOk result (λ plan. (h : effects.Here) → IsHere here.now h → plan ≡ spec.kind_plan h (seen entry.now) None (seen_kind entry.now.kind) progress.now) }
{
    match &entry.kind {
        Kind::Const { ty, literal, .. } => Ok(Some(constant(alloc, entry, *ty, *literal)?)),
        Kind::Apply {
            primitive,
            inputs,
            ..
        } => Ok(Some(applied(alloc, here, entry, primitive, *inputs)?)),
        Kind::Shows { name, ty, input } => {
            Ok(Some(shows(alloc, here, name.as_slice(), *ty, *input)?))
        }
        Kind::Shared {
            operation,
            inputs,
            ..
        } => shared_plan(alloc, here, entry, *operation, *inputs),
        Kind::Obtain { queue, .. } => Ok(Some(obtains(here, queue.as_slice()))),
        Kind::Read { object, .. } => Ok(Some(reads(here, object.as_slice()))),
        Kind::Write { object, input } => Ok(Some(writes(alloc, here, object.as_slice(), *input)?)),
        Kind::Call { vi, inputs, .. } => {
            call(alloc, here, entry, vi.as_slice(), *inputs, None, progress)
        }
        Kind::Loop {
            count,
            stop,
            iteration,
            lines,
            body,
        } => Ok(of_effect(loop_plan(
            alloc, here, entry.line, *count, *stop, *iteration, *lines, *body, progress,
        )?)),
        Kind::Case {
            selector,
            lines,
            arms,
        } => Ok(of_effect(case_plan(
            alloc,
            here,
            entry.line,
            *selector,
            *lines,
            arms.as_slice(),
            progress,
        )?)),
        Kind::Sequence { parts } => Ok(of_effect(sequence_plan(
            alloc,
            here,
            parts.as_slice(),
            progress,
        )?)),
        Kind::InPlace {
            lines,
            body,
            finish,
        } => place_plan(alloc, here, entry, *lines, *body, *finish),
    }
}

/// The plan of a node's next firing, by its kind. Only want of memory refuses it.
pub fn kind_plan<'a>(
    alloc: Global,
    here: &Here<'a, '_>,
    entry: &Entry<'_>,
    choice: Option<u64>,
    progress: &'a Progress,
) -> Result<Option<Plan>, AllocError>
    requires { (h : effects.Here) × (IsHere here.now h × NodeNeeds h (seen entry.now)) }
    ensures { IfOk result (λ plan. (h : effects.Here) → IsHere here.now h → plan ≡ spec.kind_plan h (seen entry.now) choice (seen_kind entry.now.kind) progress.now) }
{
    match choice {
        Some(choice) => chosen(alloc, here, entry, choice, progress),
        None => unchosen(alloc, here, entry, progress),
    }
}

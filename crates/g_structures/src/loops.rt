//! Loops.

ghost use Rattle.std.specs.Prelude.{◌≡◌, ℕ, List as TheList, map, IfOk};
ghost use Rattle.std.specs.Option.{option_map};
ghost use Rattle.g_frames.specs.Effects as effects;
ghost use Rattle.g_frames.specs.Structures.{kept_after, readers_of};
ghost use Rattle.g_wire_values.specs.Wires.{reader};
ghost use Rattle.g_border.specs.Lines as border;
ghost use Rattle.g_effects.specs.Effects.{gives_with};
ghost use Rattle.g_effects.specs.declared.advance.Advance.TheVariants as step;
ghost use Rattle.g_effects.specs.Turns as spec;
ghost use Rattle.g_vi_tables.specs.Tables.{IsViTable};
ghost use Rattle.g_crossing.specs.Crossing.{IsLeaving};
ghost use Rattle.g_here.specs.Here.{IsHere};

use crate::kept::{by_number, kept_now};
use crate::line::next;
use g_crossing::{Entering, Leaving, has_ended, iteration_inside, kept_values, lines_outside};
use g_diagram::{Tunnel, Wire};
use g_effects::{Advance, Effect, Opening, Turn, gives, opens};
use g_frames::Progress;
use g_here::Here;
use g_lists::List;
use g_values::Value;
use g_wire_values::Wires;
use std::alloc::{AllocError, Global};

/// A loop starts: it reads its kept registers.
fn loop_starts(
    alloc: Global,
    here: &Here,
    line: u32,
    lines: &[Tunnel],
) -> Result<Effect, AllocError>
    ensures { IfOk result (λ e. (h : effects.Here) → IsHere here.now h → e ≡ spec.loop_starts h line lines.now) }
{
    let kept = kept_now(alloc, here, next(line)?, lines)?;
    Ok(gives(alloc, Advance::LoopStarts(kept), List::new(alloc)))
}

/// How a loop goes on after these iterations.
fn loop_turn(
    here: &Here,
    count: Option<&Wire>,
    stop: Option<&Wire>,
    lines: &[Tunnel],
    frames: &[u64],
) -> Turn
    ensures { (h : effects.Here) → IsHere here.now h → result ≡ spec.loop_turn h (option_map (λ w. w.now) count.entry) (option_map (λ w. w.now) stop.entry) lines.now frames.now }
{
    if !here.is_latest_complete(frames) {
        return Turn::Waits;
    }
    let (outer, latest) = (here.outer(), here.latest_of(frames));
    if has_ended(&outer, count, stop, lines, frames.len(), latest.as_ref()) {
        return Turn::Ends;
    }
    if here.has_room {
        return Turn::GoesOn;
    }
    Turn::Waits
}

/// A loop whose frames are complete gives its outputs and writes its kept registers.
fn ends_with(
    alloc: Global,
    here: &Here,
    leaving: &Leaving,
    first: u32,
    lines: &[Tunnel],
) -> Result<Effect, AllocError>
    ensures { IfOk result (λ e. (h : effects.Here) (out : border.Leaving) → IsHere here.now h → IsViTable h.vi leaving.now.table.now → IsLeaving first lines.now leaving.now h.vi out → e ≡ record (gives_with step.LoopEnds (border.lines_outside out first lines.now)) { keeps = kept_after h out first lines.now }) }
{
    let given = lines_outside(alloc, leaving, first, lines)?;
    let values = kept_values(alloc, leaving, first, lines)?;
    let mut effect = gives(alloc, Advance::LoopEnds, given);
    effect.keeps = by_number(alloc, here, values)?;
    Ok(effect)
}

/// A loop with these frames, which are complete, gives its outputs and writes its kept registers.
fn frames_end<'x>(
    alloc: Global,
    here: &Here,
    line: u32,
    lines: &[Tunnel],
    body: u32,
    kept: &'x [Value],
    inner: &'x [Wires],
) -> Result<Effect, AllocError>
    ensures { IfOk result (λ e. (h : effects.Here) (frames : TheList ℕ) → IsHere here.now h → map reader inner.now ≡ readers_of h frames → e ≡ spec.loop_end h line lines.now body kept.now frames) }
{
    let leaving = Leaving {
        outer: here.outer(),
        inner,
        kept,
        table: here.table,
        body,
    };
    let first = next(line)?;
    let effect = ends_with(alloc, here, &leaving, first, lines)?;
    Ok(effect)
}

/// A loop that has ended gives its outputs and writes its kept registers.
fn loop_end(
    alloc: Global,
    here: &Here,
    line: u32,
    lines: &[Tunnel],
    body: u32,
    kept: &[Value],
    frames: &[u64],
) -> Result<Effect, AllocError>
    ensures { IfOk result (λ e. (h : effects.Here) → IsHere here.now h → e ≡ spec.loop_end h line lines.now body kept.now frames.now) }
{
    let inner = here.readers_of(alloc, frames)?;
    frames_end(alloc, here, line, lines, body, kept, inner.as_slice())
}

/// An iteration begins after these.
fn loop_next<'a>(
    alloc: Global,
    here: &Here<'a, '_>,
    line: u32,
    count: Option<&Wire>,
    stop: Option<&Wire>,
    iteration: &Wire,
    lines: &[Tunnel],
    body: u32,
    kept: &'a [Value],
    frames: &[u64],
) -> Result<Effect, AllocError>
    ensures { IfOk result (λ e. (h : effects.Here) → IsHere here.now h → e ≡ spec.loop_next h line (option_map (λ w. w.now) count.entry) (option_map (λ w. w.now) stop.entry) iteration.now lines.now body kept.now frames.now) }
{
    let done = frames.len() as u64;
    let entering = Entering {
        outer: here.outer(),
        before: here.latest_of(frames),
        iteration: done,
        kept,
        referred: None,
    };
    let given = iteration_inside(alloc, &entering, line, count, stop, iteration, lines)?;
    let opening = Opening {
        vi: here.frame.vi,
        space: here.frame.space,
        diagram: body,
        iteration: done,
        gives: given,
    };
    let mut effect = opens(alloc, Advance::LoopOpens, opening);
    effect.begins = true;
    Ok(effect)
}

/// What a loop does that has these iterations, and whose kept registers had these values when it started.
fn loop_on<'a>(
    alloc: Global,
    here: &Here<'a, '_>,
    line: u32,
    count: Option<&Wire>,
    stop: Option<&Wire>,
    iteration: &Wire,
    lines: &[Tunnel],
    body: u32,
    kept: &'a [Value],
    frames: &[u64],
) -> Result<Option<Effect>, AllocError>
    ensures { IfOk result (λ plan. (h : effects.Here) → IsHere here.now h → plan ≡ spec.by_turn (spec.loop_turn h (option_map (λ w. w.now) count.entry) (option_map (λ w. w.now) stop.entry) lines.now frames.now) (spec.loop_end h line lines.now body kept.now frames.now) (spec.loop_next h line (option_map (λ w. w.now) count.entry) (option_map (λ w. w.now) stop.entry) iteration.now lines.now body kept.now frames.now)) }
{
    match loop_turn(here, count, stop, lines, frames) {
        Turn::Waits => Ok(None),
        Turn::Ends => Ok(Some(loop_end(alloc, here, line, lines, body, kept, frames)?)),
        Turn::GoesOn => Ok(Some(loop_next(
            alloc, here, line, count, stop, iteration, lines, body, kept, frames,
        )?)),
    }
}

/// What a loop on a line does next, with these operands and border lines and the diagram of its body: it starts,
/// an iteration begins, or it ends. There is none where it waits for its latest iteration, or for room under the
/// limit. Only want of memory refuses it, or a line of 2^32 or more, which no listing has.
pub fn loop_plan<'a>(
    alloc: Global,
    here: &Here<'a, '_>,
    line: u32,
    count: Option<&Wire>,
    stop: Option<&Wire>,
    iteration: &Wire,
    lines: &[Tunnel],
    body: u32,
    progress: &'a Progress,
) -> Result<Option<Effect>, AllocError>
    ensures { IfOk result (λ plan. (h : effects.Here) → IsHere here.now h → plan ≡ spec.loop_plan h line (option_map (λ w. w.now) count.entry) (option_map (λ w. w.now) stop.entry) iteration.now lines.now body progress.now) }
{
    match progress {
        Progress::Idle => Ok(Some(loop_starts(alloc, here, line, lines)?)),
        Progress::Loop {
            kept,
            frames,
            ended: _,
        } => loop_on(
            alloc,
            here,
            line,
            count,
            stop,
            iteration,
            lines,
            body,
            kept.as_slice(),
            frames.as_slice(),
        ),
        Progress::Done
        | Progress::Case { .. }
        | Progress::Sequence { .. }
        | Progress::Call { .. } => Ok(None),
    }
}

//! The kept registers of a loop, in the state.

ghost use Rattle.std.specs.Prelude.{◌≡◌, ◌++◌, map, slice_get, IfOk, OnOk};
ghost use Rattle.std.specs.Option.{option_copied};
ghost use Rattle.g_prims_definitions.specs.Arrays.{or_default};
ghost use Rattle.g_border.specs.Loops.{kept_lines, kept_registers};
ghost use Rattle.g_frames.specs.Effects as effects;
ghost use Rattle.g_frames.specs.Program.{kept_number};
ghost use Rattle.g_frames.specs.Structures as spec;
ghost use Rattle.g_here.specs.Here.{IsHere};

use crate::line::next;
use g_diagram::Tunnel;
use g_here::Here;
use g_lists::List;
use g_types::Ty;
use g_values::{Copies, Value, copy, default_of};
use std::alloc::{AllocError, Global};

/// A copy of the value of a register, or the default of its type where there is none.
fn copy_or_default(alloc: Global, ty: &Ty, value: Option<&Value>) -> Result<Value, AllocError>
    ensures { IfOk result (λ v. v ≡ or_default ty.now (option_copied value.entry)) }
{
    match value {
        Some(value) => copy(alloc, value, &mut Copies { n: 0 }),
        None => default_of(alloc, ty),
    }
}

/// What the kept register on a line has.
fn register_now(alloc: Global, here: &Here, line: u32, ty: &Ty) -> Result<Value, AllocError>
    ensures { IfOk result (λ v. (h : effects.Here) → IsHere here.now h → v ≡ or_default ty.now (slice_get h.kept (kept_number h.program h.frame.space line))) }
{
    let number = here.tables.kept_number(here.frame.space, line);
    copy_or_default(alloc, ty, here.state.kept().get(number))
}

/// What a line has that is a kept register.
fn push_line(
    alloc: Global,
    kept: &mut List<Value>,
    here: &Here,
    line: u32,
    tunnel: &Tunnel,
) -> Result<(), AllocError>
    ensures { OnOk result ((h : effects.Here) → IsHere here.now h → kept.new ≡ kept.old ++ spec.kept_now h (kept_lines line tunnel.now)) }
{
    match tunnel {
        Tunnel::Kept { ty, .. } => {
            kept.push(register_now(alloc, here, line, ty)?)?;
            Ok(())
        }
        Tunnel::Tunnel { .. }
        | Tunnel::Register { .. }
        | Tunnel::Last { .. }
        | Tunnel::Gather { .. }
        | Tunnel::Index { .. }
        | Tunnel::Result { .. }
        | Tunnel::Carry { .. }
        | Tunnel::Ref { .. }
        | Tunnel::Element { .. }
        | Tunnel::Field { .. } => Ok(()),
    }
}

/// What the kept registers on border lines, from a line on, have, in the order of the lines.
pub fn kept_now(
    alloc: Global,
    here: &Here,
    first: u32,
    lines: &[Tunnel],
) -> Result<List<Value>, AllocError>
    ensures { IfOk result (λ vs. (h : effects.Here) → IsHere here.now h → vs ≡ spec.kept_now h (kept_registers first lines.now)) }
{
    let mut kept = List::new(alloc);
    let mut line = first;
    for tunnel in lines {
        push_line(alloc, &mut kept, here, line, tunnel)?;
        line = next(line)?;
    }
    Ok(kept)
}

/// Values of kept registers by the numbers of these, in place of their lines.
pub fn by_number(
    alloc: Global,
    here: &Here,
    values: List<(u32, Value)>,
) -> Result<List<(usize, Value)>, AllocError>
    ensures { IfOk result (λ keeps. (h : effects.Here) → IsHere here.now h → keeps ≡ map (λ r. (kept_number h.program h.frame.space r.0, r.1)) values) }
{
    let mut keeps = List::new(alloc);
    for (line, value) in values.into_vec() {
        let number = here.tables.kept_number(here.frame.space, line);
        keeps.push((number, value))?;
    }
    Ok(keeps)
}

//! The data spaces in link order.

ghost use Rattle.std.specs.Prelude.{◌≡◌, ◌<◌, ◌+◌, ◌++◌, ◌∷◌, [], ℕ, map, reverse, IfOk, OnOk, MatchOption, Some, None, slice_get};
ghost use Rattle.std.specs.BTreeSet.{contains};
ghost use Rattle.std.specs.Ordering.{nat_cmp};
ghost use Rattle.g_hier.specs.Outlines.{calls_at};
ghost use Rattle.g_hier.specs.LinkOrder.{system_for, placed_by, entered_by, main_placed, AreInLinkOrder, with_vi, has_vi, vis_after};
ghost use Rattle.g_hier.specs.Walking.{space_cmp, pool_placed, unmet};

use crate::counts::outline_at;
use crate::linked::{CallLine, Caller, Outline, Placed, Space};
use g_diagram::{Clones, System};
use g_lists::List;
use std::alloc::{AllocError, Global};
use std::collections::BTreeSet;

/// The system of a data space that a call enters, or MAIN's.
fn system_of(own: System, caller: System) -> System
    ensures { result ≡ system_for own caller }
{
    match own {
        System::Same => caller,
        System::Ui => System::Ui,
        System::Standard => System::Standard,
        System::Instrument => System::Instrument,
        System::Daq => System::Daq,
        System::Other1 => System::Other1,
        System::Other2 => System::Other2,
    }
}

/// Stacks the clones of a pool, the last first.
fn push_pool(
    vi: u32,
    count: u8,
    system: System,
    pending: &mut Vec<Placed>,
) -> Result<(), AllocError>
    ensures { OnOk result (pending.new.items ≡ pending.old.items ++ reverse (pool_placed vi 0 count system)) }
{
    for done in 0..count {
        let space = Space {
            vi,
            clone: count - 1 - done,
            caller: None,
        };
        pending.push(Placed { space, system })?;
    }
    Ok(())
}

/// Stacks the data spaces of a VI that a call can enter, the last first.
fn push_enterable(
    outline: &Outline,
    vi: u32,
    caller: Caller,
    system: System,
    pending: &mut Vec<Placed>,
) -> Result<(), AllocError>
    ensures { OnOk result (pending.new.items ≡ pending.old.items ++ reverse (placed_by (Some outline.now) vi caller system)) }
{
    let system = system_of(outline.system, system);
    match outline.clones {
        Clones::NonReentrant => {
            let space = Space {
                vi,
                clone: 0,
                caller: None,
            };
            pending.push(Placed { space, system })?;
        }
        Clones::Preallocated => {
            let space = Space {
                vi,
                clone: 0,
                caller: Some(caller),
            };
            pending.push(Placed { space, system })?;
        }
        Clones::Pool(count) => push_pool(vi, count, system, pending)?,
    }
    Ok(())
}

/// The outline of a VI, if there is one.
#[tactic(auto, using(crate::proofs::Walks::absent))]
fn find_outline(outlines: &[Outline], vi: usize) -> Option<&Outline>
    ensures { MatchOption result (slice_get outlines.now vi ≡ None) (λ o. slice_get outlines.now vi ≡ Some o.now) }
{
    if vi < outlines.len() {
        return Some(outline_at(outlines, vi));
    }
    None
}

/// Stacks what a call line can enter, the last first.
fn push_call(
    outlines: &[Outline],
    call: CallLine,
    space: usize,
    system: System,
    pending: &mut Vec<Placed>,
) -> Result<(), AllocError>
    ensures { OnOk result (pending.new.items ≡ pending.old.items ++ reverse (placed_by (slice_get outlines.now call.vi) call.vi (record { space = space; line = call.line }) system)) }
{
    match find_outline(outlines, call.vi as usize) {
        None => Ok(()),
        Some(outline) => push_enterable(
            outline,
            call.vi,
            Caller {
                space,
                line: call.line,
            },
            system,
            pending,
        ),
    }
}

/// Stacks what some call lines of a data space can enter, the last first.
fn push_calls(
    outlines: &[Outline],
    calls: &[CallLine],
    space: usize,
    system: System,
    pending: &mut Vec<Placed>,
) -> Result<(), AllocError>
    ensures { OnOk result (pending.new.items ≡ pending.old.items ++ reverse (entered_by outlines.now space system calls.now)) }
{
    for done in 0..calls.len() {
        push_call(
            outlines,
            calls[calls.len() - 1 - done],
            space,
            system,
            pending,
        )?;
    }
    Ok(())
}

/// Stacks what the call lines of a data space can enter, the last first.
fn push_entered(
    outlines: &[Outline],
    placed: Placed,
    space: usize,
    pending: &mut Vec<Placed>,
) -> Result<(), AllocError>
    ensures { OnOk result (pending.new.items ≡ pending.old.items ++ reverse (entered_by outlines.now space placed.system (calls_at outlines.now placed.space.vi))) }
{
    match find_outline(outlines, placed.space.vi as usize) {
        None => Ok(()),
        Some(outline) => push_calls(
            outlines,
            outline.calls.as_slice(),
            space,
            placed.system,
            pending,
        ),
    }
}

/// Takes what was met off the stack, and the first that wasn't.
fn next_unmet(met: &BTreeSet<Space>, pending: &mut Vec<Placed>) -> Option<Placed>
    ensures { MatchOption result (unmet (λ s. contains space_cmp met.now s) (reverse pending.old.items) ≡ []) (λ p. unmet (λ s. contains space_cmp met.now s) (reverse pending.old.items) ≡ p ∷ reverse pending.new.items) }
{
    while let Some(placed) = pending.pop() {
        if !met.contains(&placed.space) {
            return Some(placed);
        }
    }
    None
}

/// What is to be entered first.
fn start_of(alloc: Global, outlines: &[Outline], main: u32) -> Result<Vec<Placed>, AllocError>
    ensures { IfOk result (λ pending. pending.items ≡ main_placed (slice_get outlines.now main) main) }
{
    let mut pending = Vec::new(alloc);
    if let Some(outline) = outlines.get(main as usize) {
        let space = Space {
            vi: main,
            clone: 0,
            caller: None,
        };
        pending.push(Placed {
            space,
            system: system_of(outline.system, System::Standard),
        })?;
    }
    Ok(pending)
}

/// The data spaces in link order with their systems. Only want of memory refuses it.
pub fn spaces_of(alloc: Global, outlines: &[Outline], main: u32) -> Result<Vec<Placed>, AllocError>
    ensures { IfOk result (λ met. AreInLinkOrder outlines.now main met.items) }
{
    let mut pending = start_of(alloc, outlines, main)?;
    let mut met: Vec<Placed> = Vec::new(alloc);
    let mut seen: BTreeSet<Space> = BTreeSet::new(alloc);
    for _turn in 0..u64::MAX {
        match next_unmet(&seen, &mut pending) {
            None => return Ok(met),
            Some(placed) => {
                push_entered(outlines, placed, met.len(), &mut pending)?;
                let _is_new = seen.insert(placed.space)?;
                met.push(placed)?;
            }
        }
    }
    unreachable!()
}

/// Adds a VI, if it isn't there.
fn push_vi(vi: u32, seen: &mut BTreeSet<u32>, order: &mut Vec<u32>) -> Result<(), AllocError>
    requires { (v : ℕ) → contains nat_cmp seen.old v ≡ has_vi order.old.items v }
    ensures order { OnOk result (order.new.items ≡ with_vi order.old.items vi) }
    ensures seen { OnOk result ((v : ℕ) → contains nat_cmp seen.new v ≡ has_vi order.new.items v) }
{
    if seen.contains(&vi) {
        return Ok(());
    }
    let _is_new = seen.insert(vi)?;
    order.push(vi)?;
    Ok(())
}

/// The VIs of data spaces, each where it stands first. Only want of memory refuses it.
pub fn vis_of(alloc: Global, placed: &[Placed]) -> Result<List<u32>, AllocError>
    ensures { IfOk result (λ vis. vis ≡ vis_after [] placed.now) }
{
    let mut order: Vec<u32> = Vec::new(alloc);
    let mut seen: BTreeSet<u32> = BTreeSet::new(alloc);
    for item in placed {
        push_vi(item.space.vi, &mut seen, &mut order)?;
    }
    Ok(List::from_vec(order))
}

/// The data spaces alone. Only want of memory refuses it.
pub fn space_list(alloc: Global, placed: &[Placed]) -> Result<List<Space>, AllocError>
    ensures { IfOk result (λ spaces. spaces ≡ map (λ p. p.space) placed.now) }
{
    let mut spaces = Vec::with_capacity(alloc, placed.len())?;
    for item in placed {
        spaces.push(item.space)?;
    }
    Ok(List::from_vec(spaces))
}

/// Their systems alone. Only want of memory refuses it.
pub fn system_list(alloc: Global, placed: &[Placed]) -> Result<List<System>, AllocError>
    ensures { IfOk result (λ systems. systems ≡ map (λ p. p.system) placed.now) }
{
    let mut systems = Vec::with_capacity(alloc, placed.len())?;
    for item in placed {
        systems.push(item.system)?;
    }
    Ok(List::from_vec(systems))
}

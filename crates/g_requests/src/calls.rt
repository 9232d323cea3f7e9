//! What a call asks for, by what it has done so far.

ghost use Rattle.std.specs.Prelude.{◌≡◌, IfOk, if◌then◌else◌};
ghost use Rattle.std.specs.List.{All};
ghost use Rattle.std.specs.Option.{option_map};
ghost use Rattle.g_values.specs.Proper.{IsProper};
ghost use Rattle.g_diagram.specs.Lines.{Entry as Node};
ghost use Rattle.g_frames.specs.Effects as effects;
ghost use Rattle.g_frames.specs.Panels.{arguments};
ghost use Rattle.g_frames.specs.Program.{takes_clone};
ghost use Rattle.g_effects.specs.declared.plan.Plan.TheVariants as plans;
ghost use Rattle.g_effects.specs.declared.plan.Then.TheVariants as follow;
ghost use Rattle.g_effects.specs.Kinds.{named_plan};
ghost use Rattle.g_effects.specs.Needs.{FitsCall};
ghost use Rattle.g_effects.specs.Requests as spec;
ghost use Rattle.g_here.specs.Here.{IsHere};

use g_diagram::{Clones, PanelItem, Wire};
use g_effects::{Request, Then};
use g_frames::{Progress, Stage};
use g_here::Here;
use g_node_values::arguments;
use g_objects::Operation;
use g_shared::{PanelOp, PoolOp};
use g_values::ValueList;
use std::alloc::{AllocError, Global};

/// A call on a line, with its inputs and the called VI.
#[derive(Clone, Copy)]
struct Called<'a> {
    line: u32,
    inputs: &'a [Wire],
    vi: u32,
    panel: &'a [PanelItem],
    clones: Clones,
}

fn request(object: usize, operation: Operation, choice: u64, follow: Then) -> Request
    ensures { result ≡ spec.request object operation choice follow }
{
    Request {
        object,
        operation,
        choice,
        follow,
    }
}

/// The call takes a clone.
fn enters(here: &Here<'_, '_>, vi: u32, clone: u64) -> Request
    ensures { (h : effects.Here) → IsHere here.now h → result ≡ spec.enters h vi clone }
{
    let object = here.tables.pool_object(vi);
    request(
        object,
        Operation::OnPool(PoolOp::Enter),
        clone,
        Then::CallEnters,
    )
}

/// The panel of the data space of the call's clone opens, with the call's arguments.
fn panel_opens(
    alloc: Global,
    here: &Here<'_, '_>,
    call: &Called<'_>,
    clone: u8,
    space: u32,
) -> Result<Request, AllocError>
    requires { (h : effects.Here) × (IsHere here.now h × All IsProper (arguments h.outer call.now.inputs.now call.now.panel.now)) }
    ensures { IfOk result (λ q. (h : effects.Here) → IsHere here.now h → q ≡ spec.panel_opens h call.now.inputs.now call.now.vi clone call.now.panel.now space) }
{
    let wires = here.outer();
    let values = arguments(alloc, &wires, call.inputs, call.panel)?;
    let object = here.tables.panel_object(space);
    let operation = Operation::OnPanel(PanelOp::Enter(ValueList::from_list(values)));
    Ok(request(
        object,
        operation,
        0,
        Then::CallOpens {
            vi: call.vi,
            clone,
            space,
        },
    ))
}

/// The data space of the call's clone, if there is that clone.
fn space_in(here: &Here<'_, '_>, call: &Called<'_>, clone: u8) -> Option<u32>
    ensures { (h : effects.Here) → IsHere here.now h → result ≡ spec.space_in h call.now.line call.now.vi clone call.now.clones }
{
    here.tables
        .called_space(call.clones, call.vi, here.frame.space, call.line, clone)
}

fn opens(
    alloc: Global,
    here: &Here<'_, '_>,
    call: &Called<'_>,
    clone: u8,
) -> Result<Option<Request>, AllocError>
    requires { (h : effects.Here) × (IsHere here.now h × All IsProper (arguments h.outer call.now.inputs.now call.now.panel.now)) }
    ensures { IfOk result (λ q. (h : effects.Here) → IsHere here.now h → q ≡ option_map (spec.panel_opens h call.now.inputs.now call.now.vi clone call.now.panel.now) (spec.space_in h call.now.line call.now.vi clone call.now.clones)) }
{
    match space_in(here, call, clone) {
        Some(space) => Ok(Some(panel_opens(alloc, here, call, clone, space)?)),
        None => Ok(None),
    }
}

/// Where calls of the VI take no clone, none is to be freed after this.
fn after_return(clones: Clones) -> Then
    ensures { result ≡ (if takes_clone clones then follow.CallReturns else follow.CallReturnsLast) }
{
    match clones {
        Clones::NonReentrant | Clones::Pool(_) => Then::CallReturns,
        Clones::Preallocated => Then::CallReturnsLast,
    }
}

/// The call gives what the indicators have.
fn returns(here: &Here<'_, '_>, clones: Clones, space: u32) -> Request
    ensures { (h : effects.Here) → IsHere here.now h → result ≡ spec.returns h clones space }
{
    let object = here.tables.panel_object(space);
    request(
        object,
        Operation::OnPanel(PanelOp::Leave),
        0,
        after_return(clones),
    )
}

/// The call gives what the indicators have, once its frame is complete.
fn frame_returns(here: &Here<'_, '_>, call: &Called<'_>, clone: u8, frame: u64) -> Option<Request>
    ensures { (h : effects.Here) → IsHere here.now h → result ≡ spec.frame_returns h call.now.line call.now.vi clone call.now.clones frame }
{
    if !here.is_complete_at(frame) {
        return None;
    }
    match space_in(here, call, clone) {
        Some(space) => Some(returns(here, call.clones, space)),
        None => None,
    }
}

/// The call frees its clone.
fn leaves(here: &Here<'_, '_>, vi: u32, clone: u8) -> Request
    ensures { (h : effects.Here) → IsHere here.now h → result ≡ spec.leaves h vi clone }
{
    let object = here.tables.pool_object(vi);
    request(
        object,
        Operation::OnPool(PoolOp::Leave(clone)),
        0,
        Then::CallLeaves,
    )
}

/// A call's first firing: a choice stands where it takes a clone of a pool, and there alone.
fn begins(
    alloc: Global,
    here: &Here<'_, '_>,
    call: &Called<'_>,
    choice: Option<u64>,
) -> Result<Option<Request>, AllocError>
    requires { (h : effects.Here) × (IsHere here.now h × All IsProper (arguments h.outer call.now.inputs.now call.now.panel.now)) }
    ensures { IfOk result (λ q. (h : effects.Here) → IsHere here.now h → q ≡ spec.begins h call.now.line call.now.inputs.now call.now.vi call.now.panel.now call.now.clones choice) }
{
    match (call.clones, choice) {
        (Clones::NonReentrant, None) => Ok(Some(enters(here, call.vi, 0))),
        (Clones::Preallocated, None) => opens(alloc, here, call, 0),
        (Clones::Pool(_), Some(clone)) => Ok(Some(enters(here, call.vi, clone))),
        (Clones::NonReentrant, Some(_)) => Ok(None),
        (Clones::Preallocated, Some(_)) => Ok(None),
        (Clones::Pool(_), None) => Ok(None),
    }
}

fn goes_on(
    alloc: Global,
    here: &Here<'_, '_>,
    call: &Called<'_>,
    clone: u8,
    stage: Stage,
) -> Result<Option<Request>, AllocError>
    requires { (h : effects.Here) × (IsHere here.now h × All IsProper (arguments h.outer call.now.inputs.now call.now.panel.now)) }
    ensures { IfOk result (λ q. (h : effects.Here) → IsHere here.now h → q ≡ spec.goes_on h call.now.line call.now.inputs.now call.now.vi clone call.now.panel.now call.now.clones stage) }
{
    match stage {
        Stage::Entered => opens(alloc, here, call, clone),
        Stage::Opened(frame) => Ok(frame_returns(here, call, clone, frame)),
        Stage::Returned(_) => Ok(Some(leaves(here, call.vi, clone))),
        Stage::Left(_) => Ok(None),
    }
}

fn by_progress(
    alloc: Global,
    here: &Here<'_, '_>,
    call: &Called<'_>,
    choice: Option<u64>,
    progress: &Progress,
) -> Result<Option<Request>, AllocError>
    requires { (h : effects.Here) × (IsHere here.now h × All IsProper (arguments h.outer call.now.inputs.now call.now.panel.now)) }
    ensures { IfOk result (λ q. (h : effects.Here) → IsHere here.now h → q ≡ spec.call_plan h call.now.line call.now.inputs.now choice progress.now call.now.vi call.now.panel.now call.now.clones) }
{
    match progress {
        Progress::Idle => begins(alloc, here, call, choice),
        Progress::Call { clone, stage } => {
            if choice.is_some() {
                return Ok(None);
            }
            goes_on(alloc, here, call, *clone, *stage)
        }
        Progress::Done
        | Progress::Loop { .. }
        | Progress::Case { .. }
        | Progress::Sequence { .. } => Ok(None),
    }
}

/// What a call on a line asks for, with its choice of a clone. Only want of memory refuses it.
pub fn call_plan(
    alloc: Global,
    here: &Here<'_, '_>,
    line: u32,
    name: &[u8],
    inputs: &[Wire],
    choice: Option<u64>,
    progress: &Progress,
) -> Result<Option<Request>, AllocError>
    requires { (h : effects.Here) × (IsHere here.now h × FitsCall h name.now inputs.now) }
    ensures { IfOk result (λ q. (h : effects.Here) (e : Node) → IsHere here.now h → e.line ≡ line → option_map plans.Request q ≡ named_plan h e name.now inputs.now choice progress.now) }
{
    let vi = here.tables.number(name);
    match here.tables.vi(vi) {
        Some(table) => {
            let call = Called {
                line,
                inputs,
                vi,
                panel: table.panel(),
                clones: table.clones(),
            };
            by_progress(alloc, here, &call, choice, progress)
        }
        None => Ok(None),
    }
}

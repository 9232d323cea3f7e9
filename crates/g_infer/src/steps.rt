//! The steps in which types are decided: what a structure gives inside, and what each node gives
//! outside.

ghost use Rattle.std.specs.Prelude.{◌≡◌, ◌++◌, ◌∷◌, [], map, IfOk, OnOk, None};
ghost use Rattle.g_diagram_table.specs.Seen.{seen, seen_arm, seen_part, seen_kind};
ghost use Rattle.g_infer.specs.Steps as spec;
ghost use Rattle.g_infer.specs.Steps.{seen_step};

use g_diagram::{PanelItem, Tunnel, Wire};
use g_diagram_table::{Arm, Entry, Kind, Part};
use g_rules_types::assigned::next_result;
use std::alloc::{AllocError, Global};

/// A step. Each gives types to sources, by the types at the operands that it reads.
#[derive(Clone, Copy)]
pub enum Step<'a> {
    /// The controls of the VI.
    Controls(&'a [PanelItem]),
    /// A node without diagrams inside.
    Plain(&'a Entry<'a>),
    /// The number of a loop's iteration, in its diagram.
    Iteration {
        body: u32,
        wire: &'a Wire,
    },
    /// What the tunnels of a case give in each of its branches.
    Branches {
        outer: u32,
        lines: &'a [Tunnel],
        arms: &'a [Arm<'a>],
    },
    /// What border lines give inside; `before` is the diagram of the frame before.
    Opening {
        outer: u32,
        inner: u32,
        before: Option<u32>,
        lines: &'a [Tunnel],
    },
    /// What the border lines of a loop or of a structure in place give outside.
    Closing {
        entry: &'a Entry<'a>,
        inner: u32,
        lines: &'a [Tunnel],
    },
    /// What a frame gives outside.
    FrameClosing {
        outer: u32,
        inner: u32,
        lines: &'a [Tunnel],
    },
    /// A result of a case, by its number from 0.
    Result {
        outer: u32,
        number: u32,
        arms: &'a [Arm<'a>],
        tunnel: &'a Tunnel,
    },
}

fn push_results<'m>(
    steps: &mut Vec<Step<'m>>,
    outer: u32,
    arms: &'m [Arm<'m>],
    lines: &'m [Tunnel],
) -> Result<(), AllocError>
    ensures { OnOk result (map seen_step steps.new.items ≡ map seen_step steps.old.items ++ spec.results_forms outer 0 (map seen_arm arms.now) lines.now) }
{
    let mut number = 0;
    for tunnel in lines {
        steps.push(Step::Result {
            outer,
            number,
            arms,
            tunnel,
        })?;
        number = next_result(tunnel, number)?;
    }
    Ok(())
}

fn push_parts<'m>(
    steps: &mut Vec<Step<'m>>,
    outer: u32,
    parts: &'m [Part<'m>],
) -> Result<(), AllocError>
    ensures { OnOk result (map seen_step steps.new.items ≡ map seen_step steps.old.items ++ spec.parts_forms outer None (map seen_part parts.now)) }
{
    let mut before = None;
    for part in parts {
        push_part(steps, outer, before, part)?;
        before = Some(part.body);
    }
    Ok(())
}

fn push_part<'m>(
    steps: &mut Vec<Step<'m>>,
    outer: u32,
    before: Option<u32>,
    part: &'m Part<'m>,
) -> Result<(), AllocError>
    ensures { OnOk result (map seen_step steps.new.items
        ≡ map seen_step steps.old.items ++ (spec.Opening outer part.now.body before part.now.lines.now ∷ spec.FrameClosing outer part.now.body part.now.lines.now ∷ [])) }
{
    let inner = part.body;
    let lines = part.lines;
    steps.push(Step::Opening {
        outer,
        inner,
        before,
        lines,
    })?;
    steps.push(Step::FrameClosing {
        outer,
        inner,
        lines,
    })?;
    Ok(())
}

fn push_border<'m>(
    steps: &mut Vec<Step<'m>>,
    entry: &'m Entry<'m>,
    inner: u32,
    lines: &'m [Tunnel],
) -> Result<(), AllocError>
    ensures { OnOk result (map seen_step steps.new.items
        ≡ map seen_step steps.old.items
        ++ spec.border_forms (seen entry.now) inner lines.now) }
{
    let outer = entry.diagram;
    let before = None;
    steps.push(Step::Opening {
        outer,
        inner,
        before,
        lines,
    })?;
    steps.push(Step::Closing {
        entry,
        inner,
        lines,
    })?;
    Ok(())
}

fn push_loop<'m>(
    steps: &mut Vec<Step<'m>>,
    entry: &'m Entry<'m>,
    body: u32,
    wire: &'m Wire,
    lines: &'m [Tunnel],
) -> Result<(), AllocError>
    ensures { OnOk result (map seen_step steps.new.items
        ≡ map seen_step steps.old.items ++ (spec.Iteration body wire.now ∷ spec.border_forms (seen entry.now) body lines.now)) }
{
    steps.push(Step::Iteration { body, wire })?;
    push_border(steps, entry, body, lines)?;
    Ok(())
}

fn push_plain<'m>(steps: &mut Vec<Step<'m>>, entry: &'m Entry<'m>) -> Result<(), AllocError>
    ensures { OnOk result (map seen_step steps.new.items
        ≡ map seen_step steps.old.items ++ (spec.Plain (seen entry.now) ∷ [])) }
{
    steps.push(Step::Plain(entry))?;
    Ok(())
}

/// The steps of a case.
fn push_case<'m>(
    steps: &mut Vec<Step<'m>>,
    outer: u32,
    lines: &'m [Tunnel],
    arms: &'m [Arm<'m>],
) -> Result<(), AllocError>
    ensures { OnOk result (map seen_step steps.new.items
        ≡ map seen_step steps.old.items ++ (spec.Branches outer lines.now (map seen_arm arms.now) ∷ spec.results_forms outer 0 (map seen_arm arms.now) lines.now)) }
{
    steps.push(Step::Branches { outer, lines, arms })?;
    push_results(steps, outer, arms, lines)?;
    Ok(())
}

/// The steps of a node.
fn push_steps<'m>(steps: &mut Vec<Step<'m>>, entry: &'m Entry<'m>) -> Result<(), AllocError>
    ensures { OnOk result (map seen_step steps.new.items
        ≡ map seen_step steps.old.items ++ spec.node_forms (seen entry.now) (seen_kind entry.now.kind)) }
{
    match &entry.kind {
        Kind::Loop {
            iteration,
            lines,
            body,
            ..
        } => push_loop(steps, entry, *body, *iteration, *lines),
        Kind::InPlace { lines, body, .. } => push_border(steps, entry, *body, *lines),
        Kind::Case { lines, arms, .. } => push_case(steps, entry.diagram, *lines, arms.as_slice()),
        Kind::Sequence { parts } => push_parts(steps, entry.diagram, parts.as_slice()),
        Kind::Shows { .. } | Kind::Write { .. } => Ok(()),
        Kind::Const { .. }
        | Kind::Apply { .. }
        | Kind::Shared { .. }
        | Kind::Obtain { .. }
        | Kind::Read { .. }
        | Kind::Call { .. } => push_plain(steps, entry),
    }
}

fn push_all<'m>(steps: &mut Vec<Step<'m>>, entries: &'m [Entry<'m>]) -> Result<(), AllocError>
    ensures { OnOk result (map seen_step steps.new.items ≡ map seen_step steps.old.items ++ spec.entries_forms (map seen entries.now)) }
{
    for entry in entries {
        push_steps(steps, entry)?;
    }
    Ok(())
}

/// The steps of a VI with this panel and these nodes.
pub fn all_steps<'m>(
    alloc: Global,
    panel: &'m [PanelItem],
    entries: &'m [Entry<'m>],
) -> Result<Vec<Step<'m>>, AllocError>
    ensures { IfOk result (λ steps. map seen_step steps.items ≡ spec.vi_forms panel.now (map seen entries.now)) }
{
    let mut steps = Vec::new(alloc);
    steps.push(Step::Controls(panel))?;
    push_all(&mut steps, entries)?;
    Ok(steps)
}

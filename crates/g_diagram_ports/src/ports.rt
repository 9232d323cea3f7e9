//! The ports of a VI.

ghost use Rattle.std.specs.Prelude.{◌≡◌, ◌+◌, ◌++◌, ◌∷◌, [], map, IfOk, OnOk, slice_get};
ghost use Rattle.std.specs.Option.{option_map, option_copied};
ghost use Rattle.g_diagram.specs.Operands as spec;
ghost use Rattle.g_diagram.specs.Ports.{ports_in};
ghost use Rattle.g_diagram_table.specs.Seen as table;
ghost use Rattle.g_diagram_ports.specs.Seen.{seen, seen_operand};
ghost use Rattle.g_diagram_ports.specs.Callees.{is_free_by, freedom_by};
ghost use Rattle.g_diagram_ports.specs.Standing.{StandFor};
ghost use Rattle.g_diagram_ports.specs.Tunnels as tunnels;
ghost use Rattle.g_diagram_ports.specs.Tunnels.{all_outer_lines, outer_border, outer_lines};

use crate::border::{give_operands, in_and_out, loop_header, push_outputs};
use crate::branches::branches_of;
use crate::callee::Callees;
use crate::operand::{Operand, Side, consumer, free_consumer, source};
use crate::port::Port;
use crate::push::{Sides, next, push_border, push_line};
use crate::tunnels::{push_all_first, push_all_looked_up};
use g_diagram::{PanelItem, Tunnel, Vi, Wire};
use g_diagram_table::{Arm, Entry, Kind, Part};
use g_types::Name;
use std::alloc::{AllocError, Global};

fn flag_at(flags: &[bool], at: usize) -> Option<bool>
    ensures { slice_get flags.now at ≡ result }
{
    flags.get(at).copied()
}

/// Whether an input of a call may be left unwired, by whether each control is required.
#[tactic(auto, using(crate::proofs::Optional::optional_at))]
fn is_free(required: Option<&Vec<bool>>, input: usize) -> bool
    ensures { result ≡ is_free_by (option_map (λ v. v.items) (option_copied required.entry)) input }
{
    match required {
        None => true,
        Some(flags) => match flag_at(flags.as_slice(), input) {
            None => false,
            Some(flag) => !flag,
        },
    }
}

fn call_input<'a>(required: Option<&Vec<bool>>, input: usize, wire: &'a Wire) -> Operand<'a>
    ensures { map seen_operand (result ∷ []) ≡ spec.call_inputs (is_free_by (option_map (λ v. v.items) (option_copied required.entry))) input (wire.now ∷ []) }
{
    Operand {
        is_source: false,
        side: Side::Outside,
        is_free: is_free(required, input),
        wire: wire.as_ref(),
    }
}

fn push_inputs<'a>(
    required: Option<&Vec<bool>>,
    operands: &mut Vec<Operand<'a>>,
    inputs: &'a [Wire],
) -> Result<(), AllocError>
    ensures { OnOk result (map seen_operand operands.new.items ≡ map seen_operand operands.old.items ++ spec.call_inputs (is_free_by (option_map (λ v. v.items) (option_copied required.entry))) 0 inputs.now) }
{
    for input in 0..inputs.len() {
        operands.push(call_input(required, input, &inputs[input]))?;
    }
    Ok(())
}

/// The inputs and outputs of a call. An input is free where its control isn't required.
fn call_operands<'a>(
    alloc: Global,
    callees: &Callees<'_>,
    vi: &Name,
    inputs: &'a [Wire],
    outputs: &'a [Wire],
) -> Result<Vec<Operand<'a>>, AllocError>
    ensures { IfOk result (λ operands. map seen_operand operands.items ≡ spec.call_inputs (freedom_by callees.now vi.now) 0 inputs.now ++ map (spec.source spec.Outside) outputs.now) }
{
    let mut operands = Vec::new(alloc);
    push_inputs(callees.get(vi.as_slice()), &mut operands, inputs)?;
    push_outputs(&mut operands, outputs)?;
    Ok(operands)
}

/// The ports of a line that isn't at a border.
#[tactic(auto, using(crate::proofs::Lines::line_ports))]
fn push_plain<'a>(
    ports: &mut Vec<Port<'a>>,
    entry: &Entry<'_>,
    operands: &[Operand<'a>],
) -> Result<(), AllocError>
    ensures { OnOk result (map seen ports.new.items ≡ map seen ports.old.items ++ ports_in (spec.plain_line (table.seen entry.now) (map seen_operand operands.now) ∷ [])) }
{
    let sides = Sides {
        node: entry.line,
        outside: entry.diagram,
        inside: &[],
        before: &[],
    };
    push_line(ports, &sides, entry.line, operands)
}

/// The ports of a loop: of its first line, and of its border.
#[tactic(auto, using(crate::proofs::Lines::one_line))]
fn push_loop<'a>(
    alloc: Global,
    ports: &mut Vec<Port<'a>>,
    entry: &Entry<'_>,
    header: &[Operand<'a>],
    lines: &'a [Tunnel],
    body: u32,
) -> Result<(), AllocError>
    ensures { OnOk result (map seen ports.new.items ≡ map seen ports.old.items
        ++ ports_in (spec.header_line (table.seen entry.now) body (map seen_operand header.now) ∷ spec.border_lines (table.seen entry.now) (body ∷ []) [] spec.border (entry.now.line + 1) lines.now)) }
{
    let inside = [body];
    let sides = Sides {
        node: entry.line,
        outside: entry.diagram,
        inside: &inside,
        before: &[],
    };
    push_line(ports, &sides, entry.line, header)?;
    push_border(
        alloc,
        ports,
        entry,
        &inside,
        &[],
        false,
        next(entry.line)?,
        lines,
    )
}

/// The diagrams of the branches of a case.
fn bodies_of(alloc: Global, arms: &[Arm<'_>]) -> Result<Vec<u32>, AllocError>
    ensures { IfOk result (λ bodies. bodies.items ≡ map (λ a. a.body) (map table.seen_arm arms.now)) }
{
    let mut bodies = Vec::with_capacity(alloc, arms.len())?;
    for arm in arms {
        bodies.push(arm.body)?;
    }
    Ok(bodies)
}

/// The ports of a `give` line.
#[tactic(auto, using(crate::proofs::Lines::line_ports))]
fn push_give<'a>(
    alloc: Global,
    ports: &mut Vec<Port<'a>>,
    entry: &Entry<'_>,
    arm: &Arm<'a>,
) -> Result<(), AllocError>
    ensures { OnOk result (map seen ports.new.items ≡ map seen ports.old.items ++ ports_in (spec.give_line (table.seen entry.now) (table.seen_arm arm.now) ∷ [])) }
{
    let inside = [arm.body];
    let sides = Sides {
        node: entry.line,
        outside: entry.diagram,
        inside: &inside,
        before: &[],
    };
    let operands = give_operands(alloc, arm.gives)?;
    push_line(ports, &sides, next(arm.body)?, operands.as_slice())
}

fn push_gives<'a>(
    alloc: Global,
    ports: &mut Vec<Port<'a>>,
    entry: &Entry<'_>,
    arms: &[Arm<'a>],
) -> Result<(), AllocError>
    ensures { OnOk result (map seen ports.new.items ≡ map seen ports.old.items ++ ports_in (map (spec.give_line (table.seen entry.now)) (map table.seen_arm arms.now))) }
{
    for arm in arms {
        push_give(alloc, ports, entry, arm)?;
    }
    Ok(())
}

/// The ports of a frame's lines, after the diagram of the frame before, if there is one.
fn push_part<'a>(
    alloc: Global,
    ports: &mut Vec<Port<'a>>,
    entry: &Entry<'_>,
    before: &[u32],
    part: &Part<'a>,
) -> Result<(), AllocError>
    ensures { OnOk result (map seen ports.new.items ≡ map seen ports.old.items
        ++ ports_in (spec.border_lines (table.seen entry.now) (part.now.body ∷ []) before.now spec.border (part.now.body + 1) part.now.lines.now)) }
{
    push_border(
        alloc,
        ports,
        entry,
        &[part.body],
        before,
        false,
        next(part.body)?,
        part.lines,
    )
}

/// The ports of a sequence.
#[tactic(auto, using(crate::proofs::Lines::ports_append))]
fn push_parts<'a>(
    alloc: Global,
    ports: &mut Vec<Port<'a>>,
    entry: &Entry<'_>,
    parts: &[Part<'a>],
) -> Result<(), AllocError>
    ensures { OnOk result (map seen ports.new.items ≡ map seen ports.old.items ++ ports_in (spec.parts_lines (table.seen entry.now) [] (map table.seen_part parts.now))) }
{
    let mut before: Vec<u32> = Vec::new(alloc);
    for part in parts {
        push_part(alloc, ports, entry, before.as_slice(), part)?;
        before = vec![in alloc; part.body]?;
    }
    Ok(())
}

fn push_source<'a>(
    ports: &mut Vec<Port<'a>>,
    entry: &Entry<'_>,
    wire: &'a Wire,
) -> Result<(), AllocError>
    ensures { OnOk result (map seen ports.new.items ≡ map seen ports.old.items ++ ports_in (spec.plain_line (table.seen entry.now) (spec.source spec.Outside wire.now ∷ []) ∷ [])) }
{
    push_plain(ports, entry, &[source(Side::Outside, wire)])
}

fn push_consumer<'a>(
    ports: &mut Vec<Port<'a>>,
    entry: &Entry<'_>,
    wire: &'a Wire,
) -> Result<(), AllocError>
    ensures { OnOk result (map seen ports.new.items ≡ map seen ports.old.items ++ ports_in (spec.plain_line (table.seen entry.now) (spec.consumer spec.Outside wire.now ∷ []) ∷ [])) }
{
    push_plain(ports, entry, &[consumer(Side::Outside, wire)])
}

fn push_free_consumer<'a>(
    ports: &mut Vec<Port<'a>>,
    entry: &Entry<'_>,
    wire: &'a Wire,
) -> Result<(), AllocError>
    ensures { OnOk result (map seen ports.new.items ≡ map seen ports.old.items ++ ports_in (spec.plain_line (table.seen entry.now) (spec.free_consumer spec.Outside wire.now ∷ []) ∷ [])) }
{
    push_plain(ports, entry, &[free_consumer(Side::Outside, wire)])
}

/// The border lines and `give` lines of a case.
#[tactic(auto, using(crate::proofs::Lines::ports_append))]
fn push_case<'a>(
    alloc: Global,
    ports: &mut Vec<Port<'a>>,
    entry: &Entry<'_>,
    lines: &'a [Tunnel],
    arms: &[Arm<'a>],
) -> Result<(), AllocError>
    ensures { OnOk result (map seen ports.new.items ≡ map seen ports.old.items ++ ports_in (
        spec.border_lines (table.seen entry.now) (map (λ a. a.body) (map table.seen_arm arms.now)) [] outer_border (entry.now.line + 1) lines.now
        ++ map (spec.give_line (table.seen entry.now)) (map table.seen_arm arms.now))) }
{
    let bodies = bodies_of(alloc, arms)?;
    push_border(
        alloc,
        ports,
        entry,
        bodies.as_slice(),
        &[],
        true,
        next(entry.line)?,
        lines,
    )?;
    push_gives(alloc, ports, entry, arms)?;
    Ok(())
}

/// The ports of the lines of a node.
#[tactic(auto, using(crate::proofs::Lines::one_line))]
fn push_entry<'a>(
    alloc: Global,
    ports: &mut Vec<Port<'a>>,
    callees: &Callees<'_>,
    entry: &Entry<'a>,
) -> Result<(), AllocError>
    ensures { OnOk result (map seen ports.new.items ≡ map seen ports.old.items ++ ports_in (outer_lines (freedom_by callees.now) (table.seen entry.now) (table.seen_kind entry.now.kind))) }
{
    match &entry.kind {
        Kind::Const { out, .. } => push_source(ports, entry, *out),
        Kind::Apply {
            inputs,
            outputs,
            ..
        } => {
            let operands = in_and_out(alloc, *inputs, *outputs)?;
            push_plain(ports, entry, operands.as_slice())
        }
        Kind::Shows { input, .. } => push_free_consumer(ports, entry, *input),
        Kind::Shared {
            inputs,
            outputs,
            ..
        } => {
            let operands = in_and_out(alloc, *inputs, *outputs)?;
            push_plain(ports, entry, operands.as_slice())
        }
        Kind::Obtain { out, .. } => push_source(ports, entry, *out),
        Kind::Read { out, .. } => push_source(ports, entry, *out),
        Kind::Write { input, .. } => push_consumer(ports, entry, *input),
        Kind::Call {
            vi,
            inputs,
            outputs,
        } => {
            let operands = call_operands(alloc, callees, *vi, *inputs, *outputs)?;
            push_plain(ports, entry, operands.as_slice())
        }
        Kind::Loop {
            count,
            stop,
            iteration,
            lines,
            body,
        } => {
            let header = loop_header(alloc, *count, *stop, *iteration)?;
            push_loop(alloc, ports, entry, header.as_slice(), *lines, *body)
        }
        Kind::Case {
            selector,
            lines,
            arms,
        } => {
            push_consumer(ports, entry, *selector)?;
            push_case(alloc, ports, entry, *lines, arms.as_slice())
        }
        Kind::Sequence { parts } => push_parts(alloc, ports, entry, parts.as_slice()),
        Kind::InPlace { lines, body, .. } => push_border(
            alloc,
            ports,
            entry,
            &[*body],
            &[],
            false,
            next(entry.line)?,
            *lines,
        ),
    }
}

#[tactic(auto, using(crate::proofs::Lines::ports_append))]
fn push_entries<'a>(
    alloc: Global,
    ports: &mut Vec<Port<'a>>,
    callees: &Callees<'_>,
    entries: &[Entry<'a>],
) -> Result<(), AllocError>
    ensures { OnOk result (map seen ports.new.items ≡ map seen ports.old.items ++ ports_in (all_outer_lines (freedom_by callees.now) (map table.seen entries.now))) }
{
    for entry in entries {
        push_entry(alloc, ports, callees, entry)?;
    }
    Ok(())
}

/// The port of a control, which gives its value inside the VI's own diagram.
#[tactic(auto, using(crate::proofs::Lines::line_ports))]
fn push_control<'a>(ports: &mut Vec<Port<'a>>, line: u32, out: &'a Wire) -> Result<(), AllocError>
    ensures { OnOk result (map seen ports.new.items ≡ map seen ports.old.items ++ ports_in (spec.control_line line out.now ∷ [])) }
{
    let inside = [0];
    let sides = Sides {
        node: line,
        outside: 0,
        inside: &inside,
        before: &[],
    };
    push_line(ports, &sides, line, &[source(Side::Inside, out)])
}

fn push_item<'a>(
    ports: &mut Vec<Port<'a>>,
    line: u32,
    item: &'a PanelItem,
) -> Result<(), AllocError>
    ensures { OnOk result (map seen ports.new.items ≡ map seen ports.old.items ++ ports_in (spec.control_lines line (item.now ∷ []))) }
{
    match item {
        PanelItem::Control { out, .. } => push_control(ports, line, out),
        PanelItem::Indicator { .. } => Ok(()),
    }
}

#[tactic(auto, using(crate::proofs::Lines::ports_append))]
fn push_panel<'a>(ports: &mut Vec<Port<'a>>, panel: &'a [PanelItem]) -> Result<(), AllocError>
    ensures { OnOk result (map seen ports.new.items ≡ map seen ports.old.items ++ ports_in (spec.control_lines 1 panel.now)) }
{
    let mut line = 1;
    for item in panel {
        push_item(ports, line, item)?;
        line = next(line)?;
    }
    Ok(())
}

/// The ports of a VI, line by line and operand by operand, with a port of an operand inside a structure
/// in each diagram there, but for what tunnels of cases give in branches.
#[tactic(auto, using(crate::proofs::Lines::ports_append))]
fn outer_ports<'a>(
    alloc: Global,
    callees: &Callees<'_>,
    vi: &'a Vi,
    entries: &[Entry<'a>],
) -> Result<Vec<Port<'a>>, AllocError>
    ensures { IfOk result (λ ports. map seen ports.items ≡ tunnels.outer_ports (freedom_by callees.now) vi.now (map table.seen entries.now)) }
{
    let mut ports = Vec::new(alloc);
    push_panel(&mut ports, vi.panel.as_slice())?;
    push_entries(alloc, &mut ports, callees, entries)?;
    Ok(ports)
}

/// The ports of a VI, or fewer that say the same of its wires: what a tunnel of a case gives stands in the
/// first branch, and of the others where the branch has its name, so that `n` tunnels and `m` branches don't
/// make `n` times `m` ports. Only want of memory refuses it, and a line or an operand with a number of 2^32
/// or more, which no place can name, is told so too.
pub fn ports_of<'a>(
    alloc: Global,
    callees: &Callees<'_>,
    vi: &'a Vi,
    entries: &[Entry<'a>],
) -> Result<Vec<Port<'a>>, AllocError>
    ensures { IfOk result (λ ports. StandFor (ports_in (spec.control_lines 1 vi.now.panel ++ spec.entries_lines (freedom_by callees.now) (map table.seen entries.now))) (map seen ports.items)) }
{
    let mut ports = outer_ports(alloc, callees, vi, entries)?;
    let known = branches_of(alloc, entries)?;
    let mut given = Vec::new(alloc);
    push_all_first(&mut given, entries)?;
    push_all_looked_up(&mut given, &known, ports.as_slice())?;
    ports.extend_from_slice(given.as_slice())?;
    Ok(ports)
}

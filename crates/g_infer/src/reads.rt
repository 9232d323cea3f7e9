//! The names that steps read.

ghost use Rattle.std.specs.Prelude.{◌≡◌, ◌++◌, ◌∷◌, [], map, IfOk, OnOk};
ghost use Rattle.std.specs.Option.{option_copied, option_map};
ghost use Rattle.g_diagram_table.specs.Seen.{seen_arm, seen_kind};
ghost use Rattle.g_typing.specs.Types as types;
ghost use Rattle.g_typing.proofs.Local as spec;
ghost use Rattle.g_typing.proofs.Steps.{one_result_reads};
ghost use Rattle.g_infer.specs.Reads.{named, all_named, form_reads, seen_read};
ghost use Rattle.g_infer.specs.Steps.{seen_step};

use crate::steps::Step;
use g_diagram::{Tunnel, Wire};
use g_diagram_table::{Arm, Entry, Kind};
use std::alloc::{AllocError, Global};

/// A name that a step reads in a diagram.
#[derive(Clone, Copy)]
pub struct Read<'a> {
    pub diagram: u32,
    pub name: &'a [u8],
}

fn push<'m>(reads: &mut Vec<Read<'m>>, diagram: u32, wire: &'m Wire) -> Result<(), AllocError>
    ensures { OnOk result (map seen_read reads.new.items ≡ map seen_read reads.old.items ++ named diagram wire.now) }
{
    let Some(name) = wire else {
        return Ok(());
    };
    reads.push(Read {
        diagram,
        name: name.as_slice(),
    })?;
    Ok(())
}

fn push_each<'m>(
    reads: &mut Vec<Read<'m>>,
    diagram: u32,
    wires: &'m [Wire],
) -> Result<(), AllocError>
    ensures { OnOk result (map seen_read reads.new.items ≡ map seen_read reads.old.items ++ all_named (spec.at_diagram diagram wires.now)) }
{
    for wire in wires {
        push(reads, diagram, wire)?;
    }
    Ok(())
}

fn push_first<'m>(
    reads: &mut Vec<Read<'m>>,
    diagram: u32,
    wires: &'m [Wire],
) -> Result<(), AllocError>
    ensures { OnOk result (map seen_read reads.new.items ≡ map seen_read reads.old.items ++ named diagram (types.wire_at wires.now 0)) }
{
    match wires.get(0) {
        None => Ok(()),
        Some(wire) => push(reads, diagram, wire),
    }
}

fn push_carried<'m>(
    reads: &mut Vec<Read<'m>>,
    before: Option<u32>,
    wire: &'m Wire,
) -> Result<(), AllocError>
    ensures { OnOk result (map seen_read reads.new.items ≡ map seen_read reads.old.items ++ all_named (spec.carry_reads before wire.now)) }
{
    match before {
        None => Ok(()),
        Some(diagram) => push(reads, diagram, wire),
    }
}

/// What a border line reads for what it gives inside.
fn push_line_inside<'m>(
    reads: &mut Vec<Read<'m>>,
    outer: u32,
    before: Option<u32>,
    tunnel: &'m Tunnel,
) -> Result<(), AllocError>
    ensures { OnOk result (map seen_read reads.new.items ≡ map seen_read reads.old.items ++ all_named (spec.inside_reads outer before tunnel.now)) }
{
    match tunnel {
        Tunnel::Tunnel { outer: wire, .. } => push(reads, outer, wire),
        Tunnel::Register { initial, .. } => push(reads, outer, initial),
        Tunnel::Index { array, .. } => push(reads, outer, array),
        Tunnel::Carry { before: wire, .. } => push_carried(reads, before, wire),
        Tunnel::Ref { reference, .. } => push(reads, outer, reference),
        Tunnel::Element { array, .. } => push(reads, outer, array),
        Tunnel::Field { cluster, .. } => push(reads, outer, cluster),
        Tunnel::Kept { .. } | Tunnel::Last { .. } | Tunnel::Gather { .. } | Tunnel::Result { .. } =>
            Ok(()),
    }
}

#[tactic(auto, using(crate::proofs::ReadLemmas::named_append))]
fn push_inside<'m>(
    reads: &mut Vec<Read<'m>>,
    outer: u32,
    before: Option<u32>,
    lines: &'m [Tunnel],
) -> Result<(), AllocError>
    ensures { OnOk result (map seen_read reads.new.items ≡ map seen_read reads.old.items ++ all_named (spec.all_inside_reads outer before lines.now)) }
{
    for tunnel in lines {
        push_line_inside(reads, outer, before, tunnel)?;
    }
    Ok(())
}

/// What a border line reads for what it gives outside.
fn push_line_outside<'m>(
    reads: &mut Vec<Read<'m>>,
    outer: u32,
    inner: u32,
    tunnel: &'m Tunnel,
) -> Result<(), AllocError>
    ensures { OnOk result (map seen_read reads.new.items ≡ map seen_read reads.old.items ++ all_named (spec.outside_reads outer inner tunnel.now)) }
{
    match tunnel {
        Tunnel::Last { inner: wire, .. } => push(reads, inner, wire),
        Tunnel::Gather { inner: wire, .. } => push(reads, inner, wire),
        Tunnel::Register { initial, .. } => push(reads, outer, initial),
        Tunnel::Ref { reference, .. } => push(reads, outer, reference),
        Tunnel::Element { array, .. } => push(reads, outer, array),
        Tunnel::Field { cluster, .. } => push(reads, outer, cluster),
        Tunnel::Tunnel { .. }
        | Tunnel::Kept { .. }
        | Tunnel::Index { .. }
        | Tunnel::Result { .. }
        | Tunnel::Carry { .. } => Ok(()),
    }
}

#[tactic(auto, using(crate::proofs::ReadLemmas::named_append))]
fn push_outside<'m>(
    reads: &mut Vec<Read<'m>>,
    outer: u32,
    inner: u32,
    lines: &'m [Tunnel],
) -> Result<(), AllocError>
    ensures { OnOk result (map seen_read reads.new.items ≡ map seen_read reads.old.items ++ all_named (spec.all_outside_reads outer inner lines.now)) }
{
    for tunnel in lines {
        push_line_outside(reads, outer, inner, tunnel)?;
    }
    Ok(())
}

fn push_two<'m>(
    reads: &mut Vec<Read<'m>>,
    diagram: u32,
    first: &'m Wire,
    second: &'m Wire,
) -> Result<(), AllocError>
    ensures { OnOk result (map seen_read reads.new.items ≡ map seen_read reads.old.items ++ all_named ((diagram, first.now) ∷ (diagram, second.now) ∷ [])) }
{
    push(reads, diagram, first)?;
    push(reads, diagram, second)?;
    Ok(())
}

/// What the rule on rows reads of a border line.
fn push_line_misses<'m>(
    reads: &mut Vec<Read<'m>>,
    outer: u32,
    inner: u32,
    tunnel: &'m Tunnel,
) -> Result<(), AllocError>
    ensures { OnOk result (map seen_read reads.new.items ≡ map seen_read reads.old.items ++ all_named (spec.miss_reads outer inner tunnel.now)) }
{
    match tunnel {
        Tunnel::Index { array, .. } => push(reads, outer, array),
        Tunnel::Gather { inner: wire, .. } => push(reads, inner, wire),
        Tunnel::Ref { reference, .. } => push(reads, outer, reference),
        Tunnel::Element { array, index, .. } => push_two(reads, outer, array, index),
        Tunnel::Field { cluster, .. } => push(reads, outer, cluster),
        Tunnel::Tunnel { .. }
        | Tunnel::Register { .. }
        | Tunnel::Kept { .. }
        | Tunnel::Last { .. }
        | Tunnel::Result { .. }
        | Tunnel::Carry { .. } => Ok(()),
    }
}

#[tactic(auto, using(crate::proofs::ReadLemmas::named_append))]
fn push_misses<'m>(
    reads: &mut Vec<Read<'m>>,
    outer: u32,
    inner: u32,
    lines: &'m [Tunnel],
) -> Result<(), AllocError>
    ensures { OnOk result (map seen_read reads.new.items ≡ map seen_read reads.old.items ++ all_named (spec.all_miss_reads outer inner lines.now)) }
{
    for tunnel in lines {
        push_line_misses(reads, outer, inner, tunnel)?;
    }
    Ok(())
}

/// An operand that some forms of a line have.
fn push_optional<'m>(
    reads: &mut Vec<Read<'m>>,
    diagram: u32,
    wire: Option<&'m Wire>,
) -> Result<(), AllocError>
    ensures { OnOk result (map seen_read reads.new.items ≡ map seen_read reads.old.items ++ named diagram (types.or_unwired (option_map (λ w. w.now) wire.entry))) }
{
    match wire {
        None => Ok(()),
        Some(wire) => push(reads, diagram, wire),
    }
}

/// A loop's count outside and its stop wire inside, and what the rule on rows reads of its lines.
fn push_loop<'m>(
    reads: &mut Vec<Read<'m>>,
    outer: u32,
    inner: u32,
    count: Option<&'m Wire>,
    stop: Option<&'m Wire>,
    lines: &'m [Tunnel],
) -> Result<(), AllocError>
    ensures { OnOk result (map seen_read reads.new.items ≡ map seen_read reads.old.items
        ++ all_named ((outer, types.or_unwired (option_map (λ w. w.now) count.entry)) ∷ (inner, types.or_unwired (option_map (λ w. w.now) stop.entry)) ∷ spec.all_miss_reads outer inner lines.now)) }
{
    push_optional(reads, outer, count)?;
    push_optional(reads, inner, stop)?;
    push_misses(reads, outer, inner, lines)?;
    Ok(())
}

/// What the rule on rows reads of a node.
fn push_node<'m>(reads: &mut Vec<Read<'m>>, entry: &'m Entry<'m>) -> Result<(), AllocError>
    ensures { OnOk result (map seen_read reads.new.items ≡ map seen_read reads.old.items ++ all_named (spec.kind_reads entry.now.diagram (seen_kind entry.now.kind))) }
{
    let outer = entry.diagram;
    match &entry.kind {
        Kind::Apply { inputs, .. } => push_each(reads, outer, *inputs),
        Kind::Shared { inputs, .. } => push_first(reads, outer, *inputs),
        Kind::Loop {
            count,
            stop,
            lines,
            body,
            ..
        } => push_loop(reads, outer, *body, *count, *stop, *lines),
        Kind::InPlace { lines, body, .. } => push_misses(reads, outer, *body, *lines),
        _ => Ok(()),
    }
}

fn push_gives<'m>(
    reads: &mut Vec<Read<'m>>,
    number: u32,
    arms: &'m [Arm<'m>],
) -> Result<(), AllocError>
    ensures { OnOk result (map seen_read reads.new.items ≡ map seen_read reads.old.items ++ all_named (spec.result_reads number (map seen_arm arms.now))) }
{
    for arm in arms {
        push_at(reads, arm.body, arm.gives, number as usize)?;
    }
    Ok(())
}

fn name_of<'m>(wire: &'m Wire) -> Option<&'m [u8]>
    ensures { option_copied result ≡ wire.now }
{
    match wire {
        None => None,
        Some(name) => Some(name.as_slice()),
    }
}

/// The name at an operand, by its number from 0.
fn name_at<'m>(wires: &'m [Wire], k: usize) -> Option<&'m [u8]>
    ensures { option_copied result ≡ types.wire_at wires.now k }
{
    match wires.get(k) {
        None => None,
        Some(wire) => name_of(wire),
    }
}

fn push_at<'m>(
    reads: &mut Vec<Read<'m>>,
    diagram: u32,
    wires: &'m [Wire],
    k: usize,
) -> Result<(), AllocError>
    ensures { OnOk result (map seen_read reads.new.items ≡ map seen_read reads.old.items ++ named diagram (types.wire_at wires.now k)) }
{
    push_name(reads, diagram, name_at(wires, k))
}

fn push_name<'m>(
    reads: &mut Vec<Read<'m>>,
    diagram: u32,
    name: Option<&'m [u8]>,
) -> Result<(), AllocError>
    ensures { OnOk result (map seen_read reads.new.items ≡ map seen_read reads.old.items ++ named diagram (option_copied name.entry)) }
{
    let Some(name) = name else {
        return Ok(());
    };
    reads.push(Read { diagram, name })?;
    Ok(())
}

fn push_result<'m>(
    reads: &mut Vec<Read<'m>>,
    number: u32,
    arms: &'m [Arm<'m>],
    tunnel: &'m Tunnel,
) -> Result<(), AllocError>
    ensures { OnOk result (map seen_read reads.new.items ≡ map seen_read reads.old.items ++ all_named (one_result_reads number (map seen_arm arms.now) tunnel.now)) }
{
    match tunnel {
        Tunnel::Result { .. } => push_gives(reads, number, arms),
        _ => Ok(()),
    }
}

fn push_closing<'m>(
    reads: &mut Vec<Read<'m>>,
    entry: &'m Entry<'m>,
    inner: u32,
    lines: &'m [Tunnel],
) -> Result<(), AllocError>
    ensures { OnOk result (map seen_read reads.new.items ≡ map seen_read reads.old.items
        ++ (all_named (spec.kind_reads entry.now.diagram (seen_kind entry.now.kind)) ++ all_named (spec.all_outside_reads entry.now.diagram inner lines.now))) }
{
    push_node(reads, entry)?;
    push_outside(reads, entry.diagram, inner, lines)?;
    Ok(())
}

/// The names that a step reads.
pub fn reads<'m>(alloc: Global, step: Step<'m>) -> Result<Vec<Read<'m>>, AllocError>
    ensures { IfOk result (λ reads. map seen_read reads.items ≡ all_named (form_reads (seen_step step.entry))) }
{
    let mut reads = Vec::new(alloc);
    push_reads(&mut reads, step)?;
    Ok(reads)
}

#[tactic(auto, using(crate::proofs::ReadLemmas::named_append))]
fn push_reads<'m>(reads: &mut Vec<Read<'m>>, step: Step<'m>) -> Result<(), AllocError>
    ensures { OnOk result (map seen_read reads.new.items ≡ map seen_read reads.old.items ++ all_named (form_reads (seen_step step.entry))) }
{
    match step {
        Step::Controls(_) | Step::Iteration { .. } => Ok(()),
        Step::Plain(entry) => push_node(reads, entry),
        Step::Branches { outer, lines, .. } => push_inside(reads, outer, None, lines),
        Step::Opening {
            outer,
            before,
            lines,
            ..
        } => push_inside(reads, outer, before, lines),
        Step::Closing {
            entry,
            inner,
            lines,
        } => push_closing(reads, entry, inner, lines),
        Step::FrameClosing {
            outer,
            inner,
            lines,
        } => push_outside(reads, outer, inner, lines),
        Step::Result {
            number,
            arms,
            tunnel,
            ..
        } => push_result(reads, number, arms, tunnel),
    }
}

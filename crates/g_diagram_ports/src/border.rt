//! The operands of each form of line.

ghost use Rattle.std.specs.Prelude.{◌≡◌, ◌+◌, ◌++◌, map, IfOk, OnOk, false};
ghost use Rattle.std.specs.Option.{option_map};
ghost use Rattle.g_diagram.specs.Operands as spec;
ghost use Rattle.g_diagram_ports.specs.Seen.{seen_operand, form_of};

use crate::operand::{Operand, Side, consumer, free_consumer, source};
use g_diagram::{Tunnel, Wire};
use std::alloc::{AllocError, Global};

/// The operands of a line at the border of a loop, of a frame or of a structure in place.
fn border<'a>(alloc: Global, line: &'a Tunnel) -> Result<Vec<Operand<'a>>, AllocError>
    ensures { IfOk result (λ operands. map seen_operand operands.items ≡ spec.border line.now) }
{
    match line {
        Tunnel::Tunnel { outer, inner } => Ok(vec![in alloc;
            consumer(Side::Outside, outer),
            source(Side::Inside, inner),
        ]?),
        Tunnel::Register {
            initial,
            inner,
            next,
            last,
        } => {
            Ok(vec![in alloc;
                consumer(Side::Outside, initial),
                source(Side::Inside, inner),
                consumer(Side::Inside, next),
                source(Side::Outside, last),
            ]?)
        }
        Tunnel::Kept {
            inner,
            next,
            last,
            ..
        } => {
            let unwired = Operand {
                is_source: false,
                side: Side::Outside,
                is_free: true,
                wire: None,
            };
            Ok(vec![in alloc;
                unwired,
                source(Side::Inside, inner),
                consumer(Side::Inside, next),
                source(Side::Outside, last),
            ]?)
        }
        Tunnel::Last { inner, outer } => Ok(vec![in alloc;
            consumer(Side::Inside, inner),
            source(Side::Outside, outer),
        ]?),
        Tunnel::Gather { inner, outer } => Ok(vec![in alloc;
            consumer(Side::Inside, inner),
            source(Side::Outside, outer),
        ]?),
        Tunnel::Index { array, inner } => Ok(vec![in alloc;
            consumer(Side::Outside, array),
            source(Side::Inside, inner),
        ]?),
        Tunnel::Result { outer, .. } => Ok(vec![in alloc; source(Side::Outside, outer)]?),
        Tunnel::Carry { before, inner } => Ok(vec![in alloc;
            consumer(Side::Before, before),
            source(Side::Inside, inner),
        ]?),
        Tunnel::Ref {
            reference,
            inner,
            next,
            same,
            code,
        } => Ok(vec![in alloc;
            consumer(Side::Outside, reference),
            source(Side::Inside, inner),
            consumer(Side::Inside, next),
            source(Side::Outside, same),
            source(Side::Outside, code),
        ]?),
        Tunnel::Element {
            array,
            index,
            inner,
            next,
            outer,
        } => Ok(vec![in alloc;
            consumer(Side::Outside, array),
            consumer(Side::Outside, index),
            source(Side::Inside, inner),
            consumer(Side::Inside, next),
            source(Side::Outside, outer),
        ]?),
        Tunnel::Field {
            cluster,
            inner,
            next,
            outer,
            ..
        } => Ok(vec![in alloc;
            consumer(Side::Outside, cluster),
            source(Side::Inside, inner),
            consumer(Side::Inside, next),
            source(Side::Outside, outer),
        ]?),
    }
}

/// The operands of a border line, but for what a case's tunnel gives in branches.
pub fn border_operands<'a>(
    alloc: Global,
    in_case: bool,
    line: &'a Tunnel,
) -> Result<Vec<Operand<'a>>, AllocError>
    ensures { IfOk result (λ operands. map seen_operand operands.items ≡ form_of in_case line.now) }
{
    if !in_case {
        return border(alloc, line);
    }
    match line {
        Tunnel::Tunnel { outer, .. } => Ok(vec![in alloc; consumer(Side::Outside, outer)]?),
        Tunnel::Register { .. }
        | Tunnel::Kept { .. }
        | Tunnel::Last { .. }
        | Tunnel::Gather { .. }
        | Tunnel::Index { .. }
        | Tunnel::Result { .. }
        | Tunnel::Carry { .. }
        | Tunnel::Ref { .. }
        | Tunnel::Element { .. }
        | Tunnel::Field { .. } => border(alloc, line),
    }
}

/// The outputs of a node, outside its border.
pub fn push_outputs<'a>(
    operands: &mut Vec<Operand<'a>>,
    outputs: &'a [Wire],
) -> Result<(), AllocError>
    ensures { OnOk result (map seen_operand operands.new.items ≡ map seen_operand operands.old.items ++ map (spec.source spec.Outside) outputs.now) }
{
    for wire in outputs {
        operands.push(source(Side::Outside, wire))?;
    }
    Ok(())
}

/// Inputs and then outputs.
pub fn in_and_out<'a>(
    alloc: Global,
    inputs: &'a [Wire],
    outputs: &'a [Wire],
) -> Result<Vec<Operand<'a>>, AllocError>
    ensures { IfOk result (λ operands. map seen_operand operands.items ≡ spec.in_and_out inputs.now outputs.now) }
{
    let mut operands = Vec::new(alloc);
    for wire in inputs {
        operands.push(consumer(Side::Outside, wire))?;
    }
    push_outputs(&mut operands, outputs)?;
    Ok(operands)
}

/// The first line of a loop: its count from outside, which may be left to arrays, its stop wire inside,
/// and its iteration.
pub fn loop_header<'a>(
    alloc: Global,
    count: Option<&'a Wire>,
    stop: Option<&'a Wire>,
    iteration: &'a Wire,
) -> Result<Vec<Operand<'a>>, AllocError>
    ensures { IfOk result (λ operands. map seen_operand operands.items ≡ spec.loop_header (option_map (λ w. w.now) count.entry) (option_map (λ w. w.now) stop.entry) iteration.now) }
{
    let mut operands = Vec::new(alloc);
    if let Some(count) = count {
        operands.push(free_consumer(Side::Outside, count))?;
    }
    if let Some(stop) = stop {
        operands.push(consumer(Side::Inside, stop))?;
    }
    operands.push(source(Side::Inside, iteration))?;
    Ok(operands)
}

/// What a `give` line gives.
pub fn give_operands<'a>(alloc: Global, gives: &'a [Wire]) -> Result<Vec<Operand<'a>>, AllocError>
    ensures { IfOk result (λ operands. map seen_operand operands.items ≡ map (spec.free_consumer spec.Inside) gives.now) }
{
    let mut operands = Vec::new(alloc);
    for wire in gives {
        operands.push(free_consumer(Side::Inside, wire))?;
    }
    Ok(operands)
}

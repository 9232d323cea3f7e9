//! The reference of a structure in place, and where its other lines give values.

ghost use Rattle.std.specs.Prelude.{◌≡◌, ◌++◌, [], ℕ, is_some, if◌then◌else◌, IfOk, OnOk};
ghost use Rattle.std.specs.Option.{option_map};
ghost use Rattle.g_border.specs.Lines as border;
ghost use Rattle.g_border.specs.Readers.{place_all, sources_on};
ghost use Rattle.g_diagram.specs.Operands as operands;
ghost use Rattle.g_diagram.specs.Operands.{Outside};
ghost use Rattle.g_crossing.specs.Crossing.{seen_reference};
ghost use Rattle.g_crossing.specs.Places.{at_operand};

use crate::values::next;
use g_border::WireSource;
use g_diagram::{Tunnel, Wire};
use g_lists::List;
use std::alloc::{AllocError, Global};

/// A line with a reference: its wire, that of the new value inside, and the places of its outputs, the same
/// reference and the code.
#[derive(Clone, Copy)]
pub struct Reference<'a> {
    pub from: &'a Wire,
    pub next: &'a Wire,
    pub same: WireSource,
    pub code: WireSource,
}

fn reference_on(line: u32, tunnel: &Tunnel) -> Option<Reference<'_>>
    ensures { option_map seen_reference result ≡ border.reference_on line tunnel.now }
{
    match tunnel {
        Tunnel::Ref {
            reference,
            next,
            ..
        } => Some(Reference {
            from: reference,
            next,
            same: WireSource { line, operand: 4 },
            code: WireSource { line, operand: 5 },
        }),
        Tunnel::Tunnel { .. }
        | Tunnel::Register { .. }
        | Tunnel::Kept { .. }
        | Tunnel::Last { .. }
        | Tunnel::Gather { .. }
        | Tunnel::Index { .. }
        | Tunnel::Result { .. }
        | Tunnel::Carry { .. }
        | Tunnel::Element { .. }
        | Tunnel::Field { .. } => None,
    }
}

/// The reference of a structure, of which there is one at most. A line of 2^32 or more, which no listing has, is
/// told as want of memory.
pub fn reference_in(first: u32, lines: &[Tunnel]) -> Result<Option<Reference<'_>>, AllocError>
    ensures { IfOk result (λ r. option_map seen_reference r ≡ border.reference_in first lines.now) }
{
    let mut line = first;
    for tunnel in lines {
        if let Some(reference) = reference_on(line, tunnel) {
            return Ok(Some(reference));
        }
        line = next(line)?;
    }
    Ok(None)
}

/// The operand at which a line gives a value outside, but for a reference.
fn other_operand(tunnel: &Tunnel) -> Option<u32>
    ensures { (l : ℕ) → at_operand l result ≡ (if is_some (border.reference_on l tunnel.now) then [] else place_all l (sources_on Outside 1 (operands.border tunnel.now))) }
{
    match tunnel {
        Tunnel::Result { .. } => Some(1),
        Tunnel::Last { .. } | Tunnel::Gather { .. } => Some(2),
        Tunnel::Register { .. } | Tunnel::Kept { .. } | Tunnel::Field { .. } => Some(4),
        Tunnel::Element { .. } => Some(5),
        Tunnel::Tunnel { .. } | Tunnel::Index { .. } | Tunnel::Carry { .. } | Tunnel::Ref { .. } =>
            None,
    }
}

fn push_place(
    places: &mut List<WireSource>,
    line: u32,
    operand: Option<u32>,
) -> Result<(), AllocError>
    ensures { OnOk result (places.new ≡ places.old ++ at_operand line operand) }
{
    if let Some(operand) = operand {
        places.push(WireSource { line, operand })?;
    }
    Ok(())
}

/// Where lines, from one on, give values outside, but for a reference. Only want of memory refuses it, or a line
/// of 2^32 or more.
pub fn other_places(
    alloc: Global,
    first: u32,
    lines: &[Tunnel],
) -> Result<List<WireSource>, AllocError>
    ensures { IfOk result (λ g. g ≡ border.other_places first lines.now) }
{
    let mut places = List::new(alloc);
    let mut line = first;
    for tunnel in lines {
        push_place(&mut places, line, other_operand(tunnel))?;
        line = next(line)?;
    }
    Ok(places)
}

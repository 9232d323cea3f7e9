//! The wires that steps read.

ghost use Rattle.std.specs.Prelude.{◌≡◌, ◌∷◌, ◌++◌, [], map, OnOk};
ghost use Rattle.std.specs.Option.{option_map};
ghost use Rattle.g_border.specs.Bodies.{in_diagram, arms_read};
ghost use Rattle.g_border.specs.Readers.{wires_taken};
ghost use Rattle.g_diagram.specs.Operands.{Inside, Outside, border};
ghost use Rattle.g_diagram_table.specs.Seen.{seen_arm};
ghost use Rattle.g_bodies.specs.Steps.{seen_read, taken_inside, taken_outside};

use g_diagram::{Tunnel, Wire};
use g_diagram_table::Arm;
use std::alloc::AllocError;

/// Wires, each with the line of its diagram.
pub type Reads<'m> = Vec<(u32, Option<&'m [u8]>)>;

/// The name of a wire, where an operand has one.
fn name_of(wire: &Wire) -> Option<&[u8]>
    ensures { option_map (λ name. name.now) result ≡ wire.now }
{
    match wire {
        Some(name) => Some(name.as_slice()),
        None => None,
    }
}

/// Adds a wire of a diagram.
pub fn push_wire<'m>(reads: &mut Reads<'m>, diagram: u32, wire: &'m Wire) -> Result<(), AllocError>
    ensures { OnOk result (map seen_read reads.new.items ≡ map seen_read reads.old.items ++ (diagram, wire.now) ∷ []) }
{
    reads.push((diagram, name_of(wire)))?;
    Ok(())
}

/// Adds wires of a diagram.
pub fn push_wires<'m>(
    reads: &mut Reads<'m>,
    diagram: u32,
    wires: &'m [Wire],
) -> Result<(), AllocError>
    ensures { OnOk result (map seen_read reads.new.items ≡ map seen_read reads.old.items ++ in_diagram diagram wires.now) }
{
    for wire in wires {
        push_wire(reads, diagram, wire)?;
    }
    Ok(())
}

/// Adds what the branches of a case give.
pub fn push_arms<'m>(reads: &mut Reads<'m>, arms: &[Arm<'m>]) -> Result<(), AllocError>
    ensures { OnOk result (map seen_read reads.new.items ≡ map seen_read reads.old.items ++ arms_read (map seen_arm arms.now)) }
{
    for arm in arms {
        push_wires(reads, arm.body, arm.gives)?;
    }
    Ok(())
}

/// Adds what a border line takes from outside.
fn push_outside<'m>(
    reads: &mut Reads<'m>,
    diagram: u32,
    tunnel: &'m Tunnel,
) -> Result<(), AllocError>
    ensures { OnOk result (map seen_read reads.new.items ≡ map seen_read reads.old.items ++ in_diagram diagram (wires_taken Outside (border tunnel.now))) }
{
    match tunnel {
        Tunnel::Tunnel { outer, .. } => push_wire(reads, diagram, outer)?,
        Tunnel::Register { initial, .. } => push_wire(reads, diagram, initial)?,
        Tunnel::Index { array, .. } => push_wire(reads, diagram, array)?,
        Tunnel::Ref { reference, .. } => push_wire(reads, diagram, reference)?,
        Tunnel::Element { array, index, .. } => {
            push_wire(reads, diagram, array)?;
            push_wire(reads, diagram, index)?;
        }
        Tunnel::Field { cluster, .. } => push_wire(reads, diagram, cluster)?,
        Tunnel::Kept { .. } => reads.push((diagram, None))?,
        Tunnel::Last { .. }
        | Tunnel::Gather { .. }
        | Tunnel::Result { .. }
        | Tunnel::Carry { .. } => {}
    }
    Ok(())
}

/// Adds what a border line takes from inside.
fn push_inside<'m>(
    reads: &mut Reads<'m>,
    diagram: u32,
    tunnel: &'m Tunnel,
) -> Result<(), AllocError>
    ensures { OnOk result (map seen_read reads.new.items ≡ map seen_read reads.old.items ++ in_diagram diagram (wires_taken Inside (border tunnel.now))) }
{
    match tunnel {
        Tunnel::Register { next, .. }
        | Tunnel::Kept { next, .. }
        | Tunnel::Ref { next, .. }
        | Tunnel::Element { next, .. }
        | Tunnel::Field { next, .. } => push_wire(reads, diagram, next)?,
        Tunnel::Last { inner, .. } | Tunnel::Gather { inner, .. } => push_wire(
            reads, diagram, inner,
        )?,
        Tunnel::Tunnel { .. }
        | Tunnel::Index { .. }
        | Tunnel::Result { .. }
        | Tunnel::Carry { .. } => {}
    }
    Ok(())
}

/// Adds what border lines take from outside.
pub fn push_all_outside<'m>(
    reads: &mut Reads<'m>,
    diagram: u32,
    lines: &'m [Tunnel],
) -> Result<(), AllocError>
    ensures { OnOk result (map seen_read reads.new.items ≡ map seen_read reads.old.items ++ in_diagram diagram (taken_outside lines.now)) }
{
    for tunnel in lines {
        push_outside(reads, diagram, tunnel)?;
    }
    Ok(())
}

/// Adds what border lines take from inside.
pub fn push_all_inside<'m>(
    reads: &mut Reads<'m>,
    diagram: u32,
    lines: &'m [Tunnel],
) -> Result<(), AllocError>
    ensures { OnOk result (map seen_read reads.new.items ≡ map seen_read reads.old.items ++ in_diagram diagram (taken_inside lines.now)) }
{
    for tunnel in lines {
        push_inside(reads, diagram, tunnel)?;
    }
    Ok(())
}

//! The ports of lines.

ghost use Rattle.std.specs.Prelude.{◌≡◌, ◌+◌, ◌++◌, [], map, IfOk, OnOk, None};
ghost use Rattle.g_diagram.specs.Operands as spec;
ghost use Rattle.g_diagram.specs.Ports.{port, ports_on, ports_in};
ghost use Rattle.g_diagram_ports.specs.Seen.{seen, seen_side, seen_operand, form_of};
ghost use Rattle.g_diagram_ports.specs.Sides.{line_by, ports_by};
ghost use Rattle.g_diagram_table.specs.Seen as table;

use crate::border::border_operands;
use crate::operand::{Operand, Side};
use crate::port::Port;
use g_diagram::Tunnel;
use g_diagram_table::Entry;
use std::alloc::{AllocError, Global};

/// A node with the diagrams on the sides of its border.
#[derive(Clone, Copy)]
pub struct Sides<'b> {
    pub node: u32,
    pub outside: u32,
    pub inside: &'b [u32],
    pub before: &'b [u32],
}

/// The next line or operand. Want of memory tells that there is none, since no place has such a number.
pub fn next(n: u32) -> Result<u32, AllocError>
    ensures { IfOk result (λ m. m ≡ n + 1) }
{
    n.checked_add(1).ok_or(AllocError)
}

fn port_of<'a>(
    sides: &Sides,
    line: u32,
    operand: u32,
    form: &Operand<'a>,
    node: Option<u32>,
    diagram: u32,
) -> Port<'a>
    ensures { seen result ≡ port (line_by sides.now line []) operand (seen_operand form.now) node diagram }
{
    Port {
        line,
        operand,
        diagram,
        node,
        is_source: form.is_source,
        is_free: form.is_free,
        wire: form.wire,
    }
}

/// An operand once in each of some diagrams.
fn push_each<'a>(
    ports: &mut Vec<Port<'a>>,
    sides: &Sides,
    line: u32,
    operand: u32,
    form: &Operand<'a>,
    diagrams: &[u32],
) -> Result<(), AllocError>
    ensures { OnOk result (map seen ports.new.items ≡ map seen ports.old.items ++ map (port (line_by sides.now line []) operand (seen_operand form.now) None) diagrams.now) }
{
    for diagram in diagrams {
        ports.push(port_of(sides, line, operand, form, None, *diagram))?;
    }
    Ok(())
}

fn push_operand<'a>(
    ports: &mut Vec<Port<'a>>,
    sides: &Sides,
    line: u32,
    operand: u32,
    form: &Operand<'a>,
) -> Result<(), AllocError>
    ensures { OnOk result (map seen ports.new.items ≡ map seen ports.old.items ++ ports_on (seen_side form.now.side) (line_by sides.now line []) operand (seen_operand form.now)) }
{
    match form.side {
        Side::Outside => {
            ports.push(port_of(sides, line, operand, form, Some(sides.node), sides.outside))?;
            Ok(())
        }
        Side::Inside => push_each(ports, sides, line, operand, form, sides.inside),
        Side::Before => push_each(ports, sides, line, operand, form, sides.before),
    }
}

/// The ports of one line.
pub fn push_line<'a>(
    ports: &mut Vec<Port<'a>>,
    sides: &Sides,
    line: u32,
    operands: &[Operand<'a>],
) -> Result<(), AllocError>
    ensures { OnOk result (map seen ports.new.items ≡ map seen ports.old.items ++ ports_by sides.now line 1 (map seen_operand operands.now)) }
{
    let mut operand = 1;
    for form in operands {
        push_operand(ports, sides, line, operand, form)?;
        operand = next(operand)?;
    }
    Ok(())
}

/// The ports of the border lines of a node, from a line on.
#[tactic(auto, using(crate::proofs::Lines::line_ports))]
pub fn push_border<'a>(
    alloc: Global,
    ports: &mut Vec<Port<'a>>,
    entry: &Entry<'_>,
    inside: &[u32],
    before: &[u32],
    in_case: bool,
    first: u32,
    lines: &'a [Tunnel],
) -> Result<(), AllocError>
    ensures { OnOk result (map seen ports.new.items ≡ map seen ports.old.items ++ ports_in (spec.border_lines (table.seen entry.now) inside.now before.now (form_of in_case) first lines.now)) }
{
    let sides = Sides {
        node: entry.line,
        outside: entry.diagram,
        inside,
        before,
    };
    let mut line = first;
    for tunnel in lines {
        let operands = border_operands(alloc, in_case, tunnel)?;
        push_line(ports, &sides, line, operands.as_slice())?;
        line = next(line)?;
    }
    Ok(())
}

//! What tunnels of cases give in branches, where a rule can see it.

ghost use Rattle.std.specs.Prelude.{◌≡◌, ◌+◌, ◌++◌, ◌∷◌, [], map, Some, OnOk};
ghost use Rattle.g_diagram_table.specs.Seen as table;
ghost use Rattle.g_diagram_ports.specs.Branches.{look_in};
ghost use Rattle.g_diagram_ports.specs.Seen.{seen, seen_wire};
ghost use Rattle.g_diagram_ports.specs.Tunnels as spec;

use crate::branches::{Branches, tunnel_line};
use crate::port::Port;
use crate::push::next;
use g_diagram::{Tunnel, Wire};
use g_diagram_table::{Arm, Entry, Kind};
use g_types::Name;
use std::alloc::AllocError;

/// What the tunnel of a line gives in a branch.
fn tunnel_port<'a>(line: u32, diagram: u32, wire: Option<&'a Name>) -> Port<'a>
    ensures { seen result ≡ spec.tunnel_port line diagram (seen_wire wire.entry) }
{
    Port {
        line,
        operand: 2,
        diagram,
        node: None,
        is_source: true,
        is_free: true,
        wire,
    }
}

fn push_wire<'a>(
    ports: &mut Vec<Port<'a>>,
    diagram: u32,
    line: u32,
    inner: &'a Wire,
) -> Result<(), AllocError>
    ensures { OnOk result (map seen ports.new.items ≡ map seen ports.old.items ++ (spec.tunnel_port line diagram inner.now ∷ [])) }
{
    ports.push(tunnel_port(line, diagram, inner.as_ref()))?;
    Ok(())
}

fn push_tunnel<'a>(
    ports: &mut Vec<Port<'a>>,
    diagram: u32,
    line: u32,
    tunnel: &'a Tunnel,
) -> Result<(), AllocError>
    ensures { OnOk result (map seen ports.new.items ≡ map seen ports.old.items ++ spec.tunnels_in diagram line (tunnel.now ∷ [])) }
{
    match tunnel {
        Tunnel::Tunnel { inner, .. } => push_wire(ports, diagram, line, inner),
        Tunnel::Register { .. }
        | Tunnel::Kept { .. }
        | Tunnel::Last { .. }
        | Tunnel::Gather { .. }
        | Tunnel::Index { .. }
        | Tunnel::Result { .. }
        | Tunnel::Carry { .. }
        | Tunnel::Ref { .. }
        | Tunnel::Element { .. }
        | Tunnel::Field { .. } => Ok(()),
    }
}

/// All tunnels of a case in one branch, from a line on.
fn push_tunnels<'a>(
    ports: &mut Vec<Port<'a>>,
    diagram: u32,
    first: u32,
    tunnels: &'a [Tunnel],
) -> Result<(), AllocError>
    ensures { OnOk result (map seen ports.new.items ≡ map seen ports.old.items ++ spec.tunnels_in diagram first tunnels.now) }
{
    let mut line = first;
    for tunnel in tunnels {
        push_tunnel(ports, diagram, line, tunnel)?;
        line = next(line)?;
    }
    Ok(())
}

fn push_in_first<'a>(
    ports: &mut Vec<Port<'a>>,
    line: u32,
    tunnels: &'a [Tunnel],
    arms: &[Arm<'a>],
) -> Result<(), AllocError>
    ensures { OnOk result (map seen ports.new.items ≡ map seen ports.old.items ++ spec.in_first (line + 1) tunnels.now (map table.seen_arm arms.now)) }
{
    match arms.first() {
        None => Ok(()),
        Some(arm) => push_tunnels(ports, arm.body, next(line)?, tunnels),
    }
}

fn push_first<'a>(ports: &mut Vec<Port<'a>>, entry: &Entry<'a>) -> Result<(), AllocError>
    ensures { OnOk result (map seen ports.new.items ≡ map seen ports.old.items ++ spec.first_tunnels entry.now.line (table.seen_kind entry.now.kind)) }
{
    match &entry.kind {
        Kind::Case { lines, arms, .. } => {
            push_in_first(ports, entry.line, *lines, arms.as_slice())
        }
        Kind::Const { .. }
        | Kind::Apply { .. }
        | Kind::Shows { .. }
        | Kind::Shared { .. }
        | Kind::Obtain { .. }
        | Kind::Read { .. }
        | Kind::Write { .. }
        | Kind::Call { .. }
        | Kind::Loop { .. }
        | Kind::Sequence { .. }
        | Kind::InPlace { .. } => Ok(()),
    }
}

/// The tunnels of each case in its first branch.
pub fn push_all_first<'a>(
    ports: &mut Vec<Port<'a>>,
    entries: &[Entry<'a>],
) -> Result<(), AllocError>
    ensures { OnOk result (map seen ports.new.items ≡ map seen ports.old.items ++ spec.all_first_tunnels (map table.seen entries.now)) }
{
    for entry in entries {
        push_first(ports, entry)?;
    }
    Ok(())
}

fn push_line<'a>(
    ports: &mut Vec<Port<'a>>,
    diagram: u32,
    name: &'a Name,
    line: Option<u32>,
) -> Result<(), AllocError>
    ensures { OnOk result (map seen ports.new.items ≡ map seen ports.old.items ++ spec.line_ports diagram (Some name.now) line) }
{
    match line {
        None => Ok(()),
        Some(line) => {
            ports.push(tunnel_port(line, diagram, Some(name)))?;
            Ok(())
        }
    }
}

/// The tunnel that the name of a port means.
fn push_looked_up<'a>(
    ports: &mut Vec<Port<'a>>,
    known: &Branches<'_>,
    port: &Port<'a>,
) -> Result<(), AllocError>
    ensures { OnOk result (map seen ports.new.items ≡ map seen ports.old.items ++ spec.looked_up (look_in known.now) port.now.diagram (seen_wire port.now.wire)) }
{
    match port.wire {
        None => Ok(()),
        Some(name) => {
            let line = tunnel_line(known, port.diagram, name.as_slice());
            push_line(ports, port.diagram, name, line)
        }
    }
}

/// The tunnels that the names of some ports mean.
pub fn push_all_looked_up<'a>(
    ports: &mut Vec<Port<'a>>,
    known: &Branches<'_>,
    outer: &[Port<'a>],
) -> Result<(), AllocError>
    ensures { OnOk result (map seen ports.new.items ≡ map seen ports.old.items ++ spec.all_looked_up (look_in known.now) (map seen outer.now)) }
{
    for port in outer {
        push_looked_up(ports, known, port)?;
    }
    Ok(())
}

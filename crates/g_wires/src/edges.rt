//! The graph of nodes and wires of a VI: a vertex for each line and each wire, an edge for each operand
//! of a node.

ghost use Rattle.std.specs.Prelude.{◌≡◌, ◌<◌, ◌≤◌, ◌+◌, ◌^◌, ◌||◌, ℕ, length, IfOk, OnOk, All};
ghost use Rattle.std.specs.List.{list_any};
ghost use Rattle.g_graph.specs.Graph.{has_edge, InRange};
ghost use Rattle.g_wires.specs.Marks.{is_edge, WireBelow, NodeBelow};

use crate::coded::Coded;
use g_graph::edges::{add_edge, bare};
use std::alloc::{AllocError, Global};

/// A line after all those of nodes that have a port.
pub fn lines_of(ports: &[Coded]) -> Result<u32, AllocError>
    ensures { IfOk result (λ lines. All (NodeBelow lines) ports.now) }
{
    let mut lines = 0;
    for port in ports {
        lines = past(lines, port)?;
    }
    Ok(lines)
}

fn past(lines: u32, port: &Coded) -> Result<u32, AllocError>
    ensures above { IfOk result (λ more. lines ≤ more) }
    ensures below { IfOk result (λ more. NodeBelow more port.now) }
{
    match port.node {
        None => Ok(lines),
        Some(node) => {
            let next = node.checked_add(1).ok_or(AllocError)?;
            Ok(lines.max(next))
        }
    }
}

/// Adds the edge of a port, if it has one: a node leads to the wires that it gives, and a wire to the
/// nodes that take it.
fn add_port(
    graph: &mut Vec<Vec<usize>>,
    lines: usize,
    count: usize,
    port: &Coded,
) -> Result<(), AllocError>
    requires wires { WireBelow count port.now }
    requires nodes { NodeBelow lines port.now }
    requires fits { lines + count ≡ length graph.old.items }
    requires in_range { InRange graph.old.items }
    ensures len { length graph.new.items ≡ length graph.old.items }
    ensures in_range { OnOk result (InRange graph.new.items) }
    ensures edges { OnOk result ((a b : ℕ) → has_edge graph.new.items a b ≡ (has_edge graph.old.items a b || is_edge lines a b port.now)) }
{
    match (port.node, port.wire) {
        (Some(node), Some(wire)) => {
            let (node, wire) = (node as usize, lines + wire);
            if port.is_source {
                add_edge(graph, node, wire)
            } else {
                add_edge(graph, wire, node)
            }
        }
        _ => Ok(()),
    }
}

/// The graph of ports: the lines are its first vertices, and then come the wires.
pub fn graph_of(
    alloc: Global,
    lines: usize,
    count: usize,
    ports: &[Coded],
) -> Result<Vec<Vec<usize>>, AllocError>
    requires wires { All (WireBelow count) ports.now }
    requires nodes { All (NodeBelow lines) ports.now }
    requires small { lines + count < 2 ^ 64 }
    ensures len { IfOk result (λ graph. length graph.items ≡ lines + count) }
    ensures in_range { IfOk result (λ graph. InRange graph.items) }
    ensures edges { IfOk result (λ graph. (a b : ℕ) → has_edge graph.items a b ≡ list_any (is_edge lines a b) ports.now) }
{
    let mut graph = bare(alloc, lines + count)?;
    for port in ports {
        add_port(&mut graph, lines, count, port)?;
    }
    Ok(graph)
}

//! Graphs made edge by edge.

ghost use Rattle.std.specs.Prelude.{◌≡◌, ◌<◌, ◌&&◌, ◌||◌, ◌==◌, ℕ, false, length, IfOk, OnOk};
ghost use Rattle.g_graph.specs.Graph.{has_edge, InRange};

use std::alloc::{AllocError, Global};

/// A graph of so many nodes without an edge.
pub fn bare(alloc: Global, count: usize) -> Result<Vec<Vec<usize>>, AllocError>
    ensures len { IfOk result (λ graph. length graph.items ≡ count) }
    ensures in_range { IfOk result (λ graph. InRange graph.items) }
    ensures edges { IfOk result (λ graph. (a b : ℕ) → has_edge graph.items a b ≡ false) }
{
    let mut graph = Vec::with_capacity(alloc, count)?;
    for _node in 0..count {
        graph.push(Vec::new(alloc))?;
    }
    Ok(graph)
}

/// Adds an edge between two nodes.
pub fn add_edge(graph: &mut Vec<Vec<usize>>, from: usize, to: usize) -> Result<(), AllocError>
    requires from { from < length graph.old.items }
    requires to { to < length graph.old.items }
    requires in_range { InRange graph.old.items }
    ensures len { length graph.new.items ≡ length graph.old.items }
    ensures in_range { OnOk result (InRange graph.new.items) }
    ensures edges { OnOk result ((a b : ℕ) → has_edge graph.new.items a b ≡ (has_edge graph.old.items a b || ((from == a) && (to == b)))) }
{
    graph[from].push(to)?;
    Ok(())
}

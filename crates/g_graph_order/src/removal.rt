//! An order by taking away edges: a node is put into it once no edge to it is left.

ghost use Rattle.std.specs.Prelude.{◌≡◌, ℕ, ◌+◌, ◌<◌, ◌≤◌, ◌==◌, cond, length, sum, IfOk, OnOk, IfSome, IsNone, []};
ghost use Rattle.std.specs.List.{list_all};
ghost use Rattle.g_graph.specs.Graph.{RowInRange, InRange};
ghost use Rattle.g_graph_order.specs.Order.{times, at, free, waits, IsOrder, HasCycle, row_at};

use std::alloc::{AllocError, Global};

/// Counts an edge at the node to which it leads. A count that passes its type's end would need more memory than there is.
fn count_edge(node: usize, counts: &mut Vec<usize>) -> Result<(), AllocError>
    requires { node < length counts.old.items }
    ensures len { length counts.new.items ≡ length counts.old.items }
    ensures counts { OnOk result ((b : ℕ) → at counts.new.items b ≡ at counts.old.items b + cond (node == b) 1 0) }
{
    match counts[node].checked_add(1) {
        None => Err(AllocError),
        Some(count) => {
            counts[node] = count;
            Ok(())
        }
    }
}

/// Counts the edges of a row.
fn count_row(row: &[usize], counts: &mut Vec<usize>) -> Result<(), AllocError>
    requires { RowInRange (length counts.old.items) row.now }
    ensures len { length counts.new.items ≡ length counts.old.items }
    ensures counts { OnOk result ((b : ℕ) → at counts.new.items b ≡ at counts.old.items b + times row.now b) }
{
    for node in row {
        count_edge(*node, counts)?;
    }
    Ok(())
}

/// Of each node how many edges lead to it.
fn count_edges(alloc: Global, graph: &[Vec<usize>]) -> Result<Vec<usize>, AllocError>
    requires { InRange graph.now }
    ensures len { IfOk result (λ counts. length counts.items ≡ length graph.now) }
    ensures counts { IfOk result (λ counts. (b : ℕ) → b < length graph.now → at counts.items b ≡ waits [] graph.now b) }
{
    let mut counts = vec![in alloc; 0; graph.len()]?;
    for row in graph {
        count_row(row.as_slice(), &mut counts)?;
    }
    Ok(counts)
}

/// Appends a node if no edge leads to it.
fn push_free(node: usize, counts: &[usize], nodes: &mut Vec<usize>) -> Result<(), AllocError>
    requires { node < length counts.now }
    ensures { OnOk result ((b : ℕ) → times nodes.new.items b ≡ times nodes.old.items b + cond (node == b) (free counts.now node) 0) }
{
    if counts[node] == 0 {
        nodes.push(node)?;
    }
    Ok(())
}

/// The nodes to which no edge leads.
fn free_nodes(alloc: Global, counts: &[usize]) -> Result<Vec<usize>, AllocError>
    ensures { IfOk result (λ nodes. (b : ℕ) → times nodes.items b ≡ free counts.now b) }
{
    let mut nodes = Vec::new(alloc);
    for node in 0..counts.len() {
        push_free(node, counts, &mut nodes)?;
    }
    Ok(nodes)
}

/// Takes an edge to a node away, and stacks the node if that was the last.
fn release(node: usize, counts: &mut Vec<usize>, stack: &mut Vec<usize>) -> Result<(), AllocError>
    requires range { node < length counts.old.items }
    requires waits { 0 < at counts.old.items node }
    ensures len { length counts.new.items ≡ length counts.old.items }
    ensures counts { OnOk result ((b : ℕ) → at counts.new.items b + cond (node == b) 1 0 ≡ at counts.old.items b) }
    ensures stack { OnOk result ((b : ℕ) → times stack.new.items b + free counts.old.items b ≡ times stack.old.items b + free counts.new.items b) }
    ensures total { OnOk result (sum counts.new.items + length stack.new.items ≤ sum counts.old.items + length stack.old.items) }
{
    counts[node] -= 1;
    if counts[node] == 0 {
        stack.push(node)?;
    }
    Ok(())
}

/// Takes the edges of a row away.
fn release_row(
    row: &[usize],
    counts: &mut Vec<usize>,
    stack: &mut Vec<usize>,
) -> Result<(), AllocError>
    requires range { RowInRange (length counts.old.items) row.now }
    requires waits { (b : ℕ) → b < length counts.old.items → times row.now b ≤ at counts.old.items b }
    ensures len { length counts.new.items ≡ length counts.old.items }
    ensures counts { OnOk result ((b : ℕ) → at counts.new.items b + times row.now b ≡ at counts.old.items b) }
    ensures stack { OnOk result ((b : ℕ) → times stack.new.items b + free counts.old.items b ≡ times stack.old.items b + free counts.new.items b) }
    ensures total { OnOk result (sum counts.new.items + length stack.new.items ≤ sum counts.old.items + length stack.old.items) }
{
    for node in row {
        release(*node, counts, stack)?;
    }
    Ok(())
}

/// Takes the edges from a node away.
fn release_from(
    node: usize,
    graph: &[Vec<usize>],
    counts: &mut Vec<usize>,
    stack: &mut Vec<usize>,
) -> Result<(), AllocError>
    requires graph { InRange graph.now }
    requires len { length counts.old.items ≡ length graph.now }
    requires waits { (b : ℕ) → b < length counts.old.items → times (row_at graph.now node) b ≤ at counts.old.items b }
    ensures len { length counts.new.items ≡ length counts.old.items }
    ensures counts { OnOk result ((b : ℕ) → at counts.new.items b + times (row_at graph.now node) b ≡ at counts.old.items b) }
    ensures stack { OnOk result ((b : ℕ) → times stack.new.items b + free counts.old.items b ≡ times stack.old.items b + free counts.new.items b) }
    ensures total { OnOk result (sum counts.new.items + length stack.new.items ≤ sum counts.old.items + length stack.old.items) }
{
    match graph.get(node) {
        None => Ok(()),
        Some(row) => release_row(row.as_slice(), counts, stack),
    }
}

/// Whether no edge is left.
fn are_zero(counts: &[usize]) -> bool
    ensures { result ≡ list_all (λ count. count == 0) counts.now }
{
    counts.iter().all(|count| *count == 0)
}

/// The nodes of a graph in an order in which each edge leads from an earlier to a later one: each node stands in it once. There is none
/// exactly where some node leads to itself. The row of a node has the nodes to which its edges lead, as often as it has edges to them.
/// Only want of memory is an error.
pub fn order(alloc: Global, graph: &[Vec<usize>]) -> Result<Option<Vec<usize>>, AllocError>
    requires { InRange graph.now }
    ensures found { IfOk result (λ found. IfSome found (λ nodes. IsOrder graph.now nodes.items)) }
    ensures none { IfOk result (λ found. IsNone found → HasCycle graph.now) }
{
    let mut counts = count_edges(alloc, graph)?;
    let mut stack = free_nodes(alloc, counts.as_slice())?;
    let mut nodes = Vec::new(alloc);
    while let Some(node) = stack.pop() {
        nodes.push(node)?;
        release_from(node, graph, &mut counts, &mut stack)?;
    }
    if are_zero(counts.as_slice()) {
        Ok(Some(nodes))
    } else {
        Ok(None)
    }
}

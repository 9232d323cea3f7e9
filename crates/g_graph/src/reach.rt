//! What a graph's edges lead to.

ghost use Rattle.std.specs.Prelude.{◌≡◌, ℕ, true, false, ◌+◌, ◌<◌, ◌||◌, ◌==◌, length, IfOk, OnOk};
ghost use Rattle.g_diagram.specs.Leads.{Leads};
ghost use Rattle.g_graph.specs.Graph.{has, has_edge, RowInRange, InRange, is_marked, unmarked, stacked, is_fresh};

use std::alloc::{AllocError, Global};

/// Marks a node, and stacks it if it wasn't marked.
fn mark(node: usize, marks: &mut Vec<bool>, stack: &mut Vec<usize>) -> Result<(), AllocError>
    requires { node < length marks.old.items }
    ensures len { length marks.new.items ≡ length marks.old.items }
    ensures marks { OnOk result ((b : ℕ) → is_marked marks.new.items b ≡ (is_marked marks.old.items b || node == b)) }
    ensures stack { OnOk result (stack.new.items ≡ stacked (is_marked marks.old.items node) stack.old.items node) }
    ensures count { OnOk result (unmarked marks.new.items + length stack.new.items ≡ unmarked marks.old.items + length stack.old.items) }
{
    if !marks[node] {
        marks[node] = true;
        stack.push(node)?;
    }
    Ok(())
}

/// Marks the nodes of a row, and stacks those that weren't marked.
fn visit(row: &[usize], marks: &mut Vec<bool>, stack: &mut Vec<usize>) -> Result<(), AllocError>
    requires { RowInRange (length marks.old.items) row.now }
    ensures len { length marks.new.items ≡ length marks.old.items }
    ensures marks { OnOk result ((b : ℕ) → is_marked marks.new.items b ≡ (is_marked marks.old.items b || has row.now b)) }
    ensures stack { OnOk result ((b : ℕ) → has stack.new.items b ≡ (has stack.old.items b || is_fresh marks.old.items marks.new.items b)) }
    ensures count { OnOk result (unmarked marks.new.items + length stack.new.items ≡ unmarked marks.old.items + length stack.old.items) }
{
    for node in row {
        mark(*node, marks, stack)?;
    }
    Ok(())
}

/// Marks what one step leads to, and stacks what wasn't marked.
fn visit_from(
    node: usize,
    graph: &[Vec<usize>],
    marks: &mut Vec<bool>,
    stack: &mut Vec<usize>,
) -> Result<(), AllocError>
    requires graph { InRange graph.now }
    requires len { length marks.old.items ≡ length graph.now }
    ensures len { length marks.new.items ≡ length marks.old.items }
    ensures marks { OnOk result ((b : ℕ) → is_marked marks.new.items b ≡ (is_marked marks.old.items b || has_edge graph.now node b)) }
    ensures stack { OnOk result ((b : ℕ) → has stack.new.items b ≡ (has stack.old.items b || is_fresh marks.old.items marks.new.items b)) }
    ensures count { OnOk result (unmarked marks.new.items + length stack.new.items ≡ unmarked marks.old.items + length stack.old.items) }
{
    match graph.get(node) {
        None => Ok(()),
        Some(row) => visit(row.as_slice(), marks, stack),
    }
}

/// The nodes to which one step or more lead from a node.
pub fn reach(alloc: Global, graph: &[Vec<usize>], from: usize) -> Result<Vec<bool>, AllocError>
    requires { InRange graph.now }
    ensures len { IfOk result (λ marks. length marks.items ≡ length graph.now) }
    ensures sound { IfOk result (λ marks. (b : ℕ) → is_marked marks.items b ≡ true → Leads (has_edge graph.now) from b) }
    ensures complete { IfOk result (λ marks. (b : ℕ) → Leads (has_edge graph.now) from b → is_marked marks.items b ≡ true) }
{
    let mut marks = vec![in alloc; false; graph.len()]?;
    let mut stack: Vec<usize> = Vec::new(alloc);
    visit_from(from, graph, &mut marks, &mut stack)?;
    while let Some(node) = stack.pop() {
        visit_from(node, graph, &mut marks, &mut stack)?;
    }
    Ok(marks)
}

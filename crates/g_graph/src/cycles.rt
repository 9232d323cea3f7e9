//! Which nodes of a graph lead to themselves.

ghost use Rattle.std.specs.Prelude.{◌≡◌, ◌⊎◌, true, false, ◌<◌, length, IfSome, IfOk, IsTrue, slice_get, Some};
ghost use Rattle.g_diagram.specs.Leads.{Leads};
ghost use Rattle.g_graph.specs.Graph.{has, has_edge, InRange, TellsCycles, Enters, Leaves, Turns};
ghost use Rattle.g_graph.specs.Hints.{is_on, root_of, near_of, far_of, NodeShown, AreShown, RowFalls, StepFalls};

use crate::find::guess;
use crate::hint::Hint;
use crate::reach::reach;
use std::alloc::{AllocError, Global};

/// The node at a place of a row.
#[tactic(auto, using(crate::proofs::Search::has_at))]
fn item_at(row: &[usize], at: usize) -> Option<usize>
    ensures { IfSome result (λ to. has row.now to ≡ true) }
{
    match row.get(at) {
        None => None,
        Some(to) => Some(*to),
    }
}

/// The node to which a step at a place of a node's row leads.
pub fn edge_at(graph: &[Vec<usize>], from: usize, at: usize) -> Option<usize>
    ensures { IfSome result (λ to. has_edge graph.now from to ≡ true) }
{
    match graph.get(from) {
        None => None,
        Some(row) => item_at(row.as_slice(), at),
    }
}

/// Whether a node has a step from one nearer to their root, as its hint says.
fn enters(graph: &[Vec<usize>], hints: &[Hint], node: usize, hint: Hint) -> bool
    requires { slice_get hints.now node ≡ Some hint }
    ensures { IsTrue result → (root_of hints.now node ≡ node) ⊎ Enters (has_edge graph.now) (is_on hints.now) (root_of hints.now) (near_of hints.now) node }
{
    if hint.root == node {
        return true;
    }
    match (
        edge_at(graph, hint.enter, hint.enter_at),
        hints.get(hint.enter),
    ) {
        (Some(to), Some(before)) => to == node
            && before.is_on
            && before.root == hint.root
            && before.near < hint.near,
        _ => false,
    }
}

/// Whether a node has a step to one nearer to their root, as its hint says.
fn leaves(graph: &[Vec<usize>], hints: &[Hint], node: usize, hint: Hint) -> bool
    requires { slice_get hints.now node ≡ Some hint }
    ensures { IsTrue result → (root_of hints.now node ≡ node) ⊎ Leaves (has_edge graph.now) (is_on hints.now) (root_of hints.now) (far_of hints.now) node }
{
    if hint.root == node {
        return true;
    }
    match edge_at(graph, node, hint.leave_at) {
        None => false,
        Some(to) => match hints.get(to) {
            None => false,
            Some(after) => after.is_on && after.root == hint.root && after.far < hint.far,
        },
    }
}

/// Whether a root has a step to a node of its own.
fn turns(graph: &[Vec<usize>], hints: &[Hint], node: usize, hint: Hint) -> bool
    requires { slice_get hints.now node ≡ Some hint }
    ensures { IsTrue result → root_of hints.now node ≡ node → Turns (has_edge graph.now) (is_on hints.now) (root_of hints.now) node }
{
    if hint.root != node {
        return true;
    }
    match edge_at(graph, node, hint.leave_at) {
        None => false,
        Some(to) => match hints.get(to) {
            None => false,
            Some(after) => after.is_on && after.root == node,
        },
    }
}

/// The hint of a node.
fn hint_at(hints: &[Hint], node: usize) -> Option<Hint>
    ensures { slice_get hints.now node ≡ result }
{
    hints.get(node).copied()
}

/// Whether a node is said to be on a cycle.
fn is_on_at(hints: &[Hint], node: usize) -> bool
    ensures { is_on hints.now node ≡ result }
{
    match hint_at(hints, node) {
        None => false,
        Some(hint) => hint.is_on,
    }
}

/// Whether a step leads no higher, and lower from a node that isn't on a cycle.
fn step_falls(before: Hint, after: Hint) -> bool
    ensures { IsTrue result → StepFalls before after.rank }
{
    if before.is_on {
        after.rank <= before.rank
    } else {
        after.rank < before.rank
    }
}

/// Whether the steps of a row lead no higher than its node.
fn row_falls(hints: &[Hint], row: &[usize], hint: Hint) -> bool
    ensures { IsTrue result → RowFalls hints.now hint row.now }
{
    for to in row {
        match hint_at(hints, *to) {
            None => return false,
            Some(after) => {
                if !step_falls(hint, after) {
                    return false;
                }
            }
        }
    }
    true
}

/// Whether a node has what its hint says.
fn node_shows(graph: &[Vec<usize>], hints: &[Hint], node: usize) -> bool
    ensures { IsTrue result → NodeShown graph.now hints.now node }
{
    match (graph.get(node), hints.get(node)) {
        (Some(row), Some(hint)) => {
            if !row_falls(hints, row.as_slice(), *hint) {
                return false;
            }
            if !hint.is_on {
                return true;
            }
            enters(graph, hints, node, *hint)
                && leaves(graph, hints, node, *hint)
                && turns(graph, hints, node, *hint)
        }
        _ => false,
    }
}

/// Whether the hints show which nodes lead to themselves.
pub fn shows(graph: &[Vec<usize>], hints: &[Hint]) -> bool
    requires { length hints.now ≡ length graph.now }
    ensures { IsTrue result → AreShown graph.now hints.now }
{
    for node in 0..graph.len() {
        if !node_shows(graph, hints, node) {
            return false;
        }
    }
    true
}

/// Whether a node leads to itself, by a search of its own.
fn turns_back(alloc: Global, graph: &[Vec<usize>], node: usize) -> Result<bool, AllocError>
    requires { InRange graph.now }
    ensures sound { IfOk result (λ turns. turns ≡ true → Leads (has_edge graph.now) node node) }
    ensures complete { IfOk result (λ turns. Leads (has_edge graph.now) node node → turns ≡ true) }
{
    let marks = reach(alloc, graph, node)?;
    match marks.get(node) {
        None => Ok(false),
        Some(mark) => Ok(*mark),
    }
}

/// By one search a node.
fn search_each(alloc: Global, graph: &[Vec<usize>]) -> Result<Vec<bool>, AllocError>
    requires { InRange graph.now }
    ensures { IfOk result (λ marks. TellsCycles graph.now (length graph.now) marks.items) }
{
    let mut marks = Vec::new(alloc);
    for node in 0..graph.len() {
        marks.push(turns_back(alloc, graph, node)?)?;
    }
    Ok(marks)
}

/// By hints that were checked.
fn from_hints(alloc: Global, graph: &[Vec<usize>], hints: &[Hint]) -> Result<Vec<bool>, AllocError>
    requires { AreShown graph.now hints.now }
    ensures { IfOk result (λ marks. TellsCycles graph.now (length hints.now) marks.items) }
{
    let mut marks = Vec::new(alloc);
    for node in 0..hints.len() {
        marks.push(is_on_at(hints, node))?;
    }
    Ok(marks)
}

/// Which nodes lead to themselves. The hints save time where they are right, and change no answer.
fn checked_cycles(
    alloc: Global,
    graph: &[Vec<usize>],
    hints: &[Hint],
) -> Result<Vec<bool>, AllocError>
    requires { InRange graph.now }
    ensures { IfOk result (λ marks. TellsCycles graph.now (length graph.now) marks.items) }
{
    if hints.len() != graph.len() {
        return search_each(alloc, graph);
    }
    if shows(graph, hints) {
        return from_hints(alloc, graph, hints);
    }
    search_each(alloc, graph)
}

/// Which nodes lead to themselves.
pub fn cycles(alloc: Global, graph: &[Vec<usize>]) -> Result<Vec<bool>, AllocError>
    requires { InRange graph.now }
    ensures { IfOk result (λ marks. TellsCycles graph.now (length graph.now) marks.items) }
{
    let hints = guess(alloc, graph)?;
    checked_cycles(alloc, graph, hints.as_slice())
}

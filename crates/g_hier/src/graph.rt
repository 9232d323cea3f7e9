//! The graph of calls: a vertex for each VI, by its number, and after them one for each call line. A VI leads
//! to its call lines, and a call line to the VI that it calls. So a call line leads to itself exactly where
//! the VI that it calls reaches the VI that holds it.

ghost use Rattle.std.specs.Prelude.{◌≡◌, ◌<◌, ◌+◌, ◌^◌, ◌++◌, ◌||◌, ℕ, length, map, All, IfOk, OnOk};
ghost use Rattle.g_graph.specs.Graph.{has_edge, InRange};
ghost use Rattle.g_hier.specs.CallGraph.{held, held_from, EndsBelow, is_edge, edges};

use crate::linked::{CallLine, Outline};
use g_graph::edges::{add_edge, bare};
use std::alloc::{AllocError, Global};

/// A call line with the VI that holds it and the VI that it calls.
#[derive(Clone, Copy, Debug)]
pub struct HeldCall {
    pub holder: u32,
    pub line: u32,
    pub called: u32,
}

/// A number of a VI. 2^32 VIs, of which no place can name the last, are told as want of memory.
pub fn number(vi: usize) -> Result<u32, AllocError>
    ensures { IfOk result (λ n. n ≡ vi) }
{
    u32::try_from(vi).ok().ok_or(AllocError)
}

/// Adds the call lines of a VI.
fn push_held(holder: u32, calls: &[CallLine], all: &mut Vec<HeldCall>) -> Result<(), AllocError>
    ensures { OnOk result (all.new.items ≡ all.old.items ++ map (held holder) calls.now) }
{
    for call in calls {
        all.push(HeldCall {
            holder,
            line: call.line,
            called: call.vi,
        })?;
    }
    Ok(())
}

/// The call lines of all VIs, by VI and line.
pub fn held_calls(alloc: Global, outlines: &[Outline]) -> Result<Vec<HeldCall>, AllocError>
    ensures { IfOk result (λ all. all.items ≡ held_from 0 outlines.now) }
{
    let mut all = Vec::new(alloc);
    for vi in 0..outlines.len() {
        push_held(number(vi)?, outlines[vi].calls.as_slice(), &mut all)?;
    }
    Ok(all)
}

/// Adds the edges of a call line, whose vertex is given.
fn add_call(graph: &mut Vec<Vec<usize>>, vertex: usize, call: HeldCall) -> Result<(), AllocError>
    requires vertex { vertex < length graph.old.items }
    requires ends { EndsBelow (length graph.old.items) call }
    requires in_range { InRange graph.old.items }
    ensures len { length graph.new.items ≡ length graph.old.items }
    ensures in_range { OnOk result (InRange graph.new.items) }
    ensures edges { OnOk result ((a b : ℕ) → has_edge graph.new.items a b ≡ (has_edge graph.old.items a b || is_edge vertex call a b)) }
{
    add_edge(graph, call.holder as usize, vertex)?;
    add_edge(graph, vertex, call.called as usize)
}

/// The graph of so many VIs and their call lines.
pub fn graph_of(
    alloc: Global,
    count: usize,
    calls: &[HeldCall],
) -> Result<Vec<Vec<usize>>, AllocError>
    requires ends { All (EndsBelow count) calls.now }
    requires small { count < 2 ^ 63 }
    ensures len { IfOk result (λ graph. length graph.items ≡ count + length calls.now) }
    ensures in_range { IfOk result (λ graph. InRange graph.items) }
    ensures edges { IfOk result (λ graph. (a b : ℕ) → has_edge graph.items a b ≡ edges count calls.now a b) }
{
    let mut graph = bare(alloc, count + calls.len())?;
    for at in 0..calls.len() {
        add_call(&mut graph, count + at, calls[at])?;
    }
    Ok(graph)
}

//! Rule 19: the call lines that lead back to the VI that holds them.

ghost use Rattle.std.specs.Prelude.{◌≡◌, ◌+◌, ◌++◌, length, IfOk, OnOk};
ghost use Rattle.g_graph.specs.Graph.{is_marked};
ghost use Rattle.g_hier.specs.Outlines.{AreKnown};
ghost use Rattle.g_rules_breaks.specs.Breaks.{ListsEach};
ghost use Rattle.g_hier.specs.Recursion.{IsRecursion};
ghost use Rattle.g_hier.specs.CallGraph.{break_if, breaks_from};

use crate::graph::{HeldCall, graph_of, held_calls};
use crate::linked::Outline;
use g_diagram::{Break, Place};
use g_graph::cycles::cycles;
use g_rules_breaks::listed;
use std::alloc::{AllocError, Global};

/// Adds the break of a call line, if it leads back.
fn push_break(leads_back: bool, call: HeldCall, breaks: &mut Vec<Break>) -> Result<(), AllocError>
    ensures { OnOk result (breaks.new.items ≡ breaks.old.items ++ break_if leads_back call) }
{
    if leads_back {
        let place = Place {
            vi: call.holder,
            line: call.line,
            operand: 0,
        };
        breaks.push(Break { place, rule: 19 })?;
    }
    Ok(())
}

/// The breaks of the call lines that are marked, where the first has a number.
fn marked_breaks(
    alloc: Global,
    first: usize,
    marks: &[bool],
    calls: &[HeldCall],
) -> Result<Vec<Break>, AllocError>
    requires { length marks.now ≡ first + length calls.now }
    ensures { IfOk result (λ bs. bs.items ≡ breaks_from (is_marked marks.now) first calls.now) }
{
    let mut breaks = Vec::new(alloc);
    for at in 0..calls.len() {
        push_break(marks[first + at], calls[at], &mut breaks)?;
    }
    Ok(breaks)
}

/// All breaks of rule 19, in order: each call line whose VI reaches the VI that holds the line. Only
/// want of memory refuses it, as which 2^32 VIs are told too.
pub fn recursions_of(alloc: Global, outlines: &[Outline]) -> Result<Vec<Break>, AllocError>
    requires { AreKnown outlines.now }
    ensures { IfOk result (λ bs. ListsEach (IsRecursion outlines.now) bs.items) }
{
    let calls = held_calls(alloc, outlines)?;
    let graph = graph_of(alloc, outlines.len(), calls.as_slice())?;
    let marks = cycles(alloc, graph.as_slice())?;
    let breaks = marked_breaks(alloc, outlines.len(), marks.as_slice(), calls.as_slice())?;
    let found = listed(alloc, breaks.as_slice())?;
    Ok(found)
}

//! Rule 1 over ports whose wires are numbers: consumers without a source.

ghost use Rattle.std.specs.Prelude.{◌≡◌, ◌++◌, ◌||◌, ℕ, length, IfOk, OnOk, All};
ghost use Rattle.std.specs.List.{list_any};
ghost use Rattle.g_wires.specs.Marks.{gives, is_marked, lacks_mark, has_no_source, coded_breaks, WireBelow};

use crate::coded::{Coded, push_break};
use crate::marks::is_unmarked_at;
use g_diagram::Break;
use std::alloc::{AllocError, Global};

fn mark_source(marks: &mut [bool], port: &Coded)
    requires { WireBelow (length marks.old) port.now }
    ensures { (w : ℕ) → is_marked marks.new w ≡ (is_marked marks.old w || gives w port.now) }
{
    if !port.is_source {
        return;
    }
    if let Some(wire) = port.wire {
        marks[wire] = true;
    }
}

/// Of each wire, whether it has a source.
fn mark_sources(alloc: Global, count: usize, ports: &[Coded]) -> Result<Vec<bool>, AllocError>
    requires { All (WireBelow count) ports.now }
    ensures { IfOk result (λ marks. (w : ℕ) → is_marked marks.items w ≡ list_any (gives w) ports.now) }
{
    let mut marks = vec![in alloc; false; count]?;
    for port in ports {
        mark_source(marks.as_mut_slice(), port);
    }
    Ok(marks)
}

fn is_unsourced(marks: &[bool], port: &Coded) -> bool
    ensures { result ≡ lacks_mark marks.now port.now }
{
    if port.is_source {
        return false;
    }
    is_unmarked_at(marks, port.wire)
}

fn push_marked_sources(
    vi: u32,
    marks: &[bool],
    ports: &[Coded],
    breaks: &mut Vec<Break>,
) -> Result<(), AllocError>
    ensures { OnOk result (breaks.new.items ≡ breaks.old.items ++ coded_breaks vi 1 (lacks_mark marks.now) ports.now) }
{
    for port in ports {
        if is_unsourced(marks, port) {
            push_break(vi, 1, port, breaks)?;
        }
    }
    Ok(())
}

/// Adds the breaks of rule 1: each consumer whose wire has no source.
pub fn push_unsourced(
    alloc: Global,
    vi: u32,
    count: usize,
    ports: &[Coded],
    breaks: &mut Vec<Break>,
) -> Result<(), AllocError>
    requires { All (WireBelow count) ports.now }
    ensures { OnOk result (breaks.new.items ≡ breaks.old.items ++ coded_breaks vi 1 (has_no_source ports.now) ports.now) }
{
    let marks = mark_sources(alloc, count, ports)?;
    push_marked_sources(vi, marks.as_slice(), ports, breaks)?;
    Ok(())
}

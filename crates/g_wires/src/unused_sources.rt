//! Rule 3 over ports whose wires are numbers: sources without a consumer.

ghost use Rattle.std.specs.Prelude.{◌≡◌, ◌++◌, ◌||◌, ℕ, length, IfOk, OnOk, All};
ghost use Rattle.std.specs.List.{list_any};
ghost use Rattle.g_wires.specs.Marks.{takes, is_marked, lacks_taker, has_no_consumer, coded_breaks, WireBelow};

use crate::coded::{Coded, push_break};
use crate::marks::is_unmarked_at;
use g_diagram::Break;
use std::alloc::{AllocError, Global};

fn mark_consumer(marks: &mut [bool], port: &Coded)
    requires { WireBelow (length marks.old) port.now }
    ensures { (w : ℕ) → is_marked marks.new w ≡ (is_marked marks.old w || takes w port.now) }
{
    if port.is_source {
        return;
    }
    if let Some(wire) = port.wire {
        marks[wire] = true;
    }
}

/// Of each wire, whether it has a consumer.
fn mark_consumers(alloc: Global, count: usize, ports: &[Coded]) -> Result<Vec<bool>, AllocError>
    requires { All (WireBelow count) ports.now }
    ensures { IfOk result (λ marks. (w : ℕ) → is_marked marks.items w ≡ list_any (takes w) ports.now) }
{
    let mut marks = vec![in alloc; false; count]?;
    for port in ports {
        mark_consumer(marks.as_mut_slice(), port);
    }
    Ok(marks)
}

fn is_unused(marks: &[bool], port: &Coded) -> bool
    ensures { result ≡ lacks_taker marks.now port.now }
{
    if !port.is_source {
        return false;
    }
    if port.is_free {
        return false;
    }
    is_unmarked_at(marks, port.wire)
}

fn push_marked_consumers(
    vi: u32,
    marks: &[bool],
    ports: &[Coded],
    breaks: &mut Vec<Break>,
) -> Result<(), AllocError>
    ensures { OnOk result (breaks.new.items ≡ breaks.old.items ++ coded_breaks vi 3 (lacks_taker marks.now) ports.now) }
{
    for port in ports {
        if is_unused(marks, port) {
            push_break(vi, 3, port, breaks)?;
        }
    }
    Ok(())
}

/// Adds the breaks of rule 3: each source whose wire has no consumer, but for those of a case's tunnels.
pub fn push_unused(
    alloc: Global,
    vi: u32,
    count: usize,
    ports: &[Coded],
    breaks: &mut Vec<Break>,
) -> Result<(), AllocError>
    requires { All (WireBelow count) ports.now }
    ensures { OnOk result (breaks.new.items ≡ breaks.old.items ++ coded_breaks vi 3 (has_no_consumer ports.now) ports.now) }
{
    let marks = mark_consumers(alloc, count, ports)?;
    push_marked_consumers(vi, marks.as_slice(), ports, breaks)?;
    Ok(())
}

//! The rules on names, over ports whose wires are numbers.

ghost use Rattle.std.specs.Prelude.{◌≡◌, ◌++◌, OnOk, All};
ghost use Rattle.g_wires.specs.Marks.{coded_named, WireBelow};

use crate::coded::Coded;
use crate::missing_sources::push_unsourced;
use crate::second_sources::push_repeated;
use crate::unused_sources::push_unused;
use crate::unwired::push_unwired;
use g_diagram::Break;
use std::alloc::{AllocError, Global};

/// Adds the breaks of rules 1 to 4.
pub fn push_named(
    alloc: Global,
    vi: u32,
    count: usize,
    ports: &[Coded],
    breaks: &mut Vec<Break>,
) -> Result<(), AllocError>
    requires { All (WireBelow count) ports.now }
    ensures { OnOk result (breaks.new.items ≡ breaks.old.items ++ coded_named vi ports.now) }
{
    push_unsourced(alloc, vi, count, ports, breaks)?;
    push_repeated(alloc, vi, count, ports, breaks)?;
    push_unused(alloc, vi, count, ports, breaks)?;
    push_unwired(vi, ports, breaks)?;
    Ok(())
}

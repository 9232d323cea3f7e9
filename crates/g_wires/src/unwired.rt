//! Rule 4 over ports whose wires are numbers: consumers without a wire.

ghost use Rattle.std.specs.Prelude.{◌≡◌, ◌++◌, OnOk};
ghost use Rattle.g_wires.specs.Marks.{has_no_wire, coded_breaks};

use crate::coded::{Coded, push_break};
use g_diagram::Break;
use std::alloc::AllocError;

fn is_missing(port: &Coded) -> bool
    ensures { result ≡ has_no_wire port.now }
{
    if port.is_source {
        return false;
    }
    if port.is_free {
        return false;
    }
    port.wire.is_none()
}

/// Adds the breaks of rule 4: each consumer without a wire that isn't free.
pub fn push_unwired(vi: u32, ports: &[Coded], breaks: &mut Vec<Break>) -> Result<(), AllocError>
    ensures { OnOk result (breaks.new.items ≡ breaks.old.items ++ coded_breaks vi 4 has_no_wire ports.now) }
{
    for port in ports {
        if is_missing(port) {
            push_break(vi, 4, port, breaks)?;
        }
    }
    Ok(())
}

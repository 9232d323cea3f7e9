//! What calls need to know of the VIs that they call.

ghost use Rattle.std.specs.Prelude.{◌≡◌, ℕ, List as TheList, IfOk, OnOk};
ghost use Rattle.g_diagram.specs.Ports.{required_controls, first_vi};
ghost use Rattle.g_diagram_ports.specs.Callees.{required_in, required_of, flags_of};

use g_diagram::{PanelItem, Vi};
use std::alloc::{AllocError, Global};
use std::collections::BTreeMap;

/// Of each name of a VI, whether each control of the first VI of that name is required.
pub type Callees<'a> = BTreeMap<&'a [u8], Vec<bool>>;

/// Whether each control is required.
fn required_flags(alloc: Global, panel: &[PanelItem]) -> Result<Vec<bool>, AllocError>
    ensures { IfOk result (λ flags. flags.items ≡ required_controls panel.now) }
{
    let mut flags = Vec::new(alloc);
    for item in panel {
        if let PanelItem::Control { required, .. } = item {
            flags.push(*required)?;
        }
    }
    Ok(flags)
}

fn add_vi<'a>(alloc: Global, callees: &mut Callees<'a>, vi: &'a Vi) -> Result<(), AllocError>
    ensures { OnOk result ((name : TheList ℕ) → required_in callees.new name ≡ required_of (required_in callees.old name) vi.now name) }
{
    let name = vi.name.as_slice();
    if callees.contains_key(&name) {
        return Ok(());
    }
    let flags = required_flags(alloc, vi.panel.as_slice())?;
    callees.insert(name, flags)?;
    Ok(())
}

/// The VIs that calls mean: the first of each name.
pub fn callees<'a>(alloc: Global, vis: &'a [Vi]) -> Result<Callees<'a>, AllocError>
    ensures { IfOk result (λ callees. (name : TheList ℕ) → required_in callees name ≡ flags_of (first_vi vis.now name)) }
{
    let mut callees = BTreeMap::new(alloc);
    for vi in vis {
        add_vi(alloc, &mut callees, vi)?;
    }
    Ok(callees)
}

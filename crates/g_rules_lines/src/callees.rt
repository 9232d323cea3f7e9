//! How many controls and indicators the VIs have that calls mean.

ghost use Rattle.std.specs.Prelude.{◌≡◌, ◌+◌, ℕ, List as TheList, IfOk, OnOk};
ghost use Rattle.std.specs.Option.{option_map};
ghost use Rattle.g_rules_lines.specs.Callees as spec;
ghost use Rattle.g_rules_lines.specs.Names.{arity_in, arity_after, seen_arity};

use g_diagram::{PanelItem, Vi};
use g_types::Name;
use std::alloc::{AllocError, Global};
use std::collections::BTreeMap;

/// How many controls and indicators a VI has.
#[derive(Clone, Copy, Debug)]
pub struct Arity {
    pub controls: usize,
    pub indicators: usize,
}

/// Of each name of a VI, the arity of the first VI of that name.
pub type Arities<'a> = BTreeMap<&'a [u8], Arity>;

fn is_control(item: &PanelItem) -> bool
    ensures { result ≡ spec.is_control item.now }
{
    match item {
        PanelItem::Control { .. } => true,
        PanelItem::Indicator { .. } => false,
    }
}

fn control_count(panel: &[PanelItem]) -> usize
    ensures { result ≡ spec.control_count panel.now }
{
    let mut count = 0;
    for item in panel {
        if is_control(item) {
            count += 1;
        }
    }
    count
}

fn indicator_count(panel: &[PanelItem]) -> usize
    ensures { result ≡ spec.indicator_count panel.now }
{
    let mut count = 0;
    for item in panel {
        if !is_control(item) {
            count += 1;
        }
    }
    count
}

fn add_vi<'a>(known: &mut Arities<'a>, vi: &'a Vi) -> Result<(), AllocError>
    ensures { OnOk result ((name : TheList ℕ) → arity_in known.new name ≡ arity_after (arity_in known.old name) vi.now name) }
{
    let name = vi.name.as_slice();
    if known.contains_key(&name) {
        return Ok(());
    }
    let arity = Arity {
        controls: control_count(vi.panel.as_slice()),
        indicators: indicator_count(vi.panel.as_slice()),
    };
    known.insert(name, arity)?;
    Ok(())
}

/// The arities of the VIs that calls mean: the first of each name.
pub fn arities<'a>(alloc: Global, vis: &'a [Vi]) -> Result<Arities<'a>, AllocError>
    ensures { IfOk result (λ known. (name : TheList ℕ) → arity_in known name ≡ spec.arities vis.now name) }
{
    let mut known = BTreeMap::new(alloc);
    for vi in vis {
        add_vi(&mut known, vi)?;
    }
    Ok(known)
}

/// The arity of the VI that a call of this name means.
pub fn arity_of(known: &Arities<'_>, name: &Name) -> Option<Arity>
    ensures { option_map seen_arity result ≡ arity_in known.now name.now }
{
    known.get(name.as_slice()).copied()
}

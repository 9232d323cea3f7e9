//! What calls and local variables mean.

ghost use Rattle.std.specs.Prelude.{◌≡◌, ℕ, List as TheList, IfOk, OnOk, Some, None, if◌then◌else◌};
ghost use Rattle.std.specs.Option.{option_map, option_or, option_copied};
ghost use Rattle.std.specs.Str.{bytes_eq};
ghost use Rattle.g_diagram.specs.Ports.{first_vi};
ghost use Rattle.g_typing.specs.Typing as spec;
ghost use Rattle.g_rules_types.specs.Panels.{panel_in, callees_in, objects_in};

use g_diagram::{PanelItem, Vi};
use g_types::{Name, Ty};
use std::alloc::{AllocError, Global};
use std::collections::BTreeMap;

/// The panel of the first VI of each name.
pub type Panels<'a> = BTreeMap<&'a [u8], &'a [PanelItem]>;

/// The type of the first panel object of each name.
pub type ObjectTypes<'a> = BTreeMap<&'a [u8], &'a Ty>;

fn add_panel<'a>(
    panels: &mut Panels<'a>,
    name: &'a [u8],
    panel: &'a [PanelItem],
) -> Result<(), AllocError>
    ensures { OnOk result ((other : TheList ℕ) → panel_in panels.new other ≡ option_or (panel_in panels.old other) (if bytes_eq name.now other then Some panel.now else None)) }
{
    if panels.contains_key(&name) {
        return Ok(());
    }
    panels.insert(name, panel)?;
    Ok(())
}

/// The panels that calls mean.
pub fn panels<'a>(alloc: Global, vis: &'a [Vi]) -> Result<Panels<'a>, AllocError>
    ensures { IfOk result (λ panels. (name : TheList ℕ) → panel_in panels name ≡ option_map (λ vi. vi.panel) (first_vi vis.now name)) }
{
    let mut panels = BTreeMap::new(alloc);
    for vi in vis {
        add_panel(&mut panels, vi.name.as_slice(), vi.panel.as_slice())?;
    }
    Ok(panels)
}

/// The panel that a call means, or nothing where no VI has the name.
pub fn called<'p>(panels: &Panels<'p>, name: &Name) -> &'p [PanelItem]
    ensures { result.now ≡ callees_in panels.now name.now }
{
    match panels.get(name.as_slice()) {
        None => &[],
        Some(panel) => *panel,
    }
}

fn add_object<'a>(types: &mut ObjectTypes<'a>, name: &'a [u8], ty: &'a Ty) -> Result<(), AllocError>
    ensures { OnOk result ((other : TheList ℕ) → objects_in types.new other ≡ option_or (objects_in types.old other) (if bytes_eq name.now other then Some ty.now else None)) }
{
    if types.contains_key(&name) {
        return Ok(());
    }
    types.insert(name, ty)?;
    Ok(())
}

fn add_item<'a>(types: &mut ObjectTypes<'a>, item: &'a PanelItem) -> Result<(), AllocError>
    ensures { OnOk result ((other : TheList ℕ) → objects_in types.new other ≡ option_or (objects_in types.old other) (spec.item_type item.now other None)) }
{
    match item {
        PanelItem::Control { name, ty, .. } => add_object(types, name.as_slice(), ty),
        PanelItem::Indicator { name, ty, .. } => add_object(types, name.as_slice(), ty),
    }
}

/// The types that local variables have.
pub fn object_types<'a>(
    alloc: Global,
    panel: &'a [PanelItem],
) -> Result<ObjectTypes<'a>, AllocError>
    ensures { IfOk result (λ types. (name : TheList ℕ) → objects_in types name ≡ spec.panel_type panel.now name) }
{
    let mut types = BTreeMap::new(alloc);
    for item in panel {
        add_item(&mut types, item)?;
    }
    Ok(types)
}

/// The type of a panel object, where there is one of the name.
pub fn object<'p>(types: &ObjectTypes<'p>, name: &Name) -> Option<&'p Ty>
    ensures { option_copied result ≡ objects_in types.now name.now }
{
    match types.get(name.as_slice()) {
        None => None,
        Some(ty) => Some(*ty),
    }
}

//! The cells of a panel and their types, by name.

ghost use Rattle.std.specs.Prelude.{◌≡◌, ◌++◌, ℕ, List as TheList, map, if◌then◌else◌, Some, None, IfOk, OnOk};
ghost use Rattle.std.specs.Option.{option_or};
ghost use Rattle.std.specs.Str.{bytes_eq};
ghost use Rattle.g_frames.specs.Panels.{control_names, indicator_names};
ghost use Rattle.g_typing.specs.Typing.{item_type, panel_type};
ghost use Rattle.g_vi_tables.specs.Numbers.{AreNumbers};
ghost use Rattle.g_vi_tables.specs.Types.{named_type};

use crate::numbers::NameNumbers;
use crate::types::Scope;
use g_diagram::PanelItem;
use g_types::Ty;
use std::alloc::{AllocError, Global};
use std::collections::BTreeMap;

fn push_controls<'m>(names: &mut Vec<&'m [u8]>, panel: &'m [PanelItem]) -> Result<(), AllocError>
    ensures { OnOk result (map (λ n. n.now) names.new.items ≡ map (λ n. n.now) names.old.items ++ control_names panel.now) }
{
    for item in panel {
        if let PanelItem::Control { name, .. } = item {
            names.push(name.as_slice())?;
        }
    }
    Ok(())
}

fn push_indicators<'m>(names: &mut Vec<&'m [u8]>, panel: &'m [PanelItem]) -> Result<(), AllocError>
    ensures { OnOk result (map (λ n. n.now) names.new.items ≡ map (λ n. n.now) names.old.items ++ indicator_names panel.now) }
{
    for item in panel {
        if let PanelItem::Indicator { name, .. } = item {
            names.push(name.as_slice())?;
        }
    }
    Ok(())
}

/// The numbers of the cells of a panel: the controls stand before the indicators.
pub fn cells_of<'m>(alloc: Global, panel: &'m [PanelItem]) -> Result<NameNumbers<'m>, AllocError>
    ensures { IfOk result (AreNumbers (control_names panel.now ++ indicator_names panel.now)) }
{
    let mut names = Vec::new(alloc);
    push_controls(&mut names, panel)?;
    push_indicators(&mut names, panel)?;
    NameNumbers::of(alloc, names.as_slice())
}

/// Keeps the type of a name, unless there is one.
fn add<'m>(types: &mut Scope<'m>, name: &'m [u8], ty: &'m Ty) -> Result<(), AllocError>
    ensures { OnOk result ((other : TheList ℕ) → named_type types.new other ≡ option_or (named_type types.old other) (if bytes_eq name.now other then Some ty.now else None)) }
{
    if types.contains_key(&name) {
        return Ok(());
    }
    types.insert(name, ty)?;
    Ok(())
}

fn add_item<'m>(types: &mut Scope<'m>, item: &'m PanelItem) -> Result<(), AllocError>
    ensures { OnOk result ((other : TheList ℕ) → named_type types.new other ≡ option_or (named_type types.old other) (item_type item.now other None)) }
{
    match item {
        PanelItem::Control { name, ty, .. } => add(types, name.as_slice(), ty),
        PanelItem::Indicator { name, ty, .. } => add(types, name.as_slice(), ty),
    }
}

/// The types of controls and indicators. Of two with one name the first counts.
pub fn objects_of<'m>(alloc: Global, panel: &'m [PanelItem]) -> Result<Scope<'m>, AllocError>
    ensures { IfOk result (λ types. (name : TheList ℕ) → named_type types name ≡ panel_type panel.now name) }
{
    let mut types = BTreeMap::new(alloc);
    for item in panel {
        add_item(&mut types, item)?;
    }
    Ok(types)
}

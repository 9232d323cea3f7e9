//! The panels with which a run begins.

ghost use Rattle.std.specs.Prelude.{◌≡◌, ◌∷◌, ◌++◌, [], drop, OnOk, IfOk};
ghost use Rattle.std.specs.List.{All};
ghost use Rattle.g_values.specs.Proper.{IsProper};
ghost use Rattle.g_frames.specs.Panels as panel;
ghost use Rattle.g_frames.specs.Program.{Program};
ghost use Rattle.g_frames.specs.State.{first_panel, first_panels, panel_items};
ghost use Rattle.g_program.specs.Tables.{IsTableOf};
ghost use Rattle.g_needs.specs.Starts.{StartNeeds};
ghost use Rattle.g_start.specs.Panels.{default_panels};

use g_diagram::PanelItem;
use g_hier::Space;
use g_node_values::{control_defaults, indicator_defaults};
use g_objects::Object;
use g_panels::Panel;
use g_program::ProgramTables;
use g_values::ValueList;
use std::alloc::{AllocError, Global};

/// The panel of a VI, and no controls and indicators where there is no such VI.
fn panel_of<'m>(tables: &ProgramTables<'m>, vi: u32) -> &'m [PanelItem]
    ensures { (p : Program) → IsTableOf p tables.now → result.now ≡ panel_items p vi }
{
    match tables.vi(vi) {
        Some(table) => table.panel(),
        None => &[],
    }
}

/// Adds a panel with these controls, and with the defaults of its indicators.
fn push_panel(
    alloc: Global,
    objects: &mut Vec<Object>,
    items: &[PanelItem],
    controls: ValueList,
) -> Result<(), AllocError>
    requires { All IsProper (panel.indicator_defaults items.now) }
    ensures { OnOk result (objects.new.items ≡ objects.old.items ++ first_panel controls items.now ∷ []) }
{
    let indicators = ValueList::from_list(indicator_defaults(alloc, items)?);
    objects.push(Object::of_panel(Panel::new(controls, indicators)))?;
    Ok(())
}

/// Adds a panel with the defaults of its controls and indicators.
fn push_default_panel(
    alloc: Global,
    objects: &mut Vec<Object>,
    items: &[PanelItem],
) -> Result<(), AllocError>
    requires controls { All IsProper (panel.control_defaults items.now) }
    requires indicators { All IsProper (panel.indicator_defaults items.now) }
    ensures { OnOk result (objects.new.items ≡ objects.old.items ++ first_panel (panel.control_defaults items.now) items.now ∷ []) }
{
    let controls = ValueList::from_list(control_defaults(alloc, items)?);
    push_panel(alloc, objects, items, controls)
}

/// Adds the panels of all data spaces but the first, with their defaults.
fn push_other_panels(
    alloc: Global,
    objects: &mut Vec<Object>,
    tables: &ProgramTables<'_>,
    spaces: &[Space],
) -> Result<(), AllocError>
    requires { (p : Program) × (IsTableOf p tables.now × StartNeeds p) }
    ensures { OnOk result ((p : Program) → IsTableOf p tables.now → objects.new.items ≡ objects.old.items ++ default_panels p (drop 1 spaces.now)) }
{
    for at in 1..spaces.len() {
        push_default_panel(alloc, objects, panel_of(tables, spaces[at].vi))?;
    }
    Ok(())
}

/// Adds the panels of the data spaces. That of the VI that runs, which is the first, has its controls set.
pub fn push_panels(
    alloc: Global,
    objects: &mut Vec<Object>,
    tables: &ProgramTables<'_>,
    controls: ValueList,
) -> Result<(), AllocError>
    requires { (p : Program) × (IsTableOf p tables.now × StartNeeds p) }
    ensures { OnOk result ((p : Program) → IsTableOf p tables.now → objects.new.items ≡ objects.old.items ++ first_panels p controls 0 p.spaces) }
{
    let spaces = tables.spaces();
    if spaces.is_empty() {
        return Ok(());
    }
    push_panel(alloc, objects, panel_of(tables, spaces[0].vi), controls)?;
    push_other_panels(alloc, objects, tables, spaces)
}

//! Rule 8: `read` and `write` name objects of their VI's panel.

ghost use Rattle.std.specs.Prelude.{◌≡◌, ◌++◌, ℕ, List as TheList, map, OnOk, IfOk};
ghost use Rattle.g_diagram_table.specs.Seen as table;
ghost use Rattle.g_rules_lines.specs.Spots.{break};
ghost use Rattle.g_rules_lines.specs.PanelObjects as spec;
ghost use Rattle.g_rules_lines.specs.Names.{has_name};

use crate::names::{Names, add_name, is_among};
use crate::place::push_at;
use g_diagram::{Break, PanelItem};
use g_diagram_table::{Entry, Kind};
use g_types::Name;
use std::alloc::{AllocError, Global};
use std::collections::BTreeSet;

/// The name of a panel object.
pub fn panel_name<'a>(item: &'a PanelItem) -> &'a Name
    ensures { result.now ≡ spec.panel_name item.now }
{
    match item {
        PanelItem::Control { name, .. } => name,
        PanelItem::Indicator { name, .. } => name,
    }
}

/// The names of a panel.
fn object_names<'a>(alloc: Global, panel: &'a [PanelItem]) -> Result<Names<'a>, AllocError>
    ensures { IfOk result (λ names. (name : TheList ℕ) → has_name names name ≡ spec.names_object panel.now name) }
{
    let mut names = BTreeSet::new(alloc);
    for item in panel {
        add_name(&mut names, panel_name(item))?;
    }
    Ok(names)
}

fn names_no_object(names: &Names<'_>, kind: &Kind<'_>) -> bool
    ensures { result ≡ spec.names_no_object (has_name names.now) (table.seen_kind kind.now) }
{
    match kind {
        Kind::Read { object, .. } => !is_among(names, *object),
        Kind::Write { object, .. } => !is_among(names, *object),
        _ => false,
    }
}

fn push_unnamed(
    vi: u32,
    names: &Names<'_>,
    entries: &[Entry<'_>],
    breaks: &mut Vec<Break>,
) -> Result<(), AllocError>
    ensures { OnOk result (breaks.new.items ≡ breaks.old.items ++ map (break vi 8) (spec.unlocated (has_name names.now) (map table.seen entries.now))) }
{
    for entry in entries {
        if names_no_object(names, &entry.kind) {
            push_at(vi, 8, entry.line, 0, breaks)?;
        }
    }
    Ok(())
}

/// Adds the breaks of rule 8: each `read` or `write` that names no object of the panel.
pub fn push_unlocated(
    alloc: Global,
    vi: u32,
    panel: &[PanelItem],
    entries: &[Entry<'_>],
    breaks: &mut Vec<Break>,
) -> Result<(), AllocError>
    ensures { OnOk result (breaks.new.items ≡ breaks.old.items ++ map (break vi 8) (spec.unlocated (spec.names_object panel.now) (map table.seen entries.now))) }
{
    let names = object_names(alloc, panel)?;
    push_unnamed(vi, &names, entries, breaks)?;
    Ok(())
}

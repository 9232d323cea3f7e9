//! Rule 7: names that were used before.

ghost use Rattle.std.specs.Prelude.{◌≡◌, ◌+◌, ◌++◌, ◌∷◌, [], OnOk, if◌then◌else◌};
ghost use Rattle.g_rules_lines.specs.RepeatedNames.{renamed_items, renamed_vis};
ghost use Rattle.g_rules_lines.specs.Spots.{break, spot_at};

use crate::names::{add_name, is_among};
use crate::panel_objects::panel_name;
use crate::place::{next, push_at};
use g_diagram::{Break, PanelItem, Vi};
use std::alloc::{AllocError, Global};
use std::collections::BTreeSet;

fn push_repeat(
    is_repeat: bool,
    vi: u32,
    line: u32,
    breaks: &mut Vec<Break>,
) -> Result<(), AllocError>
    ensures { OnOk result (breaks.new.items ≡ breaks.old.items ++ (if is_repeat then break vi 7 (spot_at line 0) ∷ [] else [])) }
{
    if is_repeat {
        push_at(vi, 7, line, 0, breaks)?;
    }
    Ok(())
}

/// Adds the breaks of rule 7 on a panel: each line whose name a line before it has.
pub fn push_panel_repeats(
    alloc: Global,
    vi: u32,
    panel: &[PanelItem],
    breaks: &mut Vec<Break>,
) -> Result<(), AllocError>
    ensures { OnOk result (breaks.new.items ≡ breaks.old.items ++ renamed_items vi panel.now) }
{
    let mut names = BTreeSet::new(alloc);
    let mut line = 1;
    for item in panel {
        let name = panel_name(item);
        push_repeat(is_among(&names, name), vi, line, breaks)?;
        add_name(&mut names, name)?;
        line = next(line)?;
    }
    Ok(())
}

/// Adds the breaks of rule 7 on VIs: each VI whose name one before it has.
pub fn push_vi_repeats(alloc: Global, vis: &[Vi], breaks: &mut Vec<Break>) -> Result<(), AllocError>
    ensures { OnOk result (breaks.new.items ≡ breaks.old.items ++ renamed_vis vis.now) }
{
    let mut names = BTreeSet::new(alloc);
    let mut number = 0;
    for vi in vis {
        push_repeat(is_among(&names, &vi.name), number, 0, breaks)?;
        add_name(&mut names, &vi.name)?;
        number = next(number)?;
    }
    Ok(())
}

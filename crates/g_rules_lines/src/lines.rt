//! The rules on the lines of one VI.

ghost use Rattle.std.specs.Prelude.{◌≡◌, ◌++◌, map, OnOk};
ghost use Rattle.g_diagram_table.specs.Seen as table;
ghost use Rattle.g_rules_lines.specs.Lists.{called_by, structured_by, lined_by};
ghost use Rattle.g_rules_lines.specs.Names.{arity_in, queue_at, known_by};

use crate::arity::push_miscounted;
use crate::callees::Arities;
use crate::case_results::push_resultless;
use crate::case_values::push_reselected;
use crate::in_place_bodies::push_misplaced;
use crate::loop_counts::push_countless;
use crate::panel_objects::push_unlocated;
use crate::queues::{Queues, push_unequal};
use crate::repeated_names::push_panel_repeats;
use crate::unknown_vis::push_uncalled;
use g_diagram::{Break, PanelItem};
use g_diagram_table::Entry;
use std::alloc::{AllocError, Global};

/// Adds the breaks on what the lines of a VI name and call.
fn push_called(
    alloc: Global,
    arities: &Arities<'_>,
    vi: u32,
    panel: &[PanelItem],
    entries: &[Entry<'_>],
    breaks: &mut Vec<Break>,
) -> Result<(), AllocError>
    ensures { OnOk result (breaks.new.items ≡ breaks.old.items ++ called_by (arity_in arities.now) vi panel.now (map table.seen entries.now)) }
{
    push_miscounted(vi, arities, entries, breaks)?;
    push_panel_repeats(alloc, vi, panel, breaks)?;
    push_unlocated(alloc, vi, panel, entries, breaks)?;
    push_uncalled(vi, arities, entries, breaks)?;
    Ok(())
}

/// Adds the breaks on the structures and queues of a VI.
fn push_structured(
    alloc: Global,
    queues: &Queues<'_>,
    vi: u32,
    entries: &[Entry<'_>],
    breaks: &mut Vec<Break>,
) -> Result<(), AllocError>
    ensures { OnOk result (breaks.new.items ≡ breaks.old.items ++ structured_by (queue_at queues.now) vi (map table.seen entries.now)) }
{
    push_reselected(alloc, vi, entries, breaks)?;
    push_resultless(vi, entries, breaks)?;
    push_misplaced(alloc, vi, entries, breaks)?;
    push_countless(vi, entries, breaks)?;
    push_unequal(vi, queues, entries, breaks)?;
    Ok(())
}

/// Adds the breaks on the lines of a VI with this panel and these nodes.
pub fn push_lined(
    alloc: Global,
    arities: &Arities<'_>,
    queues: &Queues<'_>,
    vi: u32,
    panel: &[PanelItem],
    entries: &[Entry<'_>],
    breaks: &mut Vec<Break>,
) -> Result<(), AllocError>
    ensures { OnOk result (breaks.new.items ≡ breaks.old.items ++ lined_by (known_by arities.now queues.now) vi panel.now (map table.seen entries.now)) }
{
    push_called(alloc, arities, vi, panel, entries, breaks)?;
    push_structured(alloc, queues, vi, entries, breaks)?;
    Ok(())
}

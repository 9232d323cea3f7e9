//! Rule 10: a case takes a value at one branch alone.

ghost use Rattle.std.specs.Prelude.{◌≡◌, ◌++◌, ◌∷◌, [], map, OnOk, if◌then◌else◌};
ghost use Rattle.g_diagram_table.specs.Seen as table;
ghost use Rattle.g_rules_lines.specs.Spots.{break, spot_at};
ghost use Rattle.g_rules_lines.specs.CaseValues as spec;

use crate::place::push_at;
use g_diagram::Break;
use g_diagram_table::{Arm, Entry, Kind};
use g_rules_selectors::{nothing_taken, take};
use std::alloc::{AllocError, Global};

fn push_clash(vi: u32, line: u32, clashes: bool, breaks: &mut Vec<Break>) -> Result<(), AllocError>
    ensures { OnOk result (breaks.new.items ≡ breaks.old.items ++ map (break vi 10) (if clashes then spot_at line 0 ∷ [] else [])) }
{
    if clashes {
        push_at(vi, 10, line, 0, breaks)?;
    }
    Ok(())
}

/// Adds the `when` lines of a case that clash with what stands in it before.
fn push_arms(
    alloc: Global,
    vi: u32,
    arms: &[Arm<'_>],
    breaks: &mut Vec<Break>,
) -> Result<(), AllocError>
    ensures { OnOk result (breaks.new.items ≡ breaks.old.items ++ map (break vi 10) (spec.arm_clashes [] (map table.seen_arm arms.now))) }
{
    let mut taken = nothing_taken(alloc);
    for arm in arms {
        let clashes = take(&mut taken, arm.selectors)?;
        push_clash(vi, arm.body, clashes, breaks)?;
    }
    Ok(())
}

fn push_kind(
    alloc: Global,
    vi: u32,
    kind: &Kind<'_>,
    breaks: &mut Vec<Break>,
) -> Result<(), AllocError>
    ensures { OnOk result (breaks.new.items ≡ breaks.old.items ++ map (break vi 10) (spec.kind_clashes (table.seen_kind kind.now))) }
{
    match kind {
        Kind::Case { arms, .. } => push_arms(alloc, vi, arms.as_slice(), breaks),
        _ => Ok(()),
    }
}

/// Adds the breaks of rule 10: each `when` line with a value, or a `default`, that stands in its case
/// before, or with a range that falls.
pub fn push_reselected(
    alloc: Global,
    vi: u32,
    entries: &[Entry<'_>],
    breaks: &mut Vec<Break>,
) -> Result<(), AllocError>
    ensures { OnOk result (breaks.new.items ≡ breaks.old.items ++ map (break vi 10) (spec.reselected (map table.seen entries.now))) }
{
    for entry in entries {
        push_kind(alloc, vi, &entry.kind, breaks)?;
    }
    Ok(())
}

//! Rule 13: a `for` whose count is unwired needs an `index` line.

ghost use Rattle.std.specs.Prelude.{◌≡◌, ◌++◌, map, OnOk};
ghost use Rattle.std.specs.List.{list_any};
ghost use Rattle.std.specs.Option.{option_map};
ghost use Rattle.g_diagram_table.specs.Seen as table;
ghost use Rattle.g_rules_lines.specs.Spots.{break};
ghost use Rattle.g_rules_lines.specs.LoopCounts as spec;

use crate::place::push_at;
use g_diagram::{Break, Tunnel, Wire};
use g_diagram_table::{Entry, Kind};
use std::alloc::AllocError;

fn is_index(line: &Tunnel) -> bool
    ensures { result ≡ spec.is_index line.now }
{
    matches!(line, Tunnel::Index { .. })
}

fn has_index(lines: &[Tunnel]) -> bool
    ensures { result ≡ list_any spec.is_index lines.now }
{
    for line in lines {
        if is_index(line) {
            return true;
        }
    }
    false
}

fn lacks_count(count: Option<&Wire>, lines: &[Tunnel]) -> bool
    ensures { result ≡ spec.lacks_count (option_map (λ w. w.now) count.entry) lines.now }
{
    match count {
        None | Some(Some(_)) => false,
        Some(None) => !has_index(lines),
    }
}

fn is_countless(kind: &Kind<'_>) -> bool
    ensures { result ≡ spec.is_countless (table.seen_kind kind.now) }
{
    match kind {
        Kind::Loop { count, lines, .. } => lacks_count(*count, *lines),
        _ => false,
    }
}

/// Adds the breaks of rule 13: the count of each `for` that is unwired where there is no `index` line.
pub fn push_countless(
    vi: u32,
    entries: &[Entry<'_>],
    breaks: &mut Vec<Break>,
) -> Result<(), AllocError>
    ensures { OnOk result (breaks.new.items ≡ breaks.old.items ++ map (break vi 13) (spec.countless (map table.seen entries.now))) }
{
    for entry in entries {
        if is_countless(&entry.kind) {
            push_at(vi, 13, entry.line, 1, breaks)?;
        }
    }
    Ok(())
}

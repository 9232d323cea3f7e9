//! Rule 11: what the branches of a case give.

ghost use Rattle.std.specs.Prelude.{◌≡◌, ◌+◌, ◌++◌, ◌∷◌, [], map, OnOk, if◌then◌else◌};
ghost use Rattle.std.specs.List.{list_any};
ghost use Rattle.g_diagram_table.specs.Seen as table;
ghost use Rattle.g_rules_lines.specs.Spots.{break, spot_at};
ghost use Rattle.g_rules_lines.specs.CaseResults as spec;

use crate::place::{next, push_at};
use g_diagram::{Break, Tunnel};
use g_diagram_table::{Arm, Entry, Kind};
use std::alloc::AllocError;

/// Whether a branch gives the result of a number, from 0.
fn gives_result(number: usize, arm: &Arm<'_>) -> bool
    ensures { result ≡ spec.gives_result number (table.seen_arm arm.now) }
{
    match arm.gives.get(number) {
        None => false,
        Some(wire) => wire.is_some(),
    }
}

fn is_given(number: usize, arms: &[Arm<'_>]) -> bool
    ensures { result ≡ list_any (spec.gives_result number) (map table.seen_arm arms.now) }
{
    for arm in arms {
        if gives_result(number, arm) {
            return true;
        }
    }
    false
}

/// Adds the `give` operands of a result that are unwired.
fn push_ungiven_in(
    vi: u32,
    number: usize,
    operand: u32,
    arms: &[Arm<'_>],
    breaks: &mut Vec<Break>,
) -> Result<(), AllocError>
    requires { operand ≡ number + 1 }
    ensures { OnOk result (breaks.new.items ≡ breaks.old.items ++ map (break vi 11) (spec.ungiven_in number (map table.seen_arm arms.now))) }
{
    for arm in arms {
        if !gives_result(number, arm) {
            push_at(vi, 11, next(arm.body)?, operand, breaks)?;
        }
    }
    Ok(())
}

fn push_nowhere(
    vi: u32,
    line: u32,
    is_given: bool,
    breaks: &mut Vec<Break>,
) -> Result<(), AllocError>
    ensures { OnOk result (breaks.new.items ≡ breaks.old.items ++ map (break vi 11) (if is_given then [] else spot_at line 1 ∷ [])) }
{
    if !is_given {
        push_at(vi, 11, line, 1, breaks)?;
    }
    Ok(())
}

/// Adds what is broken of one result.
fn push_ungiven(
    vi: u32,
    line: u32,
    number: usize,
    operand: u32,
    default: bool,
    arms: &[Arm<'_>],
    breaks: &mut Vec<Break>,
) -> Result<(), AllocError>
    requires { operand ≡ number + 1 }
    ensures { OnOk result (breaks.new.items ≡ breaks.old.items ++ map (break vi 11) (spec.ungiven_at line number default (map table.seen_arm arms.now))) }
{
    if !default {
        push_ungiven_in(vi, number, operand, arms, breaks)?;
    }
    push_nowhere(vi, line, is_given(number, arms), breaks)?;
    Ok(())
}

/// Adds what is broken of the results of a case, whose lines begin at a line.
fn push_results(
    vi: u32,
    first: u32,
    lines: &[Tunnel],
    arms: &[Arm<'_>],
    breaks: &mut Vec<Break>,
) -> Result<(), AllocError>
    ensures { OnOk result (breaks.new.items ≡ breaks.old.items ++ map (break vi 11) (spec.ungiven first 0 (map table.seen_arm arms.now) lines.now)) }
{
    let mut line = first;
    let mut number = 0;
    let mut operand = 1;
    for tunnel in lines {
        if let Tunnel::Result { default, .. } = tunnel {
            push_ungiven(vi, line, number, operand, *default, arms, breaks)?;
            number += 1;
            operand = next(operand)?;
        }
        line = next(line)?;
    }
    Ok(())
}

fn push_kind(vi: u32, line: u32, kind: &Kind<'_>, breaks: &mut Vec<Break>) -> Result<(), AllocError>
    ensures { OnOk result (breaks.new.items ≡ breaks.old.items ++ map (break vi 11) (spec.kind_ungiven line (table.seen_kind kind.now))) }
{
    match kind {
        Kind::Case { lines, arms, .. } => {
            push_results(vi, next(line)?, *lines, arms.as_slice(), breaks)
        }
        _ => Ok(()),
    }
}

/// Adds the breaks of rule 11: each unwired `give` operand of a result that has no default, and each
/// result that is wired in no branch.
pub fn push_resultless(
    vi: u32,
    entries: &[Entry<'_>],
    breaks: &mut Vec<Break>,
) -> Result<(), AllocError>
    ensures { OnOk result (breaks.new.items ≡ breaks.old.items ++ map (break vi 11) (spec.resultless (map table.seen entries.now))) }
{
    for entry in entries {
        push_kind(vi, entry.line, &entry.kind, breaks)?;
    }
    Ok(())
}

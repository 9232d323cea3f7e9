//! Rule 18: cases on a type that none may select on, and cases that don't cover all values.

ghost use Rattle.std.specs.Prelude.{◌≡◌, ◌++◌, map, not, IfOk, OnOk};
ghost use Rattle.std.specs.List.{list_any};
ghost use Rattle.std.specs.Option.{option_copied};
ghost use Rattle.g_diagram_table.specs.Seen.{seen_arm};
ghost use Rattle.g_rules_cases.specs.Held as held;
ghost use Rattle.g_rules_cases.specs.Searched as searched;
ghost use Rattle.g_typing.specs.Literals as literals;
ghost use Rattle.g_typing.specs.Rows as rows;
ghost use Rattle.g_typing.specs.Selected as spec;
ghost use Rattle.g_typing.specs.Types as types_spec;

use crate::gaps::{has_gap, sorted_intervals};
use crate::literals::{least, may_select, past};
use crate::places::{place, push_unless};
use g_diagram::{Place, Selector};
use g_diagram_table::Arm;
use g_types::{Rep, Ty};
use std::alloc::{AllocError, Global};

fn tells(truth: bool, selector: &Selector) -> bool
    ensures { result ≡ held.tells truth selector.now }
{
    match selector {
        Selector::Truth(other) => { if truth { *other } else { !*other } }
        _ => false,
    }
}

fn is_default(selector: &Selector) -> bool
    ensures { result ≡ held.is_default selector.now }
{
    match selector {
        Selector::Default => true,
        _ => false,
    }
}

fn any_tells(truth: bool, selectors: &[Selector]) -> bool
    ensures { result ≡ list_any (held.tells truth) selectors.now }
{
    selectors.iter().any(|selector| tells(truth, selector))
}

fn any_is_default(selectors: &[Selector]) -> bool
    ensures { result ≡ list_any held.is_default selectors.now }
{
    selectors.iter().any(|selector| is_default(selector))
}

/// Whether a branch has a truth value.
#[tactic(auto, using(crate::proofs::Branches::any_more))]
fn some_tell(truth: bool, arms: &[Arm<'_>]) -> bool
    ensures { result ≡ list_any (held.tells truth) (spec.selectors_of (map seen_arm arms.now)) }
{
    for arm in arms {
        if any_tells(truth, arm.selectors) {
            return true;
        }
    }
    false
}

/// Whether a branch is taken by default.
#[tactic(auto, using(crate::proofs::Branches::any_more))]
fn some_default(arms: &[Arm<'_>]) -> bool
    ensures { result ≡ list_any held.is_default (spec.selectors_of (map seen_arm arms.now)) }
{
    for arm in arms {
        if any_is_default(arm.selectors) {
            return true;
        }
    }
    false
}

/// Whether some number of the representation is in no branch.
#[tactic(auto, using(crate::proofs::Sweeping::tells_missed))]
fn misses_number<'m>(alloc: Global, rep: Rep, arms: &'m [Arm<'m>]) -> Result<bool, AllocError>
    ensures { IfOk result (λ misses. misses ≡ searched.misses_number rep (spec.selectors_of (map seen_arm arms.now))) }
{
    let intervals = sorted_intervals(alloc, arms)?;
    Ok(has_gap(least(rep), past(rep), intervals.as_slice()))
}

fn covers_numbers<'m>(alloc: Global, rep: Rep, arms: &'m [Arm<'m>]) -> Result<bool, AllocError>
    ensures { IfOk result (λ covers. covers ≡ not (searched.misses_number rep (spec.selectors_of (map seen_arm arms.now)))) }
{
    let misses = misses_number(alloc, rep, arms)?;
    Ok(!misses)
}

/// Whether the branches have all values of the type.
fn covers<'m>(alloc: Global, ty: &Ty, arms: &'m [Arm<'m>]) -> Result<bool, AllocError>
    ensures { IfOk result (λ covers. covers ≡ searched.covers (spec.selectors_of (map seen_arm arms.now)) ty.now) }
{
    match ty {
        Ty::Num(rep) => covers_numbers(alloc, *rep, arms),
        Ty::Bool => Ok(some_tell(true, arms) && some_tell(false, arms)),
        _ => Ok(false),
    }
}

fn leaves_none<'m>(alloc: Global, ty: &Ty, arms: &'m [Arm<'m>]) -> Result<bool, AllocError>
    ensures { IfOk result (λ none. none ≡ searched.leaves_none (spec.selectors_of (map seen_arm arms.now)) ty.now) }
{
    if some_default(arms) {
        return Ok(true);
    }
    covers(alloc, ty, arms)
}

/// Whether each value of the type has a branch.
#[tactic(auto, using(crate::proofs::Branches::is_found))]
fn is_complete<'m>(alloc: Global, ty: &Ty, arms: &'m [Arm<'m>]) -> Result<bool, AllocError>
    ensures { IfOk result (λ complete. complete ≡ spec.is_complete (spec.selectors_of (map seen_arm arms.now)) ty.now) }
{
    let none = leaves_none(alloc, ty, arms)?;
    Ok(none)
}

fn may_be_selected(ty: Option<&Ty>) -> bool
    ensures { result ≡ rows.may_be (option_copied ty.entry) literals.may_select }
{
    match ty {
        None => true,
        Some(ty) => may_select(ty),
    }
}

/// A case that doesn't cover all values of an allowed type.
fn push_uncovered<'m>(
    alloc: Global,
    places: &mut Vec<Place>,
    vi: u32,
    line: u32,
    ty: Option<&Ty>,
    arms: &'m [Arm<'m>],
) -> Result<(), AllocError>
    ensures { OnOk result (places.new.items ≡ places.old.items ++ literals.if_selecting (option_copied ty.entry) (spec.uncovered vi line (spec.selectors_of (map seen_arm arms.now)))) }
{
    let Some(ty) = ty else {
        return Ok(());
    };
    if !may_select(ty) {
        return Ok(());
    }
    let complete = is_complete(alloc, ty, arms)?;
    push_unless(places, complete, place(vi, line, 0))
}

/// A case, by the type of its selector.
pub fn push_selection<'m>(
    alloc: Global,
    places: &mut Vec<Place>,
    vi: u32,
    line: u32,
    ty: Option<&Ty>,
    arms: &'m [Arm<'m>],
) -> Result<(), AllocError>
    ensures { OnOk result (places.new.items ≡ places.old.items ++ (rows.unless (option_copied ty.entry) literals.may_select (types_spec.place vi line 1)
        ++ literals.if_selecting (option_copied ty.entry) (spec.uncovered vi line (spec.selectors_of (map seen_arm arms.now))))) }
{
    push_unless(places, may_be_selected(ty), place(vi, line, 1))?;
    push_uncovered(alloc, places, vi, line, ty, arms)?;
    Ok(())
}

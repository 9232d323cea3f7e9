//! Rule 15: literals and selectors that aren't values of their type.

ghost use Rattle.std.specs.Prelude.{◌≡◌, ◌++◌, ◌-ℤ◌, ◌&&◌, map, neg_ℤ, pos, OnOk};
ghost use Rattle.std.specs.List.{list_all};
ghost use Rattle.std.specs.Option.{option_copied};
ghost use Rattle.g_types.specs.Rep as reps;
ghost use Rattle.g_types.specs.declared.ty.Ty.{out-Ty};
ghost use Rattle.g_diagram_table.specs.Seen as table;
ghost use Rattle.g_rules_cases.specs.Held as held;
ghost use Rattle.g_typing.specs.Literals as spec;

use crate::places::{next, place, push_unless};
use g_diagram::{Lit, PanelItem, Place, Selector};
use g_diagram_table::Arm;
use g_prims::kinds::{is_bool, is_num, is_str};
use g_prims_edits::MOST;
use g_types::{Rep, Ty};
use std::alloc::AllocError;

/// The least number of a representation.
pub fn least(rep: Rep) -> i128
    ensures { result ≡ neg_ℤ (pos (reps.half rep)) }
{
    match rep {
        Rep::I8 => -0x80,
        Rep::I16 => -0x8000,
        Rep::I32 => -0x8000_0000,
        Rep::I64 => -0x8000_0000_0000_0000,
        Rep::U8 | Rep::U16 | Rep::U32 | Rep::U64 => 0,
    }
}

/// The number after the greatest of a representation.
pub fn past(rep: Rep) -> i128
    ensures { result ≡ pos (reps.size rep) -ℤ pos (reps.half rep) }
{
    match rep {
        Rep::I8 => 0x80,
        Rep::I16 => 0x8000,
        Rep::I32 => 0x8000_0000,
        Rep::I64 => 0x8000_0000_0000_0000,
        Rep::U8 => 0x100,
        Rep::U16 => 0x1_0000,
        Rep::U32 => 0x1_0000_0000,
        Rep::U64 => 0x1_0000_0000_0000_0000,
    }
}

/// Whether it is a number of the representation.
pub fn is_in_range(rep: Rep, n: i128) -> bool
    ensures { result ≡ held.is_in_range rep n }
{
    least(rep) <= n && n < past(rep)
}

fn is_reference(ty: &Ty) -> bool
    ensures { result ≡ spec.is_reference_at (out-Ty ty.now) }
{
    match ty {
        Ty::QueueRef(_) | Ty::ValueRef(_) => true,
        _ => false,
    }
}

fn is_number_of(n: i128, ty: &Ty) -> bool
    ensures { result ≡ spec.is_number_of n (out-Ty ty.now) }
{
    match ty {
        Ty::Num(rep) => is_in_range(*rep, n),
        _ => false,
    }
}

/// Whether a literal is a value of the type.
#[cycle(literal)]
#[tactic(auto, using(g_typing::proofs::LiteralLemmas::literals))]
pub fn is_value_of(literal: &Lit, ty: &Ty) -> bool
    ensures { result ≡ spec.is_value_of literal.now ty.now }
{
    match literal {
        Lit::Number(n) => is_number_of(*n, ty),
        Lit::Truth(_) => is_bool(ty),
        Lit::Text(text) => is_str(ty) && text.len() <= MOST,
        Lit::Null => is_reference(ty),
        Lit::Array(items) => match ty {
            Ty::Arr(item) => items.len() <= MOST && are_values_of(items.as_slice(), item.get()),
            _ => false,
        },
        Lit::Cluster(items) => match ty {
            Ty::Cluster(parts) => are_each(items.as_slice(), parts.as_slice()),
            _ => false,
        },
    }
}

#[cycle(literal)]
fn are_values_of(items: &[Lit], ty: &Ty) -> bool
    ensures { result ≡ spec.are_values_of (map spec.is_value_of items.now) ty.now }
{
    for i in 0..items.len() {
        if !is_value_of(&items[i], ty) {
            return false;
        }
    }
    true
}

#[cycle(literal)]
fn are_each(items: &[Lit], types: &[Ty]) -> bool
    ensures { result ≡ spec.are_each (map spec.is_value_of items.now) types.now }
{
    if items.len() != types.len() {
        return false;
    }
    for i in 0..items.len() {
        if !is_value_of(&items[i], &types[i]) {
            return false;
        }
    }
    true
}

/// Whether a case may select on the type.
pub fn may_select(ty: &Ty) -> bool
    ensures { result ≡ spec.may_select ty.now }
{
    is_num(ty) || is_bool(ty) || is_str(ty)
}

/// Whether a selector is of the type.
fn selects(ty: &Ty, selector: &Selector) -> bool
    ensures { result ≡ spec.selects ty.now selector.now }
{
    match selector {
        Selector::Default => true,
        Selector::Number(n) => is_number_of(*n, ty),
        Selector::Range(low, high) => is_number_of(*low, ty) && is_number_of(*high, ty),
        Selector::Truth(_) => is_bool(ty),
        Selector::Text(text) => is_str(ty) && text.len() <= MOST,
    }
}

fn all_select(ty: &Ty, selectors: &[Selector]) -> bool
    ensures { result ≡ list_all (spec.selects ty.now) selectors.now }
{
    selectors.iter().all(|selector| selects(ty, selector))
}

/// The branches of a case that selects on the type.
fn push_arms(places: &mut Vec<Place>, vi: u32, ty: &Ty, arms: &[Arm<'_>]) -> Result<(), AllocError>
    ensures { OnOk result (places.new.items ≡ places.old.items ++ spec.arms_mistake vi ty.now (map table.seen_arm arms.now)) }
{
    for arm in arms {
        push_unless(
            places,
            all_select(ty, arm.selectors),
            place(vi, arm.body, 0),
        )?;
    }
    Ok(())
}

/// A case, by the type of its selector.
pub fn push_case(
    places: &mut Vec<Place>,
    vi: u32,
    ty: Option<&Ty>,
    arms: &[Arm<'_>],
) -> Result<(), AllocError>
    ensures { OnOk result (places.new.items ≡ places.old.items ++ spec.if_selecting (option_copied ty.entry) (λ t. spec.arms_mistake vi t (map table.seen_arm arms.now))) }
{
    let Some(ty) = ty else {
        return Ok(());
    };
    if !may_select(ty) {
        return Ok(());
    }
    push_arms(places, vi, ty, arms)
}

fn is_default_of(default: &Option<Lit>, ty: &Ty) -> bool
    ensures { result ≡ spec.is_default_of default.now ty.now }
{
    match default {
        None => true,
        Some(literal) => is_value_of(literal, ty),
    }
}

fn push_item(
    places: &mut Vec<Place>,
    vi: u32,
    line: u32,
    item: &PanelItem,
) -> Result<(), AllocError>
    ensures { OnOk result (places.new.items ≡ places.old.items ++ spec.item_mistakes vi line item.now) }
{
    match item {
        PanelItem::Control { ty, default, .. } => {
            push_unless(places, is_default_of(default, ty), place(vi, line, 0))
        }
        PanelItem::Indicator { .. } => Ok(()),
    }
}

/// The controls of a panel.
pub fn push_panel(places: &mut Vec<Place>, vi: u32, panel: &[PanelItem]) -> Result<(), AllocError>
    ensures { OnOk result (places.new.items ≡ places.old.items ++ spec.panel_mistakes vi 1 panel.now) }
{
    let mut line = 1;
    for item in panel {
        push_item(places, vi, line, item)?;
        line = next(line)?;
    }
    Ok(())
}

//! Which branch a case takes, and its results.

ghost use Rattle.std.specs.Prelude.{◌≡◌, ◌++◌, ◌&&◌, ℕ, int_le, map, IfOk, OnOk};
ghost use Rattle.std.specs.List.{list_any};
ghost use Rattle.std.specs.Option.{option_copied, option_map};
ghost use Rattle.g_border.specs.Cases as spec;
ghost use Rattle.g_diagram_table.specs.Seen.{seen_arm};
ghost use Rattle.g_frames.specs.Program.{FlatVi};
ghost use Rattle.g_prims_definitions.specs.Clusters.{or_nothing};
ghost use Rattle.g_rules_cases.specs.Held as held;
ghost use Rattle.g_typing.specs.Types as types;
ghost use Rattle.g_typing.specs.Typing as typing;
ghost use Rattle.g_values.specs.declared.value.Value.{out-Value};
ghost use Rattle.g_vi_tables.specs.Tables.{IsViTable};
ghost use Rattle.g_wire_values.specs.Wires.{reader};
ghost use Rattle.g_crossing.specs.Kept.{placed};

use crate::inside::{Given, place};
use crate::outside::default_at;
use crate::values::{copied, next};
use g_diagram::{Selector, Tunnel};
use g_diagram_table::Arm;
use g_lists::List;
use g_types::Ty;
use g_values::{Value, coerce};
use g_vi_tables::ViTable;
use g_wire_values::Wires;
use std::alloc::{AllocError, Global};

fn is_default(selector: &Selector) -> bool
    ensures { result ≡ held.is_default selector.now }
{
    match selector {
        Selector::Default => true,
        Selector::Number(_) | Selector::Range(_, _) | Selector::Truth(_) | Selector::Text(_) => {
            false
        }
    }
}

fn is_between(low: i128, high: i128, n: i128) -> bool
    ensures { result ≡ int_le low n && int_le n high }
{
    low <= n && n <= high
}

fn has_number(n: i128, selector: &Selector) -> bool
    ensures { result ≡ held.has_number n selector.now }
{
    match selector {
        Selector::Number(m) => n == *m,
        Selector::Range(low, high) => is_between(*low, *high, n),
        Selector::Truth(_) | Selector::Text(_) | Selector::Default => false,
    }
}

fn tells(b: bool, selector: &Selector) -> bool
    ensures { result ≡ held.tells b selector.now }
{
    match selector {
        Selector::Truth(c) => b == *c,
        Selector::Number(_) | Selector::Range(_, _) | Selector::Text(_) | Selector::Default => {
            false
        }
    }
}

fn has_text(text: &[u8], selector: &Selector) -> bool
    ensures { result ≡ held.has_text text.now selector.now }
{
    match selector {
        Selector::Text(other) => text == other.as_slice(),
        Selector::Number(_) | Selector::Range(_, _) | Selector::Truth(_) | Selector::Default => {
            false
        }
    }
}

/// Whether a selector names a value. Values of other types have no selectors of their own.
fn names(value: &Value, selector: &Selector) -> bool
    ensures { result ≡ held.names_at (out-Value value.now) selector.now }
{
    match value {
        Value::Num(x) => has_number(x.n, selector),
        Value::Bool(b) => tells(*b, selector),
        Value::Str(text) => has_text(text.as_slice(), selector),
        Value::Nums(_) | Value::Arr(_) | Value::Cluster(_) | Value::Queue(_) | Value::Cell(_) =>
            false,
    }
}

fn some_names(value: &Value, selectors: &[Selector]) -> bool
    ensures { result ≡ list_any (held.names_at (out-Value value.now)) selectors.now }
{
    for i in 0..selectors.len() {
        if names(value, &selectors[i]) {
            return true;
        }
    }
    false
}

fn some_default(selectors: &[Selector]) -> bool
    ensures { result ≡ list_any held.is_default selectors.now }
{
    for i in 0..selectors.len() {
        if is_default(&selectors[i]) {
            return true;
        }
    }
    false
}

/// The first branch with a value.
fn named_arm<'a, 'm>(value: &Value, arms: &'a [Arm<'m>]) -> Option<&'a Arm<'m>>
    ensures { option_map (λ a. seen_arm a.now) result ≡ spec.first_arm (held.names_at (out-Value value.now)) (map seen_arm arms.now) }
{
    for arm in arms {
        if some_names(value, arm.selectors) {
            return Some(arm);
        }
    }
    None
}

fn default_arm<'a, 'm>(arms: &'a [Arm<'m>]) -> Option<&'a Arm<'m>>
    ensures { option_map (λ a. seen_arm a.now) result ≡ spec.first_arm held.is_default (map seen_arm arms.now) }
{
    for arm in arms {
        if some_default(arm.selectors) {
            return Some(arm);
        }
    }
    None
}

/// The branch with a value, else the default branch.
pub fn chosen<'a, 'm>(value: &Value, arms: &'a [Arm<'m>]) -> Option<&'a Arm<'m>>
    ensures { option_map (λ a. seen_arm a.now) result ≡ spec.chosen value.now (map seen_arm arms.now) }
{
    match named_arm(value, arms) {
        Some(arm) => Some(arm),
        None => default_arm(arms),
    }
}

/// The branch on a line.
pub fn arm_at<'a, 'm>(diagram: u32, arms: &'a [Arm<'m>]) -> Option<&'a Arm<'m>>
    ensures { option_map (λ a. seen_arm a.now) result ≡ spec.arm_at diagram (map seen_arm arms.now) }
{
    for arm in arms {
        if arm.body == diagram {
            return Some(arm);
        }
    }
    None
}

/// The wire that a branch gives for a result, by its number from 0.
fn given_name<'a>(arm: &Arm<'a>, k: usize) -> Option<&'a [u8]>
    ensures { option_map (λ n. n.now) result ≡ types.wire_at arm.now.gives.now k }
{
    match arm.gives.get(k) {
        Some(Some(name)) => Some(name.as_slice()),
        _ => None,
    }
}

/// The type of a result, by its number from 0: that of the first branch in which it is wired.
fn result_type<'m>(table: &ViTable<'m>, k: usize, arms: &[Arm]) -> Option<&'m Ty>
    ensures { (vi : FlatVi) → IsViTable vi table.now → option_copied result ≡ typing.result_type vi.types k (map seen_arm arms.now) }
{
    for arm in arms {
        if let Some(name) = given_name(arm, k) {
            return table.type_of(arm.body, name);
        }
    }
    None
}

/// A value coerced to a type, if that is known.
fn coerced_to(value: Value, ty: Option<&Ty>) -> Value
    ensures { result ≡ spec.coerced_to (option_copied ty.entry) value }
{
    match ty {
        Some(ty) => coerce(value, ty),
        None => value,
    }
}

/// A result at its type: what the branch gives, or the type's default where it gives nothing.
fn result_value(
    alloc: Global,
    inner: &Wires,
    name: Option<&[u8]>,
    ty: Option<&Ty>,
) -> Result<Value, AllocError>
    ensures { IfOk result (λ v. v ≡ spec.result_value (reader inner.now) (option_map (λ n. n.now) name.entry) (option_copied ty.entry)) }
{
    let Some(name) = name else {
        return default_at(alloc, ty);
    };
    let value = copied(alloc, inner.get(name))?;
    Ok(coerced_to(value, ty))
}

/// A case of which a branch is complete.
#[derive(Clone, Copy)]
struct Taken<'a, 'm, 'n, 'w> {
    table: &'a ViTable<'m>,
    arms: &'a [Arm<'n>],
    /// The branch that was taken.
    arm: &'a Arm<'n>,
    /// Its values.
    inner: &'a Wires<'w>,
}

/// Result k, from 0, at its operand, if a line declares one.
fn result_at(
    alloc: Global,
    taken: &Taken,
    k: usize,
    tunnel: &Tunnel,
) -> Result<Option<(u32, Value)>, AllocError>
    ensures { IfOk result (λ g. (vi : FlatVi) → IsViTable vi taken.now.table.now → (l : ℕ) → placed l g ≡ spec.result_outside vi.types (map seen_arm taken.now.arms.now) (seen_arm taken.now.arm.now) (reader taken.now.inner.now) k l tunnel.now) }
{
    match tunnel {
        Tunnel::Result { .. } => {
            let ty = result_type(taken.table, k, taken.arms);
            let value = result_value(alloc, taken.inner, given_name(taken.arm, k), ty)?;
            Ok(Some((1, value)))
        }
        Tunnel::Tunnel { .. }
        | Tunnel::Register { .. }
        | Tunnel::Kept { .. }
        | Tunnel::Last { .. }
        | Tunnel::Gather { .. }
        | Tunnel::Index { .. }
        | Tunnel::Carry { .. }
        | Tunnel::Ref { .. }
        | Tunnel::Element { .. }
        | Tunnel::Field { .. } => Ok(None),
    }
}

/// The number of the result after a line of a case.
fn next_result(tunnel: &Tunnel, k: usize) -> Result<usize, AllocError>
    ensures { IfOk result (λ m. m ≡ typing.next_result tunnel.now k) }
{
    match tunnel {
        Tunnel::Result { .. } => k.checked_add(1).ok_or(AllocError),
        Tunnel::Tunnel { .. }
        | Tunnel::Register { .. }
        | Tunnel::Kept { .. }
        | Tunnel::Last { .. }
        | Tunnel::Gather { .. }
        | Tunnel::Index { .. }
        | Tunnel::Carry { .. }
        | Tunnel::Ref { .. }
        | Tunnel::Element { .. }
        | Tunnel::Field { .. } => Ok(k),
    }
}

fn push_result(
    alloc: Global,
    given: &mut Given,
    taken: &Taken,
    k: usize,
    line: u32,
    tunnel: &Tunnel,
) -> Result<(), AllocError>
    ensures { OnOk result ((vi : FlatVi) → IsViTable vi taken.now.table.now → given.new ≡ given.old ++ spec.result_outside vi.types (map seen_arm taken.now.arms.now) (seen_arm taken.now.arm.now) (reader taken.now.inner.now) k line tunnel.now) }
{
    let value = result_at(alloc, taken, k, tunnel)?;
    place(given, line, value)
}

fn all_results(
    alloc: Global,
    taken: &Taken,
    first: u32,
    lines: &[Tunnel],
) -> Result<Given, AllocError>
    ensures { IfOk result (λ g. (vi : FlatVi) → IsViTable vi taken.now.table.now → g ≡ spec.results_outside vi.types (map seen_arm taken.now.arms.now) (seen_arm taken.now.arm.now) (reader taken.now.inner.now) 0 first lines.now) }
{
    let mut given = List::new(alloc);
    let (mut line, mut k) = (first, 0);
    for tunnel in lines {
        push_result(alloc, &mut given, taken, k, line, tunnel)?;
        k = next_result(tunnel, k)?;
        line = next(line)?;
    }
    Ok(given)
}

/// The results of a case of these branches, from the values of the branch that was taken. Only want of memory
/// refuses it, or a line of 2^32 or more.
pub fn results_outside<'a, 'm, 'n, 'w>(
    alloc: Global,
    table: &'a ViTable<'m>,
    inner: &'a Wires<'w>,
    arms: &'a [Arm<'n>],
    taken: &'a Arm<'n>,
    first: u32,
    lines: &[Tunnel],
) -> Result<Given, AllocError>
    ensures { IfOk result (λ g. (vi : FlatVi) → IsViTable vi table.now → g ≡ spec.results_outside vi.types (map seen_arm arms.now) (seen_arm taken.now) (reader inner.now) 0 first lines.now) }
{
    let taken = Taken {
        table,
        arms,
        arm: taken,
        inner,
    };
    all_results(alloc, &taken, first, lines)
}

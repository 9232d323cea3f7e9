//! Whether a loop has ended.

ghost use Rattle.std.specs.Prelude.{◌≡◌, ◌++◌, ◌∷◌, ℕ, List as Row};
ghost use Rattle.std.specs.Option.{option_copied, option_map};
ghost use Rattle.g_border.specs.Loops as spec;
ghost use Rattle.g_border.specs.Readers.{value_on};
ghost use Rattle.g_prims_definitions.specs.Arrays as arrays;
ghost use Rattle.g_prims_definitions.specs.Arrays.{length_at, number_of};
ghost use Rattle.g_prims_definitions.specs.Bits.{truth};
ghost use Rattle.g_prims_definitions.specs.Clusters.{or_nothing};
ghost use Rattle.g_values.specs.declared.value.Value.{out-Value};
ghost use Rattle.g_wire_values.specs.Wires.{reader};
ghost use Rattle.g_crossing.specs.Counts.{least_with};

use crate::values::value_at;
use g_diagram::{Tunnel, Wire};
use g_prims_edits::{count, is_true};
use g_values::Value;
use g_wire_values::Wires;

fn array_len(value: Option<&Value>) -> usize
    ensures { result ≡ length_at (out-Value (or_nothing (option_copied value.entry))) }
{
    match value {
        Some(Value::Nums(numbers)) => numbers.len(),
        Some(Value::Arr(array)) => array.items.len(),
        _ => 0,
    }
}

/// A count, where one below 0 counts as 0, and where there is none too.
fn count_of(value: Option<&Value>) -> usize
    ensures { result ≡ arrays.count (number_of (or_nothing (option_copied value.entry))) }
{
    match value {
        Some(value) => count(value),
        None => 0,
    }
}

/// The count of a loop, where it is wired.
fn wired_count(outer: &Wires, wire: &Wire) -> Option<usize>
    ensures { (ns : Row ℕ) → least_with result ns ≡ spec.least (spec.wired_count (reader outer.now) wire.now ++ ns) }
{
    if wire.is_none() {
        return None;
    }
    Some(count_of(value_at(outer, wire)))
}

#[tactic(auto, using(crate::proofs::CountLemmas::least_two))]
fn smaller(least: Option<usize>, n: usize) -> Option<usize>
    ensures { (ns : Row ℕ) → least_with result ns ≡ least_with least (n ∷ ns) }
{
    match least {
        Some(least) => Some(least.min(n)),
        None => Some(n),
    }
}

/// The least of some numbers and the size of the array of which a line gives elements.
fn with_size(outer: &Wires, least: Option<usize>, tunnel: &Tunnel) -> Option<usize>
    ensures { (ns : Row ℕ) → least_with result ns ≡ least_with least (spec.size_of (reader outer.now) tunnel.now ++ ns) }
{
    match tunnel {
        Tunnel::Index { array, .. } => smaller(least, array_len(value_at(outer, array))),
        Tunnel::Tunnel { .. }
        | Tunnel::Register { .. }
        | Tunnel::Kept { .. }
        | Tunnel::Last { .. }
        | Tunnel::Gather { .. }
        | Tunnel::Result { .. }
        | Tunnel::Carry { .. }
        | Tunnel::Ref { .. }
        | Tunnel::Element { .. }
        | Tunnel::Field { .. } => least,
    }
}

/// How many iterations a loop has that counts them.
fn iterations(outer: &Wires, count: &Wire, lines: &[Tunnel]) -> usize
    ensures { result ≡ spec.least (spec.wired_count (reader outer.now) count.now ++ spec.sizes (reader outer.now) lines.now) }
{
    let mut least = wired_count(outer, count);
    for tunnel in lines {
        least = with_size(outer, least, tunnel);
    }
    least.unwrap_or(0)
}

/// Whether a loop that counts its iterations has had so many.
fn is_counted(outer: &Wires, count: Option<&Wire>, lines: &[Tunnel], done: usize) -> bool
    ensures { result ≡ spec.is_counted (spec.iterations (reader outer.now) (option_map (λ w. w.now) count.entry) lines.now) done }
{
    match count {
        Some(count) => iterations(outer, count, lines) == done,
        None => false,
    }
}

fn is_true_on(wires: &Wires, wire: &Wire) -> bool
    ensures { result ≡ truth (value_on (reader wires.now) wire.now) }
{
    match value_at(wires, wire) {
        Some(value) => is_true(value),
        None => false,
    }
}

/// Whether the stop wire of a loop is TRUE in its latest iteration.
fn is_stopped(stop: Option<&Wire>, latest: Option<&Wires>) -> bool
    ensures { result ≡ spec.is_stopped (option_map (λ w. w.now) stop.entry) (option_map (λ w. reader w.now) latest.entry) }
{
    match stop {
        Some(stop) => match latest {
            Some(latest) => is_true_on(latest, stop),
            None => false,
        },
        None => false,
    }
}

/// Whether a loop with these operands and border lines has ended after so many iterations: it has as many as it
/// counts, or is stopped.
pub fn has_ended(
    outer: &Wires,
    count: Option<&Wire>,
    stop: Option<&Wire>,
    lines: &[Tunnel],
    done: usize,
    latest: Option<&Wires>,
) -> bool
    ensures { result ≡ spec.has_ended (reader outer.now) (option_map (λ w. w.now) count.entry) (option_map (λ w. w.now) stop.entry) lines.now done (option_map (λ w. reader w.now) latest.entry) }
{
    if is_counted(outer, count, lines, done) {
        return true;
    }
    is_stopped(stop, latest)
}

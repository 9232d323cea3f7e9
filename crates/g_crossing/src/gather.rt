//! Arrays of what a wire had in each frame.

ghost use Rattle.std.specs.Prelude.{◌≡◌, map, take, IfOk};
ghost use Rattle.std.specs.Option.{option_copied};
ghost use Rattle.g_border.specs.Lines as border;
ghost use Rattle.g_border.specs.Readers.{value_on};
ghost use Rattle.g_literals.specs.Values as literals;
ghost use Rattle.g_prims_definitions.specs.Arithmetic.{numbers_of};
ghost use Rattle.g_prims_definitions.specs.Arrays.{number_of};
ghost use Rattle.g_prims_definitions.specs.Clusters.{or_nothing};
ghost use Rattle.g_types.specs.Rep.{wrap};
ghost use Rattle.g_types.specs.declared.ty.Ty.{out-Ty};
ghost use Rattle.g_values.specs.Number.{num_of};
ghost use Rattle.g_values.specs.Proper.{most};
ghost use Rattle.g_wire_values.specs.Wires.{reader};

use crate::values::value_at;
use g_diagram::Wire;
use g_lists::List;
use g_prims_edits::MOST;
use g_types::{Rep, Ty};
use g_values::{ArrOf, Num, NumArr, Value};
use g_wire_values::Wires;
use std::alloc::{AllocError, Global};

/// The number on a wire, in a representation. What is no number counts as 0.
fn number_on(wires: &Wires, wire: &Wire, rep: Rep) -> Num
    ensures { result ≡ num_of rep (number_of (value_on (reader wires.now) wire.now)) }
{
    number_in(value_at(wires, wire), rep)
}

fn number_in(value: Option<&Value>, rep: Rep) -> Num
    ensures { result ≡ num_of rep (number_of (or_nothing (option_copied value.entry))) }
{
    match value {
        Some(Value::Num(x)) => Num::wrapped(rep, x.n),
        _ => Num::wrapped(rep, 0),
    }
}

/// The numbers on a wire in some frames.
fn numbers(alloc: Global, rep: Rep, inner: &[Wires], wire: &Wire) -> Result<NumArr, AllocError>
    ensures { IfOk result (λ xs. xs ≡ numbers_of rep (map (λ v. wrap rep (number_of v)) (map (λ r. value_on r wire.now) (map reader inner.now)))) }
{
    let mut numbers = NumArr::new(alloc, rep);
    for wires in inner {
        numbers.push(number_on(wires, wire, rep))?;
    }
    Ok(numbers)
}

/// The values on a wire in some frames.
fn values(alloc: Global, inner: &[Wires], wire: &Wire) -> Result<List<Value>, AllocError>
    ensures { IfOk result (λ vs. vs ≡ map (λ r. value_on r wire.now) (map reader inner.now)) }
{
    let mut values = List::new(alloc);
    for wires in inner {
        values.push(wires.value(alloc, wire)?)?;
    }
    Ok(values)
}

/// An array of what a wire had in each of some frames, as elements of a type.
fn array_of(alloc: Global, ty: &Ty, inner: &[Wires], wire: &Wire) -> Result<Value, AllocError>
    ensures { IfOk result (λ v. v ≡ literals.array_of ty.now (out-Ty ty.now) (map (λ r. value_on r wire.now) (map reader inner.now))) }
{
    match ty {
        Ty::Num(rep) => Ok(Value::Nums(numbers(alloc, *rep, inner, wire)?)),
        Ty::Bool | Ty::Str | Ty::Arr(_) | Ty::Cluster(_) | Ty::QueueRef(_) | Ty::ValueRef(_) => {
            let elem = g_types::copy(alloc, ty)?;
            let items = values(alloc, inner, wire)?;
            Ok(Value::Arr(ArrOf { elem, items }))
        }
    }
}

/// The first frames, as many as an array holds elements.
fn first<'b, 'a>(inner: &'b [Wires<'a>]) -> &'b [Wires<'a>]
    ensures { result.now ≡ take most inner.now }
{
    if inner.len() <= MOST {
        return inner;
    }
    &inner[..MOST]
}

/// An array of what a wire had in each frame, in order; the first of them where they are more than an array
/// holds. FALSE where the type of the wire is unknown.
pub fn gathered(
    alloc: Global,
    ty: Option<&Ty>,
    inner: &[Wires],
    wire: &Wire,
) -> Result<Value, AllocError>
    ensures { IfOk result (λ v. v ≡ border.gathered (option_copied ty.entry) (map (λ r. value_on r wire.now) (map reader inner.now))) }
{
    match ty {
        Some(ty) => {
            let array = array_of(alloc, ty, first(inner), wire)?;
            Ok(array)
        }
        None => Ok(Value::Bool(false)),
    }
}

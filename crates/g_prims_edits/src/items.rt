//! Arrays of other values than numbers, changed in their buffers.

ghost use Rattle.std.specs.Prelude.{◌≡◌, ◌+◌, ◌++◌, ◌∷◌, [], IfOk, OnOk, reverse, take, drop};
ghost use Rattle.g_prims_definitions.specs.Arrays.{replaced_at, within};
ghost use Rattle.g_prims_definitions.specs.Bits.{items_of};

use crate::copies::copy;
use crate::limits::MOST;
use crate::vectors::{delete, subset};
use g_lists::List;
use g_values::{ArrOf, Value, ValueArr};
use std::alloc::{AllocError, Global};

/// The elements in the other order.
pub fn reversed_items(xs: ValueArr) -> ValueArr
    ensures { result ≡ items_of xs (reverse xs.items) }
{
    let ArrOf { elem, items } = xs;
    let mut items = items.into_vec();
    items.reverse();
    let items = List::from_vec(items);
    ArrOf { elem, items }
}

/// So many elements from a place on, cut at the end.
pub fn subset_items(xs: ValueArr, from: usize, count: usize) -> ValueArr
    ensures { result ≡ items_of xs (take count (drop from xs.items)) }
{
    let ArrOf { elem, items } = xs;
    let items = List::from_vec(subset(items.into_vec(), from, count));
    ArrOf { elem, items }
}

/// What remains without so many elements from a place on, and these.
pub fn delete_items(
    alloc: Global,
    xs: ValueArr,
    from: usize,
    count: usize,
) -> Result<(ValueArr, ValueArr), AllocError>
    ensures rest { IfOk result (λ p. p.0 ≡ items_of xs (take from xs.items ++ drop (from + count) xs.items)) }
    ensures cut { IfOk result (λ p. p.1 ≡ items_of xs (take count (drop from xs.items))) }
{
    let ArrOf { elem, items } = xs;
    let other = g_types::copy(alloc, &elem)?;
    let (rest, cut) = delete(items.into_vec(), from, count)?;
    let rest = ArrOf {
        elem,
        items: List::from_vec(rest),
    };
    let cut = ArrOf {
        elem: other,
        items: List::from_vec(cut),
    };
    Ok((rest, cut))
}

/// Another element at a place. Out of range nothing changes.
pub fn replace_item(xs: ValueArr, at: Option<usize>, e: Value) -> ValueArr
    ensures { result ≡ items_of xs (replaced_at xs.items at e) }
{
    let ArrOf { elem, mut items } = xs;
    put(&mut items, at, e);
    ArrOf { elem, items }
}

fn put(items: &mut List<Value>, at: Option<usize>, e: Value)
    ensures { items.new ≡ replaced_at items.old at e }
{
    let Some(at) = at else {
        return;
    };
    if at < items.len() {
        items.set(at, e);
    }
}

/// An element at the end, if there is room.
pub fn build_item(xs: ValueArr, e: Value) -> Result<ValueArr, AllocError>
    ensures { IfOk result (λ r. r ≡ items_of xs (within (xs.items ++ e ∷ []))) }
{
    let ArrOf { elem, mut items } = xs;
    items.push(e)?;
    items.truncate(MOST);
    Ok(ArrOf { elem, items })
}

fn push_copies(alloc: Global, items: &mut List<Value>, more: &[Value]) -> Result<(), AllocError>
    ensures { OnOk result (items.new ≡ items.old ++ more.now) }
{
    for value in more {
        items.push(copy(alloc, value)?)?;
    }
    Ok(())
}

/// The elements of two arrays, as far as there is room.
pub fn concat_items(alloc: Global, xs: ValueArr, ys: &ValueArr) -> Result<ValueArr, AllocError>
    ensures { IfOk result (λ r. r ≡ items_of xs (within (xs.items ++ ys.now.items))) }
{
    let ArrOf { elem, mut items } = xs;
    push_copies(alloc, &mut items, ys.items.as_slice())?;
    items.truncate(MOST);
    Ok(ArrOf { elem, items })
}

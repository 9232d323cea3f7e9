//! Elements of clusters.

ghost use Rattle.std.specs.Prelude.{◌≡◌, [], IfOk, OnOk};
ghost use Rattle.g_prims_definitions.specs.Clusters as spec;

use crate::copies::copy;
use g_lists::List;
use g_values::{Value, coerce, type_of};
use std::alloc::{AllocError, Global};

/// The elements of a cluster. What is no cluster has none.
pub fn parts(alloc: Global, c: Value) -> List<Value>
    ensures { result ≡ spec.parts c }
{
    match c {
        Value::Cluster(items) => items,
        other => no_parts(alloc, other),
    }
}

fn no_parts(alloc: Global, _value: Value) -> List<Value>
    ensures { result ≡ [] }
{
    List::new(alloc)
}

fn part(alloc: Global, items: &List<Value>, k: usize) -> Result<Value, AllocError>
    ensures { IfOk result (λ v. v ≡ spec.part_at items.now k) }
{
    match items.get(k) {
        Some(item) => copy(alloc, item),
        None => Ok(Value::Bool(false)),
    }
}

/// Element `k` of a cluster, from 0.
pub fn get(alloc: Global, k: u8, c: &Value) -> Result<Value, AllocError>
    ensures { IfOk result (λ v. v ≡ spec.get k c.now) }
{
    match c {
        Value::Cluster(items) => part(alloc, items, usize::from(k)),
        _ => Ok(Value::Bool(false)),
    }
}

fn put_part(alloc: Global, items: &mut List<Value>, k: usize, e: Value) -> Result<(), AllocError>
    ensures { OnOk result (items.new ≡ spec.with_part items.old k e) }
{
    if k >= items.len() {
        return Ok(());
    }
    let ty = type_of(alloc, &items.as_slice()[k])?;
    items.set(k, coerce(e, &ty));
    Ok(())
}

/// A cluster with another element `k`, which is coerced to the type of the one that was there.
pub fn put(alloc: Global, k: u8, c: Value, e: Value) -> Result<Value, AllocError>
    ensures { IfOk result (λ v. v ≡ spec.put k c e) }
{
    let mut items = parts(alloc, c);
    put_part(alloc, &mut items, usize::from(k), e)?;
    Ok(Value::Cluster(items))
}

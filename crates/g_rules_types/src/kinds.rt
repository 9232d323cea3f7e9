//! Kinds of types, as the rules tell them apart.

ghost use Rattle.std.specs.Prelude.{◌≡◌};
ghost use Rattle.std.specs.Option.{option_copied};
ghost use Rattle.g_prims_definitions.specs.Kinds as kinds;
ghost use Rattle.g_prims_definitions.specs.Rows as rows;
ghost use Rattle.g_typing.specs.Types as spec;

use g_prims::kinds::is_array;
use g_types::{Ty, fits};

/// Whether it can stand in an array or a cluster: it is at most 7 deep.
pub fn is_shallow(ty: &Ty) -> bool
    ensures { result ≡ rows.is_shallow ty.now }
{
    fits(ty, 7)
}

/// Whether an array's elements may have the type.
pub fn is_element(ty: &Ty) -> bool
    ensures { result ≡ rows.is_element ty.now }
{
    !is_array(ty) && is_shallow(ty)
}

/// The type of an array's elements.
pub fn element(ty: Option<&Ty>) -> Option<&Ty>
    ensures { option_copied result ≡ spec.then_type (option_copied ty.entry) spec.element }
{
    match ty {
        Some(Ty::Arr(item)) => Some(item.get()),
        _ => None,
    }
}

/// The type of a queue's items, by the type of a reference to it.
pub fn queued(ty: Option<&Ty>) -> Option<&Ty>
    ensures { option_copied result ≡ spec.then_type (option_copied ty.entry) spec.queued }
{
    match ty {
        Some(Ty::QueueRef(item)) => Some(item.get()),
        _ => None,
    }
}

/// The type of the value that a reference names.
pub fn referred(ty: Option<&Ty>) -> Option<&Ty>
    ensures { option_copied result ≡ spec.then_type (option_copied ty.entry) spec.referred }
{
    match ty {
        Some(Ty::ValueRef(item)) => Some(item.get()),
        _ => None,
    }
}

/// The type of a cluster's element, counted from 0.
pub fn part(ty: Option<&Ty>, k: u8) -> Option<&Ty>
    ensures { option_copied result ≡ spec.then_type (option_copied ty.entry) (kinds.part k) }
{
    match ty {
        Some(Ty::Cluster(parts)) => parts.get(usize::from(k)),
        _ => None,
    }
}

//! Lists of output types.

ghost use Rattle.std.specs.Prelude.{◌≡◌, IfOk, ◌∷◌, []};

use g_lists::{Boxed, List};
use g_types::{Rep, Ty, TyList, copy};
use std::alloc::{AllocError, Global};

/// One output of this type.
pub fn one(alloc: Global, ty: Ty) -> Result<TyList, AllocError>
    ensures { IfOk result (λ ts. ts ≡ ty ∷ []) }
{
    let mut all = Vec::new(alloc);
    all.push(ty)?;
    Ok(List::from_vec(all))
}

/// Two outputs of these types.
pub fn two(alloc: Global, first: Ty, second: Ty) -> Result<TyList, AllocError>
    ensures { IfOk result (λ ts. ts ≡ first ∷ second ∷ []) }
{
    let mut all = Vec::new(alloc);
    all.push(first)?;
    all.push(second)?;
    Ok(List::from_vec(all))
}

/// One output of the same type as this.
pub fn one_copy(alloc: Global, ty: &Ty) -> Result<TyList, AllocError>
    ensures { IfOk result (λ ts. ts ≡ ty.now ∷ []) }
{
    let ty = copy(alloc, ty)?;
    one(alloc, ty)
}

/// Two outputs of the same type as this.
pub fn two_copies(alloc: Global, ty: &Ty) -> Result<TyList, AllocError>
    ensures { IfOk result (λ ts. ts ≡ ty.now ∷ ty.now ∷ []) }
{
    let first = copy(alloc, ty)?;
    let second = copy(alloc, ty)?;
    two(alloc, first, second)
}

/// The type of arrays of numbers.
pub fn numbers(alloc: Global, rep: Rep) -> Result<Ty, AllocError>
    ensures { IfOk result (λ t. t ≡ Ty.Arr (Ty.Num rep)) }
{
    Ok(Ty::Arr(Boxed::new(alloc, Ty::Num(rep))?))
}

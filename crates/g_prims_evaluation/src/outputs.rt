//! Lists of outputs.

ghost use Rattle.std.specs.Prelude.{◌≡◌, IfOk, ◌∷◌, []};

use g_lists::List;
use g_values::Value;
use std::alloc::{AllocError, Global};

/// One output.
pub fn one(alloc: Global, value: Value) -> Result<List<Value>, AllocError>
    ensures { IfOk result (λ vs. vs ≡ value ∷ []) }
{
    let mut all = List::new(alloc);
    all.push(value)?;
    Ok(all)
}

/// Two outputs.
pub fn two(alloc: Global, first: Value, second: Value) -> Result<List<Value>, AllocError>
    ensures { IfOk result (λ vs. vs ≡ first ∷ second ∷ []) }
{
    let mut all = List::new(alloc);
    all.push(first)?;
    all.push(second)?;
    Ok(all)
}

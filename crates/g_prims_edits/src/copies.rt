//! Copies inside an operation, which are no copies of a wire's buffer.

ghost use Rattle.std.specs.Prelude.{◌≡◌, IfOk};

use g_values::{Copies, Value};
use std::alloc::{AllocError, Global};

/// Another owner of the same value.
pub fn copy(alloc: Global, value: &Value) -> Result<Value, AllocError>
    ensures { IfOk result (λ v. v ≡ value.now) }
{
    let mut copies = Copies { n: 0 };
    g_values::copy(alloc, value, &mut copies)
}

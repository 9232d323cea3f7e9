//! The values that each primitive gives.

ghost use Rattle.std.specs.Prelude.{◌≡◌, IfOk};
ghost use Rattle.g_prims_definitions.specs.Conditions.{HasRow};
ghost use Rattle.g_prims_definitions.specs.Values.{outputs_of};

use g_prims_evaluation::evaluate;
use g_values::{Primitive, ValueList};
use std::alloc::{AllocError, Global};

/// The values that the primitive gives for inputs whose types have a row. The inputs stay as they are,
/// and only want of memory refuses it. It copies what the operation takes: it is the plain program,
/// independent of the kernels that work in a buffer.
pub fn apply(alloc: Global, primitive: &Primitive, ins: &ValueList) -> Result<ValueList, AllocError>
    requires { HasRow primitive.now ins.now }
    ensures { IfOk result (λ outs. outs ≡ outputs_of primitive.now ins.now) }
{
    let outs = evaluate(alloc, primitive, ins.as_slice())?;
    Ok(ValueList::from_list(outs))
}

//! Places of sources, one after another.

ghost use Rattle.std.specs.Prelude.{◌≡◌, ◌+◌, ◌++◌, ◌∷◌, [], IfOk, OnOk};
ghost use Rattle.g_node_values.specs.Outputs.{place};

use g_border::WireSource;
use std::alloc::AllocError;

/// The next line or operand. Want of memory tells that there is none, since no place has such a number.
pub fn next(n: u32) -> Result<u32, AllocError>
    ensures { IfOk result (λ m. m ≡ n + 1) }
{
    n.checked_add(1).ok_or(AllocError)
}

/// Adds a place. Only want of memory refuses it.
pub fn push(places: &mut Vec<WireSource>, line: u32, operand: u32) -> Result<(), AllocError>
    ensures { OnOk result (places.new.items ≡ places.old.items ++ place line operand ∷ []) }
{
    places.push(WireSource { line, operand })?;
    Ok(())
}
